//! Names, ids, refusals and lists: their texts and their copies, from the rules in `specs/` of `base_names`.
//!
//! Values are compared by functions that borrow them and answer a `bool`: proofs about owned values in a test of many assertions take long.

use base_names::{
    BatchId, FaultWord, Label, Named, NoMemory, NodeNo, OrMemory, Owner, OwnerLimit, Refusal, Seq,
    Tagged, Text, TryCopy, append, are_digits, read_decimal, read_digits, read_id, refusal_text,
    write_decimal, write_id,
};
use std::alloc::Global;

const REFUSALS: &[(Refusal, &str)] = &[
    (Refusal::KEY, "ERR 1 KEY"),
    (Refusal::LINE, "ERR 2 LINE"),
    (Refusal::STATE, "ERR 3 STATE"),
    (
        Refusal::MODEL(1, 1, FaultWord::NoSection),
        "ERR 4 MODEL 1 1 NOSECTION",
    ),
    (
        Refusal::MODEL(5, 17, FaultWord::Number),
        "ERR 4 MODEL 5 17 NUMBER",
    ),
    (
        Refusal::MODEL(12, 3, FaultWord::Word),
        "ERR 4 MODEL 12 3 WORD",
    ),
    (
        Refusal::MODEL(2, 9, FaultWord::NameLength),
        "ERR 4 MODEL 2 9 NAMELENGTH",
    ),
    (
        Refusal::MODEL(2, 9, FaultWord::DoubledName),
        "ERR 4 MODEL 2 9 DOUBLEDNAME",
    ),
    (
        Refusal::MODEL(1, 1, FaultWord::Unsupported),
        "ERR 4 MODEL 1 1 UNSUPPORTED",
    ),
    (
        Refusal::MODEL(2, 9, FaultWord::AfterEnd),
        "ERR 4 MODEL 2 9 AFTEREND",
    ),
    (
        Refusal::MODEL(4294967295, 4294967294, FaultWord::Size),
        "ERR 4 MODEL 4294967295 4294967294 SIZE",
    ),
    (Refusal::NAME, "ERR 5 NAME"),
    (Refusal::DUPLICATE, "ERR 6 DUPLICATE"),
    (Refusal::RANGE, "ERR 7 RANGE"),
    (Refusal::PARAM, "ERR 8 PARAM"),
    (Refusal::NOTAG, "ERR 9 NOTAG"),
    (Refusal::SIZE, "ERR 10 SIZE"),
    (Refusal::NOJOB, "ERR 11 NOJOB"),
    (Refusal::NONODE, "ERR 12 NONODE"),
    (Refusal::BATCH, "ERR 13 BATCH"),
    (Refusal::BATCHSTATE(5), "ERR 14 BATCHSTATE 5"),
    (
        Refusal::OWNERFULL(OwnerLimit::Commands),
        "ERR 15 OWNERFULL COMMANDS",
    ),
    (
        Refusal::OWNERFULL(OwnerLimit::Numbers),
        "ERR 15 OWNERFULL NUMBERS",
    ),
    (
        Refusal::OWNERFULL(OwnerLimit::Bytes),
        "ERR 15 OWNERFULL BYTES",
    ),
    (Refusal::JOURNALFULL(7, 8), "ERR 16 JOURNALFULL"),
    (Refusal::DISK(0, 1), "ERR 17 DISK"),
    (Refusal::MEMORY, "ERR 18 MEMORY"),
    (Refusal::ROLE, "ERR 19 ROLE"),
    (Refusal::NOSOLUTION, "ERR 20 NOSOLUTION"),
    (Refusal::NODE, "ERR 21 NODE"),
    (Refusal::NODELOST(NodeNo(3)), "ERR 22 NODELOST 3"),
];

fn has_text(alloc: Global, refusal: &Refusal, text: &str) -> Result<bool, NoMemory> {
    Ok(refusal_text(alloc, refusal)?.as_bytes() == text.as_bytes())
}

#[test]
fn refusals_have_their_texts(rt: HostRuntime) {
    for (refusal, text) in REFUSALS {
        assert!(rt; has_text(rt.alloc(), refusal, text) == Ok(true), "{text}");
    }
}

const OWNERS: &[&str] = &[
    "a",
    "_",
    "0",
    "ada",
    "z9_",
    "abcdefghijklmnopqrstuvwxyz_01234",
];

const NO_OWNERS: &[&str] = &[
    "",
    "Ada",
    "ada.",
    "a a",
    "a-b",
    "`",
    "{",
    "/",
    ":",
    "a\0",
    "abcdefghijklmnopqrstuvwxyz_012345",
];

fn is_spelled(alloc: Global, owner: &Owner, name: &str) -> Result<bool, NoMemory> {
    Ok(
        owner.as_bytes() == name.as_bytes()
            && owner.as_str().as_bytes() == name.as_bytes()
            && owner.to_string(alloc)?.as_bytes() == name.as_bytes(),
    )
}

fn is_owner(alloc: Global, name: &str) -> Result<bool, NoMemory> {
    match &Owner::read(name.as_bytes()) {
        Some(owner) => is_spelled(alloc, owner, name),
        None => Ok(false),
    }
}

#[test]
fn owners_are_read(rt: HostRuntime) {
    for name in OWNERS {
        assert!(rt; is_owner(rt.alloc(), name) == Ok(true), "{name}");
    }
    for other in NO_OWNERS {
        assert!(rt; Owner::read(other.as_bytes()).is_none(), "{other}");
    }
}

fn are_in_order(low: &[u8], high: &[u8]) -> bool {
    match (&Owner::read(low), &Owner::read(high)) {
        (Some(low), Some(high)) => low < high && low != high && low == low,
        _ => false,
    }
}

#[test]
fn owners_are_ordered_by_their_bytes(rt: HostRuntime) {
    assert!(rt; are_in_order(b"0", b"_"));
    assert!(rt; are_in_order(b"_", b"a"));
    assert!(rt; are_in_order(b"a", b"aa"));
    assert!(rt; are_in_order(b"aa", b"ab"));
    assert!(rt; are_in_order(b"ab", b"b"));
}

/// Texts of IDs, with the name and the number that each has.
const IDS: &[(&str, &str, u32)] = &[
    ("ada.1", "ada", 1),
    ("ada.0", "ada", 0),
    ("_.10", "_", 10),
    ("bob.4294967295", "bob", 4294967295),
];

const NO_IDS: &[&str] = &[
    "",
    "ada",
    "ada.",
    ".1",
    "ada.01",
    "ada.00",
    "ada.+1",
    "ada.-1",
    "ada.1 ",
    " ada.1",
    "ada..1",
    "ada.1.1",
    "ada.1a",
    "Ada.1",
    "ada.4294967296",
    "ada.18446744073709551617",
];

fn is_written(alloc: Global, id: &BatchId, text: &str) -> Result<bool, NoMemory> {
    Ok(
        write_id(alloc, id)?.as_bytes() == text.as_bytes()
            && id.to_string(alloc)?.as_bytes() == text.as_bytes(),
    )
}

fn is_id(alloc: Global, text: &str, name: &str, number: u32) -> Result<bool, NoMemory> {
    match &read_id(text.as_bytes()) {
        Some(id) => Ok(
            id.owner.as_bytes() == name.as_bytes()
                && id.number == number
                && is_written(alloc, id, text)?,
        ),
        None => Ok(false),
    }
}

#[test]
fn ids_are_read_and_written(rt: HostRuntime) {
    for (text, name, number) in IDS {
        assert!(rt;
            is_id(rt.alloc(), text, name, *number) == Ok(true),
            "{text}"
        );
    }
    for other in NO_IDS {
        assert!(rt; read_id(other.as_bytes()).is_none(), "{other}");
    }
}

fn adds_texts(alloc: Global) -> Result<bool, NoMemory> {
    let mut out = b"BATCH ".to_vec(alloc)?;
    if let Some(id) = read_id(b"ada.12") {
        append(&mut out, id)?;
    }
    append(&mut out, format_args!("\nBLOCK {}\n", 3))?;
    append(&mut out, Refusal::SIZE)?;
    Ok(out.as_slice() == b"BATCH ada.12\nBLOCK 3\nERR 10 SIZE".as_slice())
}

#[test]
fn texts_are_written_onto_a_buffer(rt: HostRuntime) {
    assert!(rt; adds_texts(rt.alloc()) == Ok(true));
}

/// Digits, with the number that they are, and the one that they spell.
const DIGITS: &[(&str, Option<u64>, Option<u64>)] = &[
    ("0", Some(0), Some(0)),
    ("00", Some(0), None),
    ("7", Some(7), Some(7)),
    ("007", Some(7), None),
    (
        "18446744073709551615",
        Some(18446744073709551615),
        Some(18446744073709551615),
    ),
    ("018446744073709551615", Some(18446744073709551615), None),
    ("18446744073709551616", None, None),
    ("99999999999999999999999", None, None),
];

const NO_DIGITS: &[&[u8]] = &[b"", b"+1", b"-1", b"1.0", b"1 ", b"/", b":", b"\xff"];

fn are_read(text: &[u8], digits: Option<u64>, decimal: Option<u64>) -> bool {
    read_digits(text) == digits && read_decimal(text) == decimal
}

#[test]
fn numbers_are_read(rt: HostRuntime) {
    for (text, digits, decimal) in DIGITS {
        assert!(rt; are_digits(text.as_bytes()), "{text}");
        assert!(rt; are_read(text.as_bytes(), *digits, *decimal), "{text}");
    }
    for other in NO_DIGITS {
        assert!(rt; !are_digits(other) && are_read(other, None, None));
    }
}

fn is_decimal(alloc: Global, number: u64, text: &[u8]) -> Result<bool, NoMemory> {
    Ok(write_decimal(alloc, number)?.as_bytes() == text)
}

#[test]
fn numbers_are_written(rt: HostRuntime) {
    let alloc = rt.alloc();
    assert!(rt; is_decimal(alloc, 0, b"0") == Ok(true));
    assert!(rt; is_decimal(alloc, 10, b"10") == Ok(true));
    assert!(rt; is_decimal(alloc, 18446744073709551615, b"18446744073709551615") == Ok(true));
}

fn is_copied<T: TryCopy + PartialEq>(alloc: Global, value: &T) -> Result<bool, NoMemory> {
    Ok(value.try_copy(alloc)? == *value)
}

fn text_is_a_list(alloc: Global, bytes: &[u8]) -> Result<bool, NoMemory> {
    let text = Text::of(bytes.to_vec(alloc)?);
    let copy = text.copy(alloc)?;
    Ok(
        text.as_bytes() == bytes
            && text.len() == bytes.len()
            && text.is_empty() == bytes.is_empty()
            && is_copied(alloc, &text)?
            && copy == text
            && copy.into_vec().as_slice() == bytes,
    )
}

fn label_is_a_list<Kind: Drop>(alloc: Global, bytes: &[u8]) -> Result<bool, NoMemory> {
    let label: Label<Kind> = Label::of(bytes.to_vec(alloc)?);
    let copy = label.copy(alloc)?;
    Ok(
        label.as_bytes() == bytes
            && label.len() == bytes.len()
            && label.is_empty() == bytes.is_empty()
            && is_copied(alloc, &label)?
            && copy == label
            && copy.into_vec().as_slice() == bytes,
    )
}

#[test]
fn texts_names_and_tags_are_lists_of_bytes(rt: HostRuntime) {
    let alloc = rt.alloc();
    for bytes in [b"".as_slice(), b"x\xff", b"y", b"z!\xff"] {
        assert!(rt; text_is_a_list(alloc, bytes) == Ok(true));
        assert!(rt; label_is_a_list::<Named>(alloc, bytes) == Ok(true));
        assert!(rt; label_is_a_list::<Tagged>(alloc, bytes) == Ok(true));
    }
}

fn is_a_list(list: &Seq<u32>, numbers: &[u32]) -> bool {
    list.as_vec().as_slice() == numbers
        && list.len() == numbers.len()
        && list.is_empty() == numbers.is_empty()
}

fn list_is_copied(alloc: Global, numbers: &[u32]) -> Result<bool, NoMemory> {
    let list: Seq<u32> = Seq::of(numbers.to_vec(alloc)?);
    Ok(
        is_a_list(&list, numbers)
            && list.copy(alloc)?.as_slice() == numbers
            && list.try_copy(alloc)?.into_vec().as_slice() == numbers,
    )
}

fn texts_of(alloc: Global, bytes: &[u8]) -> Result<Seq<Text>, NoMemory> {
    let mut texts = Vec::new(alloc);
    texts.push(Text::of(bytes.to_vec(alloc)?))?;
    Ok(Seq::of(texts))
}

fn holds(texts: &Seq<Text>, bytes: &[u8]) -> bool {
    texts.len() == 1 && texts.as_slice()[0].as_bytes() == bytes
}

fn texts_are_copied(alloc: Global, bytes: &[u8]) -> Result<bool, NoMemory> {
    Ok(holds(&texts_of(alloc, bytes)?.copy(alloc)?, bytes))
}

#[derive(Debug, Drop, PartialEq, Eq)]
struct Row {
    number: u32,
    texts: Seq<Text>,
}

fn rows_are_compared(alloc: Global) -> Result<bool, NoMemory> {
    let row = Row {
        number: 1,
        texts: texts_of(alloc, b"a")?,
    };
    let same = Row {
        number: 1,
        texts: row.texts.copy(alloc)?,
    };
    let other = Row {
        number: 1,
        texts: Seq::of(Vec::new(alloc)),
    };
    Ok(row == same && row != other)
}

#[test]
fn lists_are_copied(rt: HostRuntime) {
    let alloc = rt.alloc();
    assert!(rt; list_is_copied(alloc, &[4, 5]) == Ok(true));
    assert!(rt; texts_are_copied(alloc, b"a") == Ok(true));
    assert!(rt; rows_are_compared(alloc) == Ok(true));
}

fn kept(alloc: Global, text: &Text) -> Result<Vec<Text>, OrMemory<u8>> {
    if text.is_empty() {
        return Err(OrMemory::Fault(1));
    }
    let mut texts = Vec::with_capacity(alloc, 0)?;
    texts.push(text.copy(alloc)?)?;
    Ok(texts)
}

fn fault_of(alloc: Global, bytes: &[u8]) -> Result<Option<OrMemory<u8>>, NoMemory> {
    Ok(kept(alloc, &Text::of(bytes.to_vec(alloc)?)).err())
}

fn is_told(alloc: Global, fault: &OrMemory<Refusal>, text: &str) -> Result<bool, NoMemory> {
    Ok(fault.to_string(alloc)?.as_str() == text)
}

#[test]
fn faults_stand_beside_want_of_memory(rt: HostRuntime) {
    let alloc = rt.alloc();
    assert!(rt; fault_of(alloc, b"") == Ok(Some(OrMemory::Fault(1))));
    assert!(rt; fault_of(alloc, b"a") == Ok(None));
    assert!(rt; OrMemory::<u8>::from(NoMemory) == OrMemory::NoMemory);
    assert!(rt; Refusal::from(NoMemory) == Refusal::MEMORY);
    assert!(rt; is_told(alloc, &OrMemory::Fault(Refusal::KEY), "ERR 1 KEY") == Ok(true));
    assert!(rt; is_told(alloc, &OrMemory::NoMemory, "out of memory") == Ok(true));
}
