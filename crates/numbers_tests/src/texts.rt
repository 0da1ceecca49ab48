//! Number texts with their outcomes, worked out by hand from the rules in `specs/` of `frac_text`.
use base_names::NoMemory;
use frac_text::{NumFault, read, write, write_onto, write_size_onto};
use frac128::Frac;
use std::alloc::Global;

/// 2^127 - 1.
const MOST: i128 = 170_141_183_460_469_231_731_687_303_715_884_105_727;
/// 10^38.
const TENS: i128 = 100_000_000_000_000_000_000_000_000_000_000_000_000;

/// Texts, with the numerator and the denominator of their values.
const VALUES: &[(&str, i128, i128)] = &[
    ("0", 0, 1),
    ("-0", 0, 1),
    ("0.000", 0, 1),
    ("0/5", 0, 1),
    ("0e9999", 0, 1),
    ("-.0e-9999", 0, 1),
    ("7", 7, 1),
    ("00012", 12, 1),
    ("-12", -12, 1),
    ("+12", 12, 1),
    ("1.50", 3, 2),
    ("-2.5", -5, 2),
    (".5", 1, 2),
    ("-.25", -1, 4),
    ("5.", 5, 1),
    ("00.100", 1, 10),
    ("1E+3", 1000, 1),
    ("1e0003", 1000, 1),
    ("12e-1", 6, 5),
    ("7.e2", 700, 1),
    ("1.25e2", 125, 1),
    ("120.0e-2", 6, 5),
    ("2/4", 1, 2),
    ("-6/4", -3, 2),
    ("+10/0005", 2, 1),
    ("100000000000000000000", 100_000_000_000_000_000_000, 1),
    ("1e38", TENS, 1),
    ("-1.000e38", -TENS, 1),
    ("1e-38", 1, TENS),
    ("0.00000000000000000000000000000000000001", 1, TENS),
    ("170141183460469231731687303715884105727", MOST, 1),
    ("-170141183460469231731687303715884105727", -MOST, 1),
    ("1/170141183460469231731687303715884105727", 1, MOST),
];

fn is_read(text: &[u8], num: i128, den: i128) -> bool {
    match &Frac::make(num, den) {
        Some(value) => read(text) == Ok(*value),
        None => false,
    }
}

#[test]
fn texts_with_a_value(rt: HostRuntime) {
    for (text, num, den) in VALUES {
        assert!(rt; is_read(text.as_bytes(), *num, *den), "{text}");
    }
}

/// Texts, whether they are below 0, and whether they are at 10^20 or past it.
const TOO_WIDE: &[(&str, bool, bool)] = &[
    ("1e39", false, true),
    ("-1e39", true, true),
    ("8e-39", false, false),
    ("-8e-39", true, false),
    ("1e9999", false, true),
    ("1e-9999", false, false),
    ("170141183460469231731687303715884105728", false, true),
    ("-170141183460469231731687303715884105728", true, true),
    ("10e38", false, true),
    // Twenty digits before the point, and twenty-one.
    ("99999999999999999999.99999999999999999999", false, false),
    ("100000000000000000000.00000000000000000001", false, true),
    ("1.0000000000000000000000000000000000000001", false, false),
    (
        "0000000000000000000000.0000000000000000000000000000000000000001",
        false,
        false,
    ),
    // What is equal on both sides of the slash is 1.
    (
        "170141183460469231731687303715884105728/170141183460469231731687303715884105728",
        false,
        false,
    ),
    ("1/170141183460469231731687303715884105728", false, false),
    ("-1/170141183460469231731687303715884105728", true, false),
    ("340282366920938463463374607431768211456/2", false, true),
    // 10^39 / 10^19 and its neighbours, by the count of digits and then from the left.
    (
        "1000000000000000000000000000000000000000/10000000000000000000",
        false,
        true,
    ),
    (
        "999999999999999999999999999999999999999/10000000000000000000",
        false,
        false,
    ),
    (
        "00999999999999999999999999999999999999999/10000000000000000000",
        false,
        false,
    ),
    (
        "1999999999999999999999999999999999999999/20000000000000000000",
        false,
        false,
    ),
    (
        "-2000000000000000000000000000000000000000/0020000000000000000000",
        true,
        true,
    ),
];

fn is_too_wide(text: &str, negative: bool, huge: bool) -> bool {
    read(text.as_bytes()) == Err(NumFault::TooWide { negative, huge })
}

#[test]
fn texts_too_wide(rt: HostRuntime) {
    for (text, negative, huge) in TOO_WIDE {
        assert!(rt; is_too_wide(text, *negative, *huge), "{text}");
    }
}

const NO_NUMBERS: &[&str] = &[
    "", "+", "-", ".", "+.", "e5", ".e5", "1e", "1e+", "1e12345", "1e-00001", "1e5e5", "1e5.0",
    "1/0", "0/00", "1/", "/5", "1/2/3", "1.5/2", "1/2.5", "1e5/2", "1/2e3", "1/-2", "--1", "+-1",
    "1 ", " 1", "1x", "0x10", "1..2", "1.2.3", "inf", "1_000", "1,5", "12a4",
];

#[test]
fn texts_that_are_no_numbers(rt: HostRuntime) {
    for text in NO_NUMBERS {
        assert!(rt; read(text.as_bytes()) == Err(NumFault::NotNumber), "{text}");
    }
}

#[test]
fn at_most_255_bytes(rt: HostRuntime) {
    let mut digits = [b'0'; 256];
    digits[255] = b'7';
    assert!(rt; is_read(&digits[1..], 7, 1));
    assert!(rt; read(&digits) == Err(NumFault::NotNumber));
}

/// Numerators and denominators, with the texts of the fractions.
const WRITTEN: &[(i128, i128, &str)] = &[
    (0, 1, "0"),
    (12, 1, "12"),
    (-12, 1, "-12"),
    (2, 4, "1/2"),
    (-5, 2, "-5/2"),
    (5, -2, "-5/2"),
    (MOST, 1, "170141183460469231731687303715884105727"),
    (
        -MOST,
        MOST - 1,
        "-170141183460469231731687303715884105727/170141183460469231731687303715884105726",
    ),
];

/// The text, which is read again as the value.
fn has_text(alloc: Global, value: &Frac, text: &str) -> Result<bool, NoMemory> {
    let written = write(alloc, value)?;
    Ok(written.as_bytes() == text.as_bytes() && read(written.as_bytes()) == Ok(*value))
}

fn is_written(alloc: Global, num: i128, den: i128, text: &str) -> Result<bool, NoMemory> {
    match &Frac::make(num, den) {
        Some(value) => has_text(alloc, value, text),
        None => Ok(false),
    }
}

#[test]
fn written_texts(rt: HostRuntime) {
    for (num, den, text) in WRITTEN {
        assert!(rt;
            is_written(rt.alloc(), *num, *den, text) == Ok(true),
            "{text}"
        );
    }
}

fn added(alloc: Global, value: &Frac) -> Result<Vec<u8>, NoMemory> {
    let mut out = b"x = ".to_vec(alloc)?;
    write_onto(&mut out, value)?;
    out.extend_from_slice(b" - ")?;
    write_size_onto(&mut out, value)?;
    Ok(out)
}

fn is_added(alloc: Global, num: i128, den: i128, text: &[u8]) -> Result<bool, NoMemory> {
    match &Frac::make(num, den) {
        Some(value) => Ok(added(alloc, value)?.as_slice() == text),
        None => Ok(false),
    }
}

#[test]
fn texts_added_to_bytes(rt: HostRuntime) {
    assert!(rt; is_added(rt.alloc(), -10, 4, b"x = -5/2 - 5/2") == Ok(true));
}

fn is_told(alloc: Global, fault: &NumFault, text: &str) -> Result<bool, NoMemory> {
    Ok(fault.to_string(alloc)?.as_str() == text)
}

#[test]
fn texts_of_faults(rt: HostRuntime) {
    let wide = NumFault::TooWide {
        negative: true,
        huge: false,
    };
    assert!(rt; is_told(rt.alloc(), &wide, "a number too wide") == Ok(true));
    assert!(rt; is_told(rt.alloc(), &NumFault::NotNumber, "no number") == Ok(true));
}
