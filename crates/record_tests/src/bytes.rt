//! Bytes of records that were spelled by hand, and others that spell none.
use base_names::{BatchId, Owner, Seq};
use model_data::{AttemptOf, BatchRecord};
use rec_format::{decode, encode};
use std::alloc::Global;
use std::test::Fail;

/// Creates ada.258 with a model of two variables and two rows.
static CREATE: &[u8] =
    b"\x01\x03ada\0\0\x01\x02\0\0\0\x01\0\0\0\0\0\0\0\x05\0\0\0\0\0\0\0\x07\0\0\0\0\0\0\0\x0B\xFD\x01\
      \x01\0\0\0\0\0\0\0\0\0\0\0\0\0\0\0\x03\0\0\0\0\0\0\0\0\0\0\0\0\0\0\0\x04\0\0\0\x02\x01x\x01\xFF\
      \xFF\xFF\xFF\xFF\xFF\xFF\xFF\xFF\xFF\xFF\xFF\xFF\xFF\xFF\xFF\0\0\0\0\0\0\0\0\0\0\0\0\0\0\0\x03\0\
      \0\0\0\0\0\0\0\0\0\0\0\0\0\0\0\x02\0\0\0\0\0\0\0\0\0\0\0\0\0\0\0\x01\x01\x01\x02t0\x01y\x01\0\0\
      \0\0\0\0\0\0\0\0\0\0\0\0\0\0\0\0\0\0\0\0\0\0\0\0\0\0\0\0\0\x01\x01\0\0\0\0\0\0\0\0\0\0\0\0\0\0\0\
      \x05\0\0\0\0\0\0\0\0\0\0\0\0\0\0\0\x02\0\0\0\0\0\0\0\0\0\0\0\0\0\0\0\0\0\0\0\0\0\0\0\0\0\0\0\0\0\
      \0\0\x01\x02\x01\x02t1\0\0\0\x02\x01c\x01\xFF\xFF\xFF\xFF\xFF\xFF\xFF\xFF\xFF\xFF\xFF\xFF\xFF\
      \xFF\xFF\xF9\0\0\0\0\0\0\0\0\0\0\0\0\0\0\0\x02\0\0\0\x02\0\0\0\0\0\0\0\0\0\0\0\0\0\0\0\0\0\0\0\
      \x01\0\0\0\0\0\0\0\0\0\0\0\0\0\0\0\x01\0\0\0\x01\xFF\xFF\xFF\xFF\xFF\xFF\xFF\xFF\xFF\xFF\xFF\xFF\
      \xFF\xFF\xFF\xFE\0\0\0\0\0\0\0\0\0\0\0\0\0\0\0\x09\x01d\x02\0\0\0\0\0\0\0\0\0\0\0\0\0\0\0\0\0\0\
      \0\0\0\0\0\0\0\0\0\0\0\0\0\x01\0\0\0\0";

/// Ends bob_1.1's second attempt with a result that has a point, an operation that doesn't fit, and a certificate.
static FINISH: &[u8] =
    b"\x05\x05bob_1\0\0\0\x01\0\0\0\x02c\0\0\0\0\0\0\0\x01\0\0\0\0\0\0\0\x02\0\0\0\0\0\0\0\x03\x01\0\0\
      \0\x02\0\0\0\0\0\0\0\0\0\0\0\0\0\0\0\x01\0\0\0\0\0\0\0\0\0\0\0\0\0\0\0\x02\xFF\xFF\xFF\xFF\xFF\
      \xFF\xFF\xFF\xFF\xFF\xFF\xFF\xFF\xFF\xFF\xFF\0\0\0\0\0\0\0\0\0\0\0\0\0\0\0\x01\0\0\0\0\0\0\0\0\0\
      \0\0\0\0\0\0\x09\0\0\0\0\0\0\0\0\0\0\0\0\0\0\0\x01\x01\0\0\0\0\0\0\0\x04\x02\0\0\0\0\0\0\0\0\0\0\
      \0\0\0\0\0\x06\0\0\0\0\0\0\0\0\0\0\0\0\0\0\0\x01\xFF\xFF\xFF\xFF\xFF\xFF\xFF\xFF\xFF\xFF\xFF\xFF\
      \xFF\xFF\xFF\xFF\0\0\0\0\0\0\0\0\0\0\0\0\0\0\0\x05\x01\0\0\0\x03END";

/// A create as a session wrote it.
static FROM_SESSION: &[u8] =
    b"\x01\x03ada\0\0\0\x01\0\0\0\x01\0\0\0\0\0\x01\x86\xA0\0\0\0\0\0\0\0\xC8\0\0\0\xE8\xD4\xA5\x10\0\
      \x05\x01\x01\0\0\0\0\0\0\0\0\0\0\0\0\0\0\0\0\0\0\0\0\0\0\0\0\0\0\0\0\0\0\0\x01\0\0\0\x01\x02x1\0\
      \0\0\0\0\0\0\0\0\0\0\0\0\0\0\0\0\x04\0\0\0\0\0\0\0\0\0\0\0\0\0\0\0\x01\0\x01\x02t0\0\0\0\0";

/// A place in `CREATE`, and a byte with which it spells nothing.
static FAULTS: [(usize, u8); 34] = [
    // no kind
    (0, 0x00),
    // no kind
    (0, 0x08),
    // an owner without a name
    (1, 0x00),
    // a longer owner
    (1, 0x04),
    // a capital letter in an owner
    (2, 0x41),
    // too many iterations
    (17, 0x7F),
    // nodes
    (25, 0x7F),
    // work
    (29, 0x01),
    // priority
    (37, 0x65),
    // priority
    (37, 0x80),
    // detail
    (38, 0x02),
    // direction
    (39, 0x02),
    // constant 2/4
    (55, 0x02),
    // denominator 0
    (71, 0x00),
    // denominator below 0
    (56, 0x80),
    // a variable less
    (75, 0x01),
    // more variables than bytes
    (72, 0xFF),
    // no name
    (76, 0x00),
    // no name
    (77, 0x2E),
    // no option
    (78, 0x02),
    // kind
    (144, 0x03),
    // empty tag
    (146, 0x00),
    // a name twice
    (150, 0x78),
    // a tag twice
    (253, 0x30),
    // 0/2
    (183, 0x02),
    // bound
    (157, 0x01),
    // bound
    (152, 0x7F),
    // sense
    (260, 0x03),
    // terms that do not rise
    (300, 0x01),
    // no such place
    (300, 0x02),
    // no such variable
    (336, 0x02),
    // coefficient 0
    (316, 0x00),
    // a row twice
    (370, 0x63),
    // more terms than bytes
    (404, 0xFF),
];

static BAD: [&[u8]; 9] = [
    b"",
    b"\x03",
    b"\x03\x03Ada\0\0\0\x01",
    b"\x03\x03ada\0\0\0",
    b"\x03\x03ada\0\0\0\x01\0",
    b"\x06\xFF\xFF\xFF\xFF",
    b"\x03\x00\0\0\0\x01",
    b"\x0A\x03ada\0\0\0\x01",
    b"\x05\x03ada\0\0\0\x01\0\0\0\x01\0",
];

fn id(name: &str, number: u32) -> Result<BatchId, Fail> {
    let owner = Owner::read(name.as_bytes()).ok_or("an owner")?;
    Ok(BatchId { owner, number })
}

#[test]
fn there_and_back(rt: HostRuntime) -> Result<(), Fail> {
    let alloc = rt.alloc();
    let ada = id("ada", 258)?;
    let mut lost = Vec::new(alloc);
    lost.push(AttemptOf {
        id: ada,
        attempt: 2,
    })?;
    lost.push(AttemptOf {
        id: id("bob_1", 1)?,
        attempt: 1,
    })?;
    let none = Seq::of(Vec::new(alloc));
    let rows: [(BatchRecord, &[u8]); 6] = [
        (
            BatchRecord::Abort(ada, 1),
            b"\x02\x03ada\0\0\x01\x02\0\0\0\x01",
        ),
        (BatchRecord::Discard(ada), b"\x03\x03ada\0\0\x01\x02"),
        (
            BatchRecord::Retry(ada, 3),
            b"\x04\x03ada\0\0\x01\x02\0\0\0\x03",
        ),
        (
            BatchRecord::Lost(Seq::of(lost)),
            b"\x06\0\0\0\x02\x03ada\0\0\x01\x02\0\0\0\x02\x05bob_1\0\0\0\x01\0\0\0\x01",
        ),
        (BatchRecord::Lost(none), b"\x06\0\0\0\0"),
        (BatchRecord::Next(ada), b"\x07\x03ada\0\0\x01\x02"),
    ];
    for (record, bytes) in rows.iter() {
        assert!(rt; encode(alloc, record)?.as_bytes() == *bytes);
        assert!(rt; decode(alloc, *bytes)?.as_ref() == Some(record));
    }
    Ok(())
}

/// The record of the bytes, which are its own.
fn read_again(alloc: Global, bytes: &[u8]) -> Result<BatchRecord, Fail> {
    let record = decode(alloc, bytes)?.ok_or("no record")?;
    let text = encode(alloc, &record)?;
    if text.as_bytes() != bytes {
        return Err("other bytes".into());
    }
    Ok(record)
}

/// The bytes with another one in this place.
fn with_byte(alloc: Global, bytes: &[u8], place: usize, byte: u8) -> Result<Vec<u8>, Fail> {
    let mut changed = bytes.to_vec(alloc)?;
    if place >= changed.len() {
        return Err("no such place".into());
    }
    changed[place] = byte;
    Ok(changed)
}

#[test]
fn create(rt: HostRuntime) -> Result<(), Fail> {
    let alloc = rt.alloc();
    let BatchRecord::Create(of, attempt, body) = read_again(alloc, CREATE)? else {
        return Err("another kind".into());
    };
    assert!(rt; of == id("ada", 258)? && attempt == 1);
    assert!(rt; body.params.priority == -3 && body.params.work == 11);
    assert!(rt; body.model.vars.len() == 2 && body.model.rows.len() == 2);
    read_again(alloc, FROM_SESSION)?;
    for (place, byte) in FAULTS.iter() {
        let bytes = with_byte(alloc, CREATE, *place, *byte)?;
        assert!(rt; decode(alloc, bytes.as_slice())?.is_none());
    }
    Ok(())
}

#[test]
fn finish(rt: HostRuntime) -> Result<(), Fail> {
    let alloc = rt.alloc();
    let BatchRecord::Finish(of, attempt, found) = read_again(alloc, FINISH)? else {
        return Err("another kind".into());
    };
    assert!(rt; of == id("bob_1", 1)? && attempt == 2);
    assert!(rt; found.outcome.status == 99 && found.outcome.work == 3);
    Ok(())
}

/// Bytes that end early, go on or begin with nothing that is a kind.
#[test]
fn none(rt: HostRuntime) -> Result<(), Fail> {
    let alloc = rt.alloc();
    for bytes in BAD.iter() {
        assert!(rt; decode(alloc, *bytes)?.is_none());
    }
    for whole in [CREATE, FINISH] {
        for len in (0..whole.len()).step_by(7) {
            assert!(rt; decode(alloc, &whole[..len])?.is_none());
        }
        let mut longer = whole.to_vec(alloc)?;
        longer.push(0)?;
        assert!(rt; decode(alloc, longer.as_slice())?.is_none());
    }
    Ok(())
}
