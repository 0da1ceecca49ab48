//! What a mounting makes of a file.

use crate::tools::{added, bytes_of, disk_of, opened};
use disk_model::MemDisk;
use journal::MountFault;
use std::alloc::Global;
use std::test::Fail;

/// The file after a mounting, and how many bodies it has.
fn mounted(alloc: Global, file: &[u8]) -> Result<(Vec<u8>, usize), MountFault> {
    let (journal, bodies) = opened(alloc, disk_of(alloc, file), 1000)?;
    let mut disk = journal.into_disk();
    Ok((bytes_of(alloc, &mut disk)?, bodies.len()))
}

#[test]
fn a_file_is_mended_at_its_end(rt: HostRuntime) -> Result<(), Fail> {
    let alloc = rt.alloc();
    let rows = [
        (b"".as_slice(), b"GCSJ0001\0".as_slice(), 0usize),
        (b"GCSJ0001".as_slice(), b"GCSJ0001\0".as_slice(), 0),
        (b"12345678".as_slice(), b"GCSJ0001\0".as_slice(), 0),
        (
            b"GCSJ0001\x07rest".as_slice(),
            b"GCSJ0001\0rest".as_slice(),
            0,
        ),
        (
            b"GCSJ0001\x01\0\0\0\x02ab\x01\0\0\0\x01c".as_slice(),
            b"GCSJ0001\x01\0\0\0\x02ab\0\0\0\0\x01c".as_slice(),
            1,
        ),
        (
            b"GCSJ0001\x01\0\0\0\x02ab\x01\0\0\0\0\0".as_slice(),
            b"GCSJ0001\x01\0\0\0\x02ab\x01\0\0\0\0\0".as_slice(),
            2,
        ),
    ];
    for (file, left, bodies) in rows {
        let (bytes, found) = mounted(alloc, file)?;
        assert_eq!(rt; bytes.as_slice(), left);
        assert_eq!(rt; found, bodies);
    }
    Ok(())
}

#[test]
fn another_header_is_named(rt: HostRuntime) -> Result<(), Fail> {
    let alloc = rt.alloc();
    let refused = mounted(alloc, b"123456789").err();
    assert_eq!(rt; refused, Some(MountFault::NotAJournal(*b"12345678")));
    Ok(())
}

/// The file of one body.
fn written(alloc: Global, body: &[u8]) -> Result<Vec<u8>, MountFault> {
    let (mut journal, _) = opened(alloc, MemDisk::new(alloc), 1000)?;
    if body.len() < 256 {
        let _ = added(alloc, &mut journal, body)?;
    }
    let mut disk = journal.into_disk();
    Ok(bytes_of(alloc, &mut disk)?)
}

#[test]
fn a_record_stands_behind_its_gate(rt: HostRuntime) -> Result<(), Fail> {
    let file = written(rt.alloc(), b"\x03\x03ada\0\0\0\x01")?;
    assert_eq!(rt;
        file.as_slice(),
        b"GCSJ0001\x01\0\0\0\x09\x03\x03ada\0\0\0\x01\0".as_slice()
    );
    Ok(())
}
