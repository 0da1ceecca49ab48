//! A file of the operating system through the trait, from one opening to the next.

use crate::FileDisk;
use disk_model::{Disk, DiskDone, DiskLen};
use std::hash::{BuildHasher, RandomState};
use std::test::Fail;
use std::{env, fs};

#[test]
fn a_file_is_there_at_the_next_opening(rt: HostRuntime) -> Result<(), Fail> {
    let number = RandomState::new(&rt)?.hash_one(&0u8);
    let path = format!(in rt.alloc(); "{}/file_disk_{number}", env::temp_dir(&rt)?.as_str())?;
    let mut first = FileDisk::new(rt.clone()?, path.clone()?);
    assert_eq!(rt; first.len(), DiskLen::Len(0));
    assert_eq!(rt; first.write_at(0, b"abcdef"), DiskDone::Done);
    assert_eq!(rt; first.sync(), DiskDone::Done);
    assert_eq!(rt; first.fault_count(), 0);
    let mut second = FileDisk::new(rt.clone()?, path.clone()?);
    assert_eq!(rt; second.write_at(4, b"XYZ"), DiskDone::Done);
    assert_eq!(rt; second.len(), DiskLen::Len(7));
    let mut buf = [0u8; 5];
    assert_eq!(rt; second.read(2, &mut buf), DiskDone::Done);
    assert_eq!(rt; buf.as_slice(), b"cdXYZ".as_slice());
    assert_eq!(rt; second.read(3, &mut buf), DiskDone::Failed);
    assert_eq!(rt; second.fault_count(), 1);
    fs::remove_file(&rt, path.as_str())?;
    Ok(())
}

#[test]
fn a_file_that_cannot_be_opened_fails(rt: HostRuntime) -> Result<(), Fail> {
    let path = format!(in rt.alloc(); "{}/no_such_folder/file", env::temp_dir(&rt)?.as_str())?;
    let mut disk = FileDisk::new(rt.clone()?, path);
    assert_eq!(rt; disk.sync(), DiskDone::Failed);
    assert_eq!(rt; disk.len(), DiskLen::Failed);
    assert_eq!(rt; disk.fault_count(), 2);
    Ok(())
}
