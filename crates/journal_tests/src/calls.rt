//! Stops and failures at each of the four calls of an append.

use crate::tools::{added, opened};
use disk_model::{Arm, Image, MemDisk};
use journal::{AppendFault, MountFault};
use std::alloc::Global;
use std::test::Fail;

/// How many bodies there are after a stop in a call of the second append.
fn left_by_a_stop(alloc: Global, call: u64, image: Image) -> Result<usize, MountFault> {
    let (mut journal, _) = opened(alloc, MemDisk::new(alloc), 1000)?;
    let _ = added(alloc, &mut journal, b"one")?;
    journal.arm(alloc, Arm::Stop(call, image))?;
    let _ = added(alloc, &mut journal, b"another")?;
    let mut disk = journal.into_disk();
    disk.after_stop(alloc)?;
    let (journal, bodies) = opened(alloc, disk, 1000)?;
    let _disk = journal.into_disk();
    Ok(bodies.len())
}

#[test]
fn stops_in_each_call(rt: HostRuntime) -> Result<(), Fail> {
    let alloc = rt.alloc();
    let rows = [
        (1u64, Image::Old, 1usize),
        (1, Image::New, 1),
        (1, Image::Fill(1), 1),
        (2, Image::Old, 1),
        (2, Image::New, 1),
        (2, Image::Fill(1), 1),
        (3, Image::Old, 1),
        (3, Image::New, 2),
        (3, Image::Fill(1), 2),
        (3, Image::Fill(7), 1),
        (4, Image::Old, 1),
        (4, Image::New, 2),
        (4, Image::Fill(1), 2),
        (4, Image::Fill(7), 1),
    ];
    for (call, image, bodies) in rows {
        assert_eq!(rt; left_by_a_stop(alloc, call, image), Ok(bodies));
    }
    Ok(())
}

/// What each of three appends was answered where the third and the fifth call fail.
fn added_with_faults(alloc: Global) -> Result<[bool; 3], MountFault> {
    let (mut journal, _) = opened(alloc, MemDisk::new(alloc), 1000)?;
    journal.arm(alloc, Arm::Fail(3))?;
    journal.arm(alloc, Arm::Fail(5))?;
    let first = added(alloc, &mut journal, b"first")?.is_ok();
    let second = added(alloc, &mut journal, b"second")?.is_ok();
    let third = added(alloc, &mut journal, b"third")?.is_ok();
    let _disk = journal.into_disk();
    Ok([first, second, third])
}

#[test]
fn a_doubt_is_settled_first(rt: HostRuntime) -> Result<(), Fail> {
    assert_eq!(rt; added_with_faults(rt.alloc()), Ok([false, false, true]));
    Ok(())
}

/// An append past the limit, before which a failure is armed for the next call, and one that fits.
fn added_past_the_limit(alloc: Global) -> Result<[Result<(), AppendFault>; 2], MountFault> {
    let (mut journal, _) = opened(alloc, MemDisk::new(alloc), 21)?;
    journal.arm(alloc, Arm::Fail(1))?;
    let long = added(alloc, &mut journal, b"123456789")?;
    let short = added(alloc, &mut journal, b"12345678")?;
    let _disk = journal.into_disk();
    Ok([long, short])
}

#[test]
fn full_makes_no_call(rt: HostRuntime) -> Result<(), Fail> {
    let full = Err(AppendFault::Full {
        need: 22,
        limit: 21,
    });
    assert_eq!(rt;
        added_past_the_limit(rt.alloc()),
        Ok([full, Err(AppendFault::DiskFailed)])
    );
    Ok(())
}
