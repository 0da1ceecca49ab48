//! What the tests share: a journal that is opened, a body that is added, a file that is written and read.

ghost use Rattle.std.specs.Prelude.{◌≡◌, ◌<◌, ◌^◌, IfOk, OnOk, OnErr, length};
ghost use Rattle.journal.specs.Standing.{Stands};

use base_names::{NoMemory, Text};
use disk_model::{Disk, DiskDone, DiskLen, MemDisk};
use journal::{AppendFault, Journal, MountFault};
use std::alloc::Global;

/// The journal of a disk, with its bodies; the fault where there is none.
pub fn opened<D: Disk + Drop>(
    alloc: Global,
    disk: D,
    limit: u64,
) -> Result<(Journal<D>, Vec<Text>), MountFault>
    ensures { IfOk result (λ p. Stands D.moment D.left p.0) }
{
    match Journal::mount(alloc, disk, limit) {
        Ok(opened) => Ok(opened),
        Err(unmounted) => {
            let fault = unmounted.fault;
            let _disk = unmounted.into_disk();
            Err(fault)
        }
    }
}

/// Makes room for a body and adds it.
pub fn added<D: Disk>(
    alloc: Global,
    journal: &mut Journal<D>,
    body: &[u8],
) -> Result<Result<(), AppendFault>, NoMemory>
    requires stands { Stands D.moment D.left journal.old }
    requires short { length body.now < 2 ^ 32 }
    ensures stands { Stands D.moment D.left journal.new }
    ensures rest { (journal.new.limit ≡ journal.old.limit) × (D.name journal.new.disk ≡ D.name journal.old.disk) }
{
    journal.reserve(alloc, body.len() as u32)?;
    Ok(journal.append(body))
}

/// A disk with these bytes, synced.
pub fn disk_of(alloc: Global, bytes: &[u8]) -> MemDisk {
    let mut disk = MemDisk::new(alloc);
    write_first(&mut disk, bytes);
    disk
}

fn write_first<D: Disk>(disk: &mut D, bytes: &[u8]) -> DiskDone {
    match disk.write_at(0, bytes) {
        DiskDone::Done => disk.sync(),
        DiskDone::Failed => DiskDone::Failed,
    }
}

/// The bytes of a disk.
pub fn bytes_of<D: Disk>(alloc: Global, disk: &mut D) -> Result<Vec<u8>, NoMemory> {
    let mut bytes = Vec::new(alloc);
    if let DiskLen::Len(len) = disk.len() {
        bytes.resize(len as usize, 0)?;
        disk.read(0, &mut bytes);
    }
    Ok(bytes)
}
