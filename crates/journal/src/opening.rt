//! A file that is opened.

ghost use Rattle.std.specs.Prelude.{◌≡◌, ◌≤◌, ◌<◌, List, ℕ, length, Some, None, OnOk, IfOk, IfErr, IfSome, IsErrOf, true};
ghost use Rattle.base_names.specs.Outside.{Rose};
ghost use Rattle.disk_model.specs.Disk.{Only};
ghost use Rattle.disk_model.specs.Moments.{LeavesOnly};
ghost use Rattle.journal.specs.Mounting.{HasHeader, IsNoJournal, RanForFile, RanUpTo, WhileMounting};
ghost use Rattle.journal.specs.Plans.{RanOn, mount_plan, write_plan};
ghost use Rattle.journal.specs.Records.{records, front, AreShort, IsClosed};

use crate::fault::MountFault;
use crate::mending::{begin_file, mend};
use crate::reading_back::read_back;
use crate::scanning::scan;
use base_names::Text;
use disk_model::{Disk, DiskDone};
use std::alloc::Global;

/// The bodies of a file that was read, and its end, which is mended.
fn open_old<D: Disk>(
    alloc: Global,
    disk: &mut D,
    file: &[u8],
) -> Result<(Vec<Text>, u64), MountFault>
    requires only { Only file.now (D.left disk.old (D.moment disk.old)) }
    requires long { 8 < length file.now }
    ensures ok { IfOk result (λ p. (p.0.items ≡ records file.now) × (p.1 ≡ length (front p.0.items)) × AreShort p.0.items) }
    ensures header { OnOk result (HasHeader file.now) }
    ensures not_a_journal { IfErr result (λ fault. IsNoJournal fault file.now) }
    ensures closed { OnOk result ((image : List ℕ) → D.left disk.new (D.moment disk.new) image → IsClosed (records file.now) image) }
    ensures any_moment { LeavesOnly D.moment D.left disk.old disk.new (WhileMounting (D.left disk.old (D.moment disk.old))) }
    ensures calls { OnOk result (RanOn D.calls D.makes (write_plan file.now) disk.old disk.new true) }
    ensures fault { IfErr result (λ fault. RanUpTo D.calls D.makes (Some fault) (write_plan file.now) disk.old disk.new) }
    ensures later { D.faults disk.old ≤ D.faults disk.new }
    ensures failed { IsErrOf result MountFault.DiskFailed → Rose (D.faults disk.old) (D.faults disk.new) }
    ensures steady { (IsErrOf result MountFault.DiskFailed → ⊥) → D.faults disk.new ≡ D.faults disk.old }
    ensures same { D.name disk.new ≡ D.name disk.old }
{
    let (head, bytes) = file.split_at(8);
    if head != b"GCSJ0001".as_slice() {
        let mut found = [0u8; 8];
        found.copy_from_slice(head);
        return Err(MountFault::NotAJournal(found));
    }
    let (bodies, len) = scan(alloc, bytes)?;
    let end = 8 + len as u64;
    if mend(disk, file, end) == DiskDone::Failed {
        return Err(MountFault::DiskFailed);
    }
    Ok((bodies, end))
}

/// The bodies of a file, and its end, which is mended or made.
pub fn open_file<D: Disk>(alloc: Global, disk: &mut D) -> Result<(Vec<Text>, u64), MountFault>
    ensures ok { IfOk result (λ p. (p.1 ≡ length (front p.0.items)) × AreShort p.0.items × IfSome (D.seen disk.old) (λ file. p.0.items ≡ records file)) }
    ensures header { OnOk result (IfSome (D.seen disk.old) HasHeader) }
    ensures not_a_journal { IfErr result (λ fault. IfSome (D.seen disk.old) (IsNoJournal fault)) }
    ensures closed { IfOk result (λ p. (image : List ℕ) → D.left disk.new (D.moment disk.new) image → IsClosed p.0.items image) }
    ensures any_moment { LeavesOnly D.moment D.left disk.old disk.new (WhileMounting (D.left disk.old (D.moment disk.old))) }
    ensures calls { OnOk result (RanForFile D.seen D.calls D.makes mount_plan None disk.old disk.new) }
    ensures fault { IfErr result (λ fault. RanForFile D.seen D.calls D.makes mount_plan (Some fault) disk.old disk.new) }
    ensures later { D.faults disk.old ≤ D.faults disk.new }
    ensures failed { IsErrOf result MountFault.DiskFailed → Rose (D.faults disk.old) (D.faults disk.new) }
    ensures steady { (IsErrOf result MountFault.DiskFailed → ⊥) → D.faults disk.new ≡ D.faults disk.old }
    ensures same { D.name disk.new ≡ D.name disk.old }
{
    let found = read_back(alloc, disk)?;
    match found {
        Some(file) => open_old(alloc, disk, &file),
        None => match begin_file(disk) {
            DiskDone::Done => Ok((Vec::new(alloc), 8)),
            DiskDone::Failed => Err(MountFault::DiskFailed),
        },
    }
}
