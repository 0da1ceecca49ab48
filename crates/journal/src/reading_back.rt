//! A file, read whole.

ghost use Rattle.std.specs.Prelude.{◌≡◌, ◌≤◌, ◌<◌, true, List, ℕ, length, Some, IfOk, IfErr, IfSome, IsErrOf, OnOk, MatchOption};
ghost use Rattle.std.specs.Option.{option_map};
ghost use Rattle.base_names.specs.Outside.{Rose};
ghost use Rattle.disk_model.specs.Disk.{IsLength, Only};
ghost use Rattle.disk_model.specs.Moments.{LeavesOnly};
ghost use Rattle.journal.specs.Mounting.{IsFound, IsReadFault, IsTold, RanForFile, RanToLength, RanUpTo, SyncedTo};
ghost use Rattle.journal.specs.Plans.{RanOn, read_plan, whole_plan};

use crate::fault::MountFault;
use disk_model::{Disk, DiskDone, DiskLen};
use std::alloc::Global;

/// Syncs a file and asks for its length.
fn measure<D: Disk>(disk: &mut D) -> DiskLen
    ensures len { IsLength result (D.seen disk.old) }
    ensures seen { D.seen disk.new ≡ D.seen disk.old }
    ensures images { SyncedTo result (D.seen disk.old) (D.left disk.new (D.moment disk.new)) }
    ensures any_moment { LeavesOnly D.moment D.left disk.old disk.new (D.left disk.old (D.moment disk.old)) }
    ensures calls { RanToLength D.calls D.makes result disk.old disk.new }
    ensures later { D.faults disk.old ≤ D.faults disk.new }
    ensures failed { result ≡ DiskLen.Failed → Rose (D.faults disk.old) (D.faults disk.new) }
    ensures steady { (result ≡ DiskLen.Failed → ⊥) → D.faults disk.new ≡ D.faults disk.old }
    ensures same { D.name disk.new ≡ D.name disk.old }
{
    if disk.sync() == DiskDone::Failed {
        return DiskLen::Failed;
    }
    disk.len()
}

/// All bytes of a file of this length.
fn read_whole<D: Disk>(alloc: Global, disk: &mut D, len: u64) -> Result<Vec<u8>, MountFault>
    requires { IfSome (D.seen disk.old) (λ told. len ≡ length told) }
    ensures ok { IfOk result (λ bytes. IsTold (D.seen disk.old) bytes.items × (length bytes.items ≡ len)) }
    ensures fault { IfErr result (λ fault. IsReadFault fault × RanUpTo D.calls D.makes (Some fault) (whole_plan len) disk.old disk.new) }
    ensures calls { OnOk result (RanOn D.calls D.makes (whole_plan len) disk.old disk.new true) }
    ensures seen { D.seen disk.new ≡ D.seen disk.old }
    ensures any_moment { LeavesOnly D.moment D.left disk.old disk.new (D.left disk.old (D.moment disk.old)) }
    ensures later { D.faults disk.old ≤ D.faults disk.new }
    ensures failed { IsErrOf result MountFault.DiskFailed → Rose (D.faults disk.old) (D.faults disk.new) }
    ensures steady { (IsErrOf result MountFault.DiskFailed → ⊥) → D.faults disk.new ≡ D.faults disk.old }
    ensures same { D.name disk.new ≡ D.name disk.old }
{
    let mut bytes = Vec::new(alloc);
    bytes.resize(len as usize, 0)?;
    match disk.read(0, &mut bytes) {
        DiskDone::Done => Ok(bytes),
        DiskDone::Failed => Err(MountFault::DiskFailed),
    }
}

/// Syncs a file and reads it whole, where it is longer than 8 bytes.
pub fn read_back<D: Disk>(alloc: Global, disk: &mut D) -> Result<Option<Vec<u8>>, MountFault>
    ensures images { IfOk result (λ found. MatchOption found ((image : List ℕ) → D.left disk.new (D.moment disk.new) image → length image ≤ 8) (λ bytes. Only bytes.items (D.left disk.new (D.moment disk.new)))) }
    ensures found { IfOk result (λ found. (file : List ℕ) × IsTold (D.seen disk.old) file × IsFound (option_map (λ bytes. bytes.items) found) file × RanOn D.calls D.makes (read_plan (length file)) disk.old disk.new true) }
    ensures fault { IfErr result (λ fault. IsReadFault fault × RanForFile D.seen D.calls D.makes (λ file. read_plan (length file)) (Some fault) disk.old disk.new) }
    ensures any_moment { LeavesOnly D.moment D.left disk.old disk.new (D.left disk.old (D.moment disk.old)) }
    ensures later { D.faults disk.old ≤ D.faults disk.new }
    ensures failed { IsErrOf result MountFault.DiskFailed → Rose (D.faults disk.old) (D.faults disk.new) }
    ensures steady { (IsErrOf result MountFault.DiskFailed → ⊥) → D.faults disk.new ≡ D.faults disk.old }
    ensures same { D.name disk.new ≡ D.name disk.old }
{
    match measure(disk) {
        DiskLen::Failed => Err(MountFault::DiskFailed),
        DiskLen::Len(len) if len <= 8 => Ok(None),
        DiskLen::Len(len) => Ok(Some(read_whole(alloc, disk, len)?)),
    }
}
