//! The end of a file, mended or made.

ghost use Rattle.std.specs.Prelude.{◌≡◌, ◌≤◌, List, ℕ, [], length};
ghost use Rattle.base_names.specs.Outside.{Rose};
ghost use Rattle.disk_model.specs.Disk.{Only};
ghost use Rattle.disk_model.specs.Moments.{LeavesOnly};
ghost use Rattle.journal.specs.Mounting.{IsScanned, WhileMounting};
ghost use Rattle.journal.specs.Plans.{RanOn, begin_plan, mend_plan};
ghost use Rattle.journal.specs.Putting.{is_done};
ghost use Rattle.journal.specs.Records.{records, IsClosed};

use crate::put::write_through;
use disk_model::{Disk, DiskDone};

/// Closes the gate at the end of a file that was read, where it isn't closed.
pub fn mend<D: Disk>(disk: &mut D, file: &[u8], end: u64) -> DiskDone
    requires only { Only file.now (D.left disk.old (D.moment disk.old)) }
    requires end { IsScanned file.now end }
    ensures done { result ≡ DiskDone.Done → (image : List ℕ) → D.left disk.new (D.moment disk.new) image → IsClosed (records file.now) image }
    ensures any_moment { LeavesOnly D.moment D.left disk.old disk.new (WhileMounting (D.left disk.old (D.moment disk.old))) }
    ensures calls { RanOn D.calls D.makes (mend_plan file.now) disk.old disk.new (is_done result) }
    ensures later { D.faults disk.old ≤ D.faults disk.new }
    ensures failed { result ≡ DiskDone.Failed → Rose (D.faults disk.old) (D.faults disk.new) }
    ensures steady { result ≡ DiskDone.Done → D.faults disk.new ≡ D.faults disk.old }
    ensures same { D.name disk.new ≡ D.name disk.old }
{
    let at = end as usize;
    if at < file.len() && file[at] == 0 {
        return DiskDone::Done;
    }
    write_through(disk, end, &[0])
}

/// Makes a new file's header and its closed gate.
pub fn begin_file<D: Disk>(disk: &mut D) -> DiskDone
    requires short { (image : List ℕ) → D.left disk.old (D.moment disk.old) image → length image ≤ 8 }
    ensures done { result ≡ DiskDone.Done → (image : List ℕ) → D.left disk.new (D.moment disk.new) image → IsClosed [] image }
    ensures any_moment { LeavesOnly D.moment D.left disk.old disk.new (WhileMounting (D.left disk.old (D.moment disk.old))) }
    ensures calls { RanOn D.calls D.makes begin_plan disk.old disk.new (is_done result) }
    ensures later { D.faults disk.old ≤ D.faults disk.new }
    ensures failed { result ≡ DiskDone.Failed → Rose (D.faults disk.old) (D.faults disk.new) }
    ensures steady { result ≡ DiskDone.Done → D.faults disk.new ≡ D.faults disk.old }
    ensures same { D.name disk.new ≡ D.name disk.old }
{
    if write_through(disk, 0, b"GCSJ0001") == DiskDone::Failed {
        return DiskDone::Failed;
    }
    write_through(disk, 8, &[0])
}
