//! A write, and a sync behind it.

ghost use Rattle.std.specs.Prelude.{◌≡◌, ◌≤◌, List, ℕ, length, IfSome};
ghost use Rattle.base_names.specs.Outside.{Rose};
ghost use Rattle.disk_model.specs.Disk.{TornFrom};
ghost use Rattle.disk_model.specs.Moments.{LeavesOnly};
ghost use Rattle.journal.specs.Plans.{RanOn, through};
ghost use Rattle.journal.specs.Putting.{IsPut, is_done};

use disk_model::{Disk, DiskDone};

/// Writes the bytes from this place on and syncs them.
pub fn write_through<D: Disk>(disk: &mut D, at: u64, bytes: &[u8]) -> DiskDone
    requires { IfSome (D.seen disk.old) (λ old. at ≤ length old) }
    ensures done { result ≡ DiskDone.Done → (image : List ℕ) → D.left disk.new (D.moment disk.new) image → IsPut at bytes.now (D.seen disk.old) image }
    ensures any_moment { LeavesOnly D.moment D.left disk.old disk.new (TornFrom at (length bytes.now) (D.left disk.old (D.moment disk.old))) }
    ensures calls { RanOn D.calls D.makes (through at bytes.now) disk.old disk.new (is_done result) }
    ensures later { D.faults disk.old ≤ D.faults disk.new }
    ensures failed { result ≡ DiskDone.Failed → Rose (D.faults disk.old) (D.faults disk.new) }
    ensures steady { result ≡ DiskDone.Done → D.faults disk.new ≡ D.faults disk.old }
    ensures same { D.name disk.new ≡ D.name disk.old }
{
    if disk.write_at(at, bytes) == DiskDone::Failed {
        return DiskDone::Failed;
    }
    disk.sync()
}
