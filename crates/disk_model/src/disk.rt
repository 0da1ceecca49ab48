//! What is asked of a disk.

ghost use Rattle.std.specs.Prelude.{◌≡◌, ◌≤◌, ◌+◌, ℕ, List, Option, Some, IfSome, IsSomeAnd, length};
ghost use Rattle.std.specs.Option.{option_map};
ghost use Rattle.disk_model.specs.Calls.{DiskCall, LenCall, ReadCall, WriteCall, SyncCall};
ghost use Rattle.disk_model.specs.Disk.{IsLength, IsPart, overwritten, TearsSeen, Torn, Same, Follows, Only};
ghost use Rattle.disk_model.specs.Moments.{Called};

use crate::answer::{DiskDone, DiskLen};

/// One file on a disk. A crash leaves an image of it, which is what a later opening reads. Between two
/// syncs each written range and all past the synced end may come to hold any bytes, and the length of
/// an image lies between the synced length and the greatest since. After a sync a crash leaves what a
/// read gives.
pub trait Disk {
    // Which object this is: for a reference, its borrow.
    ghost name: { Self → ℕ };

    // What a read gives, where it is told.
    ghost seen: { Self → Option (List ℕ) };

    // The moment, which is one more after each call.
    ghost moment: { Self → ℕ };

    // What a crash at a moment up to now might have left: these images and no others. A disk tells them
    // where it tells what a read gives, and no image where it doesn't.
    ghost left: { Self → ℕ → List ℕ → Type 0 };

    // The calls so far, where they are told.
    ghost calls: { Self → Option (List DiskCall) };

    // What a call makes of the disk, as far as that is told.
    ghost makes: { Self → DiskCall → Self → Type 0 };

    // How often a call has failed. It never falls, and stays at 2^64 - 1 once there.
    ghost faults: { Self → ℕ };

    /// The length of the file.
    fn len(&mut self) -> DiskLen
        ensures len { IsLength result (seen self.old) }
        ensures seen { seen self.new ≡ seen self.old }
        ensures images { Follows Same (left self.old (moment self.old)) (left self.new (moment self.new)) }
        ensures called { Called name moment left calls makes faults self.old self.new (LenCall result) };

    /// Fills the buffer from this place on. The range lies in the file.
    fn read(&mut self, at: u64, buf: &mut [u8]) -> DiskDone
        requires { IfSome (seen self.old) (λ bytes. at + length buf.old ≤ length bytes) }
        ensures bytes { result ≡ DiskDone.Done → IfSome (seen self.old) (IsPart at buf.new) }
        ensures seen { seen self.new ≡ seen self.old }
        ensures images { Follows Same (left self.old (moment self.old)) (left self.new (moment self.new)) }
        ensures called { Called name moment left calls makes faults self.old self.new (ReadCall at (length buf.old) result) };

    /// Writes the bytes from this place on, which is at most the file's length. The file grows where
    /// they pass its end. A write that fails may leave any bytes in its range.
    fn write_at(&mut self, at: u64, bytes: &[u8]) -> DiskDone
        requires { IfSome (seen self.old) (λ old. at ≤ length old) }
        ensures written { result ≡ DiskDone.Done → seen self.new ≡ option_map (overwritten at bytes.now) (seen self.old) }
        ensures torn { TearsSeen at (length bytes.now) (seen self.old) (seen self.new) }
        ensures images { Follows (Torn at (length bytes.now)) (left self.old (moment self.old)) (left self.new (moment self.new)) }
        ensures called { Called name moment left calls makes faults self.old self.new (WriteCall at bytes.now result) };

    /// After `Done` a crash leaves what a read gives. A sync that fails syncs nothing.
    fn sync(&mut self) -> DiskDone
        ensures seen { seen self.new ≡ seen self.old }
        ensures durable { result ≡ DiskDone.Done → IfSome (seen self.old) (λ bytes. Only bytes (left self.new (moment self.new))) }
        ensures images { Follows Same (left self.old (moment self.old)) (left self.new (moment self.new)) }
        ensures called { Called name moment left calls makes faults self.old self.new (SyncCall result) };

    /// How often a call has failed.
    fn fault_count(&self) -> u64
        ensures { result ≡ faults self.now };

    // What a read gives is among the images.
    ghost reads_an_image: { (disk : Self) (image : List ℕ) → seen disk ≡ Some image → left disk (moment disk) image };

    // A disk that tells an image tells what a read gives.
    ghost tells_seen: { (disk : Self) (image : List ℕ) → left disk (moment disk) image → IsSomeAnd (seen disk) (λ _. Unit {0}) };
}

impl<D: Disk> Disk for &mut D {
    ghost name = { λ d. d.ghost_name };

    ghost seen = { λ d. D.seen d.now };

    ghost moment = { λ d. D.moment d.now };

    ghost left = { λ d moment image. D.left d.now moment image };

    ghost calls = { λ d. D.calls d.now };

    ghost makes = { λ old call new. D.makes old.now call new.now };

    ghost faults = { λ d. D.faults d.now };

    ghost reads_an_image = { λ d image seen. D.reads_an_image d.now image seen };

    ghost tells_seen = { λ d image left. D.tells_seen d.now image left };

    fn len(&mut self) -> DiskLen {
        D::len(&mut **self)
    }

    fn read(&mut self, at: u64, buf: &mut [u8]) -> DiskDone {
        D::read(&mut **self, at, buf)
    }

    fn write_at(&mut self, at: u64, bytes: &[u8]) -> DiskDone {
        D::write_at(&mut **self, at, bytes)
    }

    fn sync(&mut self) -> DiskDone {
        D::sync(&mut **self)
    }

    fn fault_count(&self) -> u64 {
        D::fault_count(&**self)
    }
}
