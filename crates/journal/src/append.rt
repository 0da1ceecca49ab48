//! A body is added: its record behind the closed gate, a sync, the gate, a sync.

ghost use Rattle.std.specs.Prelude.{◌≡◌, ◌⊎◌, ◌≤◌, ◌<◌, ◌+◌, ◌-◌, ◌^◌, min, List, ℕ, [], ◌∷◌, ◌++◌, true, false, length, Some, None, Ok, Err, OnOk, OnErr, IsErrOf, is_ok};
ghost use Rattle.base_names.specs.Outside.{Rose};
ghost use Rattle.disk_model.specs.Moments.{LeavesOnly};

use crate::fault::AppendFault;
use crate::journal::Journal;
use crate::put::write_through;
use crate::spelling::spell;
use disk_model::{Disk, DiskDone};
use std::snapshot::Snapshot;

impl<D: Disk> Journal<D> {
    ghost use Rattle.journal.specs.Plans.{RanOn, FailedAdding, append_plan, open_plan, settle_plan, stage_plan};
    ghost use Rattle.journal.specs.Putting.{is_done};
    ghost use Rattle.journal.specs.Records.{IsClosed, IsDoubtful, record_of};
    ghost use Rattle.journal.specs.Standing.{Stands, bodies_of, doubt_of, Holds, WhileAdding};

    /// Adds a body, behind settling the one in doubt. At `Ok` it is there whatever comes. `Full` comes before any call of the
    /// disk, exactly where the record passes the limit. Where the disk failed, what was acknowledged is there as before, and
    /// what is in doubt depends on the call that failed.
    pub fn append(&mut self, body: &[u8]) -> Result<(), AppendFault>
        requires stands { Stands D.moment D.left self.old }
        requires room { length body.now + 5 ≤ self.old.reserved }
        ensures stands { Stands D.moment D.left self.new }
        ensures ok { OnOk result ((bodies_of self.new ≡ bodies_of self.old ++ body.now ∷ []) × (doubt_of self.new ≡ None) × (self.new.end ≡ self.old.end + 5 + length body.now)) }
        ensures err { OnErr result ((bodies_of self.new ≡ bodies_of self.old) × (self.new.end ≡ self.old.end)) }
        ensures full { self.old.limit < self.old.end + 5 + length body.now → (result ≡ Err (AppendFault.Full (min (self.old.end + 5 + length body.now) (2 ^ 64 - 1)) self.old.limit)) × (self.new ≡ self.old) }
        ensures fits { self.old.end + 5 + length body.now ≤ self.old.limit → OnErr result ((result ≡ Err AppendFault.DiskFailed) × FailedAdding D.calls D.makes (doubt_of self.old) self.old.end body.now (doubt_of self.new) self.old.disk self.new.disk) }
        ensures calls { OnOk result (RanOn D.calls D.makes (append_plan (doubt_of self.old) self.old.end body.now) self.old.disk self.new.disk true) }
        ensures rest { (self.new.limit ≡ self.old.limit) × (self.new.reserved ≡ self.old.reserved) }
        ensures any_moment { LeavesOnly D.moment D.left self.old.disk self.new.disk (WhileAdding (bodies_of self.old) (doubt_of self.old) body.now) }
        ensures later { D.faults self.old.disk ≤ D.faults self.new.disk }
        ensures failed { result ≡ Err AppendFault.DiskFailed → Rose (D.faults self.old.disk) (D.faults self.new.disk) }
        ensures steady { OnOk result (D.faults self.new.disk ≡ D.faults self.old.disk) }
        ensures same { D.name self.new.disk ≡ D.name self.old.disk }
    {
        let added = 5 + body.len() as u64;
        if self.limit.saturating_sub(self.end) < added {
            return Err(AppendFault::Full {
                need: self.end.saturating_add(added),
                limit: self.limit,
            });
        }
        self.add(body)
    }

    /// Writes the record behind the closed gate, and a closed gate behind it.
    fn stage(&mut self, body: &[u8]) -> DiskDone
        requires stands { Stands D.moment D.left self.old }
        requires settled { doubt_of self.old ≡ None }
        requires room { length body.now + 5 ≤ self.old.reserved }
        requires fits { self.old.end + 1 < 2 ^ 64 }
        ensures stands { Stands D.moment D.left self.new }
        ensures rest { (self.new.end ≡ self.old.end) × (self.new.limit ≡ self.old.limit) × (self.new.reserved ≡ self.old.reserved) × (self.new.doubt ≡ self.old.doubt) × (self.new.found ≡ self.old.found) × (self.new.added ≡ self.old.added) }
        ensures buffer { self.new.room.items ≡ record_of body.now ++ 0 ∷ [] }
        ensures staged { result ≡ DiskDone.Done → (image : List ℕ) → D.left self.new.disk (D.moment self.new.disk) image → IsDoubtful (bodies_of self.old) body.now image }
        ensures any_moment { LeavesOnly D.moment D.left self.old.disk self.new.disk (IsClosed (bodies_of self.old)) }
        ensures calls { RanOn D.calls D.makes (stage_plan self.old.end body.now) self.old.disk self.new.disk (is_done result) }
        ensures later { D.faults self.old.disk ≤ D.faults self.new.disk }
        ensures failed { result ≡ DiskDone.Failed → Rose (D.faults self.old.disk) (D.faults self.new.disk) }
        ensures steady { result ≡ DiskDone.Done → D.faults self.new.disk ≡ D.faults self.old.disk }
        ensures same { D.name self.new.disk ≡ D.name self.old.disk }
    {
        spell(&mut self.room, body);
        write_through(&mut self.disk, self.end + 1, &self.room)
    }

    /// Opens the gate before the record in the buffer, which is staged.
    fn open_gate(&mut self, body: &[u8]) -> DiskDone
        requires stands { Stands D.moment D.left self.old }
        requires settled { doubt_of self.old ≡ None }
        requires buffer { self.old.room.items ≡ record_of body.now ++ 0 ∷ [] }
        requires staged { (image : List ℕ) → D.left self.old.disk (D.moment self.old.disk) image → IsDoubtful (bodies_of self.old) body.now image }
        requires short { length body.now < 256 ^ 4 }
        requires fits { self.old.end + 5 + length body.now < 2 ^ 64 }
        ensures stands { Stands D.moment D.left self.new }
        ensures done { result ≡ DiskDone.Done → (bodies_of self.new ≡ bodies_of self.old ++ body.now ∷ []) × (doubt_of self.new ≡ None) × (self.new.end ≡ self.old.end + 5 + length body.now) }
        ensures failure { result ≡ DiskDone.Failed → (bodies_of self.new ≡ bodies_of self.old) × (doubt_of self.new ≡ Some body.now) × (self.new.end ≡ self.old.end) }
        ensures rest { (self.new.limit ≡ self.old.limit) × (self.new.reserved ≡ self.old.reserved) }
        ensures any_moment { LeavesOnly D.moment D.left self.old.disk self.new.disk (Holds (bodies_of self.old) (Some body.now)) }
        ensures calls { RanOn D.calls D.makes (open_plan self.old.end) self.old.disk self.new.disk (is_done result) }
        ensures later { D.faults self.old.disk ≤ D.faults self.new.disk }
        ensures failed { result ≡ DiskDone.Failed → Rose (D.faults self.old.disk) (D.faults self.new.disk) }
        ensures steady { result ≡ DiskDone.Done → D.faults self.new.disk ≡ D.faults self.old.disk }
        ensures same { D.name self.new.disk ≡ D.name self.old.disk }
    {
        if write_through(&mut self.disk, self.end, &[1]) == DiskDone::Failed {
            self.doubt = Some(Snapshot::of(&self.room));
            return DiskDone::Failed;
        }
        self.added = self.added.and(&self.room, &self.end);
        self.end = self.end + 5 + body.len() as u64;
        DiskDone::Done
    }

    /// Settles, stages and opens.
    fn add(&mut self, body: &[u8]) -> Result<(), AppendFault>
        requires stands { Stands D.moment D.left self.old }
        requires room { length body.now + 5 ≤ self.old.reserved }
        requires fits { self.old.end + 5 + length body.now < 2 ^ 64 }
        ensures stands { Stands D.moment D.left self.new }
        ensures ok { OnOk result ((bodies_of self.new ≡ bodies_of self.old ++ body.now ∷ []) × (doubt_of self.new ≡ None) × (self.new.end ≡ self.old.end + 5 + length body.now)) }
        ensures err { OnErr result ((bodies_of self.new ≡ bodies_of self.old) × (self.new.end ≡ self.old.end)) }
        ensures doubt { OnErr result (FailedAdding D.calls D.makes (doubt_of self.old) self.old.end body.now (doubt_of self.new) self.old.disk self.new.disk) }
        ensures calls { OnOk result (RanOn D.calls D.makes (append_plan (doubt_of self.old) self.old.end body.now) self.old.disk self.new.disk true) }
        ensures rest { (self.new.limit ≡ self.old.limit) × (self.new.reserved ≡ self.old.reserved) }
        ensures any_moment { LeavesOnly D.moment D.left self.old.disk self.new.disk (WhileAdding (bodies_of self.old) (doubt_of self.old) body.now) }
        ensures never_full { OnErr result (result ≡ Err AppendFault.DiskFailed) }
        ensures later { D.faults self.old.disk ≤ D.faults self.new.disk }
        ensures failed { OnErr result (Rose (D.faults self.old.disk) (D.faults self.new.disk)) }
        ensures steady { OnOk result (D.faults self.new.disk ≡ D.faults self.old.disk) }
        ensures same { D.name self.new.disk ≡ D.name self.old.disk }
    {
        self.settle()?;
        if self.stage(body) == DiskDone::Failed {
            return Err(AppendFault::DiskFailed);
        }
        if self.open_gate(body) == DiskDone::Failed {
            return Err(AppendFault::DiskFailed);
        }
        Ok(())
    }
}
