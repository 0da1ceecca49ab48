//! What a seat asks is answered.

ghost use Rattle.std.specs.Prelude.{◌≡◌, ◌<◌, false, OnOk, vec_len, vec_capacity};
ghost use Rattle.cluster_defs.specs.Asking.{MayBeAsked};
ghost use Rattle.hub_core.specs.Answering.{Asked, at_limit, noted_in, told_status};
ghost use Rattle.hub_core.specs.Standing.{IsStanding};
ghost use Rattle.hub_core.specs.State.{state_of};

use crate::counting::{MOST_CHARGES, count, usage_of};
use crate::hub::Hub;
use crate::setup::Counts;
use base_names::{BatchId, NoMemory, OwnerLimit, Refusal, Seat};
use batch_table::is_same_owner;
use disk_model::Disk;
use hub_words::{Ask, Entry, Reply};
use std::alloc::Global;

impl<D: Disk> Hub<D> {
    /// Answers what a seat asks. It takes all its memory before the disk is touched.
    pub fn ask(&mut self, alloc: Global, seat: &Seat, ask: Ask) -> Reply
        requires stands { IsStanding D.moment D.left D.faults self.old }
        requires may { MayBeAsked ask }
        ensures stands { IsStanding D.moment D.left D.faults self.new }
        ensures asked { Asked D.name D.moment D.left D.calls D.makes D.faults (state_of self.old) (state_of self.new) seat.now ask result }
    {
        if self.is_at_limit(seat) {
            return Reply::Refused(Refusal::OWNERFULL(OwnerLimit::Commands));
        }
        if self.make_room().is_err() {
            return Reply::Refused(Refusal::MEMORY);
        }
        match ask {
            Ask::Status(id) => self.status(seat, id),
            Ask::Create(body) => self.create(alloc, seat, body),
        }
    }

    /// Makes room to count one more owner.
    fn make_room(&mut self) -> Result<(), NoMemory>
        requires stands { IsStanding D.moment D.left D.faults self.old }
        ensures stands { IsStanding D.moment D.left D.faults self.new }
        ensures same { state_of self.new ≡ state_of self.old }
        ensures setup { self.new.setup ≡ self.old.setup }
        ensures room { OnOk result (vec_len self.new.usage < vec_capacity self.new.usage) }
    {
        self.usage.reserve(1)?;
        Ok(())
    }

    /// Whether an owner may ask no more.
    fn is_at_limit(&self, seat: &Seat) -> bool
        ensures { result ≡ at_limit (state_of self.now) seat.now.owner }
    {
        let used = usage_of(&self.usage, &seat.owner);
        u64::from(self.setup.limits.commands) <= used.entries || MOST_CHARGES <= used.charges
    }

    /// What is told of a batch's status: nothing of one of another owner.
    fn told_status(&self, seat: &Seat, id: &BatchId) -> Reply
        ensures { result ≡ told_status self.now.table.table seat.now id.now }
    {
        if !is_same_owner(&seat.owner, &id.owner) {
            return Reply::Refused(Refusal::BATCH);
        }
        match self.table.row(id) {
            Some(row) => Reply::Status(*id, row.status),
            None => Reply::Refused(Refusal::BATCH),
        }
    }

    /// Answers an ask for a batch's status, of an owner that may ask.
    fn status(&mut self, seat: &Seat, id: BatchId) -> Reply
        requires stands { IsStanding D.moment D.left D.faults self.old }
        requires room { vec_len self.old.usage < vec_capacity self.old.usage }
        requires free { at_limit (state_of self.old) seat.now.owner ≡ false }
        ensures stands { IsStanding D.moment D.left D.faults self.new }
        ensures asked { Asked D.name D.moment D.left D.calls D.makes D.faults (state_of self.old) (state_of self.new) seat.now (Ask.Status id) result }
    {
        let reply = self.told_status(seat, &id);
        let now = self.journal.faults();
        let entry = Entry {
            seat: *seat,
            ask: Ask::Status(id),
            reply,
        };
        self.note(
            &entry,
            Counts {
                before: now,
                after: now,
            },
            0,
        );
        entry.reply
    }

    /// Counts an entry and adds it to the history.
    pub(crate) fn note(&mut self, entry: &Entry, counts: Counts, bytes: u32)
        requires room { vec_len self.old.usage < vec_capacity self.old.usage }
        requires free { at_limit (state_of self.old) entry.now.seat.owner ≡ false }
        ensures noted { state_of self.new ≡ noted_in (state_of self.old) entry.now counts bytes }
        ensures rest { (self.new.journal ≡ self.old.journal) × (self.new.table ≡ self.old.table) × (self.new.setup ≡ self.old.setup) × (self.new.start ≡ self.old.start) × (self.new.begun ≡ self.old.begun) }
    {
        let limit = self.setup.limits.commands;
        count(&mut self.usage, &entry.seat.owner, limit, bytes);
        self.history = self.history.and(entry, &counts);
    }
}
