//! A batch is created.

ghost use Rattle.std.specs.Prelude.{◌≡◌, ◌<◌, ◌≤◌, ◌^◌, ◌+◌, ◌-◌, false, length, vec_len, vec_capacity, sum_by, None, Some, OnOk, IfOk};
ghost use Rattle.batch_table.specs.Contents.{AreLawful};
ghost use Rattle.cluster_defs.specs.Appended.{next_id};
ghost use Rattle.hub_core.specs.Answering.{Asked, IsCreation, admitted_in, at_limit, creating_refusal};
ghost use Rattle.hub_core.specs.Sites.{site_of};
ghost use Rattle.hub_core.specs.Standing.{IsStanding};
ghost use Rattle.hub_core.specs.State.{state_of};
ghost use Rattle.model_data.specs.declared.batch.BatchBody.{BatchBody as Body};
ghost use Rattle.model_data.specs.declared.batch.BatchResult.{BatchResult};
ghost use Rattle.rec_format.specs.Lawful.{CanBeSpelled, IsLawfulBody, IsLawfulRecord};
ghost use Rattle.rec_format.specs.Records.{model_len, record_len, record_write};
ghost use Rattle.table_defs.specs.Owned.{rows_of};
ghost use Rattle.table_defs.specs.Taken.{refusal};

use crate::hub::Hub;
use crate::mounting::RESERVED;
use crate::setup::Counts;
use base_names::{BatchId, NoMemory, Owner, OwnerLimit, Refusal, Seat, Text};
use batch_table::is_same_owner;
use disk_model::Disk;
use hub_words::{Ask, BatchBody, Entry, Reply};
use model_data::{BatchRecord, BatchRow};
use rec_format::laws::{lawful_records_are_told_apart, records_are_spelled_once};
use rec_format::{create_len, encode, model_len};
use std::alloc::Global;

impl<D: Disk> Hub<D> {
    /// Answers an ask for a batch, of an owner that may ask.
    pub(crate) fn create(&mut self, alloc: Global, seat: &Seat, body: BatchBody) -> Reply
        requires stands { IsStanding D.moment D.left D.faults self.old }
        requires room { vec_len self.old.usage < vec_capacity self.old.usage }
        requires free { at_limit (state_of self.old) seat.now.owner ≡ false }
        requires lawful { IsLawfulBody body }
        ensures stands { IsStanding D.moment D.left D.faults self.new }
        ensures asked { Asked D.name D.moment D.left D.calls D.makes D.faults (state_of self.old) (state_of self.new) seat.now (Ask.Create body) result }
    {
        let first = BatchId {
            owner: seat.owner,
            number: 1,
        };
        let Ok(bytes) = u32::try_from(create_len(&first, &body)) else {
            return Reply::Refused(Refusal::MEMORY);
        };
        match self.creating_refusal(seat, &body, bytes) {
            Some(refusal) => self.refuse(seat, body, refusal, bytes),
            None => self.keep(alloc, seat, body, bytes),
        }
    }

    /// Why a batch isn't created, but for the disk.
    fn creating_refusal(&self, seat: &Seat, body: &BatchBody, bytes: u32) -> Option<Refusal>
        requires stands { IsStanding D.moment D.left D.faults self.now }
        requires lawful { IsLawfulBody body.now }
        requires bytes { bytes ≡ record_len (BatchRecord.Create (record { owner = seat.now.owner; number = 1 }) 1 body.now) }
        ensures { (plain : Body → BatchResult) → result ≡ creating_refusal (site_of plain self.now.setup) (state_of self.now).store seat.now body.now }
    {
        if self.table.greatest(&seat.owner) == u32::MAX {
            return Some(Refusal::OWNERFULL(OwnerLimit::Numbers));
        }
        let kept = kept_bytes(self.table.rows(), &seat.owner) + u128::from(model_len(&body.model));
        if kept > u128::from(self.setup.limits.bytes) {
            return Some(Refusal::OWNERFULL(OwnerLimit::Bytes));
        }
        let outcomes = RESERVED * (self.table.going_on() + 1);
        let need = self.journal.end() + 5 + u64::from(bytes) + outcomes;
        let limit = self.setup.limits.journal;
        if need > limit {
            return Some(Refusal::JOURNALFULL(need, limit));
        }
        None
    }

    /// Adds an entry for a batch that isn't created.
    fn refuse(&mut self, seat: &Seat, body: BatchBody, refusal: Refusal, bytes: u32) -> Reply
        requires stands { IsStanding D.moment D.left D.faults self.old }
        requires room { vec_len self.old.usage < vec_capacity self.old.usage }
        requires free { at_limit (state_of self.old) seat.now.owner ≡ false }
        requires bytes { bytes ≡ record_len (BatchRecord.Create (record { owner = seat.now.owner; number = 1 }) 1 body) }
        requires refused { (plain : Body → BatchResult) → creating_refusal (site_of plain self.old.setup) (state_of self.old).store seat.now body ≡ Some refusal }
        ensures stands { IsStanding D.moment D.left D.faults self.new }
        ensures asked { Asked D.name D.moment D.left D.calls D.makes D.faults (state_of self.old) (state_of self.new) seat.now (Ask.Create body) result }
    {
        let now = self.journal.faults();
        let entry = Entry {
            seat: *seat,
            ask: Ask::Create(body),
            reply: Reply::Refused(refusal),
        };
        self.note(
            &entry,
            Counts {
                before: now,
                after: now,
            },
            bytes,
        );
        Reply::Refused(refusal)
    }

    /// Makes room for a record, and spells it. A count of faults at the end of its type couldn't tell of one more, and has no
    /// room either.
    fn prepare(
        &mut self,
        alloc: Global,
        created: &BatchRecord,
        bytes: u32,
    ) -> Result<Text, NoMemory>
        requires stands { IsStanding D.moment D.left D.faults self.old }
        requires lawful { CanBeSpelled created.now }
        requires bytes { bytes ≡ record_len created.now }
        ensures stands { IsStanding D.moment D.left D.faults self.new }
        ensures same { state_of self.new ≡ state_of self.old }
        ensures rest { (self.new.setup ≡ self.old.setup) × (self.new.usage ≡ self.old.usage) }
        ensures ok { IfOk result (λ text. (text ≡ record_write created.now) × IsLawfulRecord created.now × (length text + 5 ≤ self.new.journal.reserved)) }
        ensures room { OnOk result (1 ≤ self.new.table.room) }
        ensures told { OnOk result (D.faults self.new.journal.disk < 2 ^ 64 - 1) }
    {
        let text = encode(alloc, created)?;
        self.table.reserve()?;
        self.journal.reserve(alloc, bytes)?;
        if self.journal.faults() == u64::MAX {
            return Err(NoMemory);
        }
        Ok(text)
    }

    /// Keeps a batch that isn't refused.
    fn keep(&mut self, alloc: Global, seat: &Seat, body: BatchBody, bytes: u32) -> Reply
        requires stands { IsStanding D.moment D.left D.faults self.old }
        requires room { vec_len self.old.usage < vec_capacity self.old.usage }
        requires free { at_limit (state_of self.old) seat.now.owner ≡ false }
        requires lawful { IsLawfulBody body }
        requires bytes { bytes ≡ record_len (BatchRecord.Create (record { owner = seat.now.owner; number = 1 }) 1 body) }
        requires taken { (plain : Body → BatchResult) → creating_refusal (site_of plain self.old.setup) (state_of self.old).store seat.now body ≡ None }
        ensures stands { IsStanding D.moment D.left D.faults self.new }
        ensures asked { Asked D.name D.moment D.left D.calls D.makes D.faults (state_of self.old) (state_of self.new) seat.now (Ask.Create body) result }
    {
        let number = self.table.greatest(&seat.owner) + 1;
        let created = creation(&seat.owner, number, body);
        match self.prepare(alloc, &created, bytes) {
            Err(NoMemory) => Reply::Refused(Refusal::MEMORY),
            Ok(text) => self.submit(seat, created, &text, bytes),
        }
    }

    /// Keeps a batch whose record is made and spelled.
    fn submit(&mut self, seat: &Seat, created: BatchRecord, text: &Text, bytes: u32) -> Reply
        requires stands { IsStanding D.moment D.left D.faults self.old }
        requires room { vec_len self.old.usage < vec_capacity self.old.usage }
        requires table_room { 1 ≤ self.old.table.room }
        requires journal_room { length text.now + 5 ≤ self.old.journal.reserved }
        requires free { at_limit (state_of self.old) seat.now.owner ≡ false }
        requires told { D.faults self.old.journal.disk < 2 ^ 64 - 1 }
        requires text { text.now ≡ record_write created }
        requires lawful { IsLawfulRecord created }
        requires creates { IsCreation (state_of self.old) seat.now bytes created }
        ensures stands { IsStanding D.moment D.left D.faults self.new }
        ensures asked { (body : Body) → created ≡ BatchRecord.Create (next_id seat.now.owner self.old.table.table) 1 body → Asked D.name D.moment D.left D.calls D.makes D.faults (state_of self.old) (state_of self.new) seat.now (Ask.Create body) result }
    {
        match created {
            BatchRecord::Create(id, _, body) => self.append(seat, &id, body, text, bytes),
            _ => unreachable!(),
        }
    }

    /// Appends the record of a batch, which has its spelling, and then changes the table.
    fn append(
        &mut self,
        seat: &Seat,
        id: &BatchId,
        body: BatchBody,
        text: &Text,
        bytes: u32,
    ) -> Reply
        requires stands { IsStanding D.moment D.left D.faults self.old }
        requires room { vec_len self.old.usage < vec_capacity self.old.usage }
        requires table_room { 1 ≤ self.old.table.room }
        requires journal_room { length text.now + 5 ≤ self.old.journal.reserved }
        requires free { at_limit (state_of self.old) seat.now.owner ≡ false }
        requires told { D.faults self.old.journal.disk < 2 ^ 64 - 1 }
        requires text { text.now ≡ record_write (BatchRecord.Create id.now 1 body) }
        requires lawful { IsLawfulRecord (BatchRecord.Create id.now 1 body) }
        requires creates { IsCreation (state_of self.old) seat.now bytes (BatchRecord.Create id.now 1 body) }
        ensures stands { IsStanding D.moment D.left D.faults self.new }
        ensures asked { Asked D.name D.moment D.left D.calls D.makes D.faults (state_of self.old) (state_of self.new) seat.now (Ask.Create body) result }
    {
        records_are_spelled_once();
        lawful_records_are_told_apart();
        let before = self.journal.faults();
        match self.journal.append(text.as_bytes()) {
            Ok(()) => {
                let after = self.journal.faults();
                self.admit(seat, id, body, Counts { before, after }, bytes);
                Reply::Made(*id)
            }
            Err(_) => {
                let after = self.journal.faults();
                let refusal = Refusal::DISK(before, after);
                let entry = Entry {
                    seat: *seat,
                    ask: Ask::Create(body),
                    reply: Reply::Refused(refusal),
                };
                self.note(&entry, Counts { before, after }, bytes);
                Reply::Refused(refusal)
            }
        }
    }

    /// Adds an entry for a batch that is kept, and puts it into the table.
    fn admit(&mut self, seat: &Seat, id: &BatchId, body: BatchBody, counts: Counts, bytes: u32)
        requires room { vec_len self.old.usage < vec_capacity self.old.usage }
        requires table_room { 1 ≤ self.old.table.room }
        requires free { at_limit (state_of self.old) seat.now.owner ≡ false }
        requires taken { refusal (BatchRecord.Create id.now 1 body) self.old.table.table ≡ None }
        requires lawful { IsLawfulBody body }
        ensures admitted { state_of self.new ≡ admitted_in (state_of self.old) seat.now id.now body counts bytes }
        ensures rest { (self.new.journal ≡ self.old.journal) × (self.new.setup ≡ self.old.setup) }
    {
        let entry = Entry {
            seat: *seat,
            ask: Ask::Create(body),
            reply: Reply::Made(*id),
        };
        self.note(&entry, counts, bytes);
        let Entry {
            seat: _seat,
            ask,
            reply: _reply,
        } = entry;
        match ask {
            Ask::Create(body) => self.table.apply(BatchRecord::Create(*id, 1, body)),
            Ask::Status(_) => unreachable!(),
        }
    }
}

/// The bytes that spell the models of an owner's batches.
fn kept_bytes(rows: &[BatchRow], owner: &Owner) -> u128
    requires lawful { AreLawful rows.now }
    ensures bytes { result ≡ sum_by (λ row. model_len row.body.model) (rows_of owner.now rows.now) }
    ensures small { result < 2 ^ 127 }
{
    let mut bytes = 0;
    for row in rows {
        if is_same_owner(owner, &row.id.owner) {
            bytes += u128::from(model_len(&row.body.model));
        }
    }
    bytes
}

/// The record that creates a batch.
fn creation(owner: &Owner, number: u32, body: BatchBody) -> BatchRecord
    ensures { result ≡ BatchRecord.Create (record { owner = owner.now; number = number }) 1 body }
{
    let id = BatchId {
        owner: *owner,
        number,
    };
    BatchRecord::Create(id, 1, body)
}
