//! What a record makes of a table.

ghost use Rattle.std.specs.Prelude.{◌≡◌, ◌≤◌, None};
ghost use Rattle.batch_table.specs.Contents.{BringsLawful};
ghost use Rattle.table_defs.specs.Table.{applied, begun, ended, with_row};
ghost use Rattle.table_defs.specs.Taken.{refusal};

use crate::marks::set_last;
use crate::names::is_same_batch;
use crate::places::place_of;
use crate::statuses::{ABORTED, COMPLETED, FAILED, SUBMITTED};
use crate::table::BatchTable;
use base_names::{BatchId, Seq};
use model_data::{AttemptOf, BatchBody, BatchRecord, BatchResult, BatchRow};

impl BatchTable {
    /// Makes of the table what the record says, and takes no memory.
    pub fn apply(&mut self, change: BatchRecord)
        requires room { 1 ≤ self.old.room }
        requires taken { refusal change self.old.table ≡ None }
        requires lawful { BringsLawful change }
        ensures { self.new.table ≡ applied change self.old.table }
    {
        match change {
            BatchRecord::Create(id, attempt, body) => self.create(id, attempt, body),
            BatchRecord::Abort(id, _) => self.end(&id, ABORTED, None),
            BatchRecord::Discard(id) => self.discard(&id),
            BatchRecord::Retry(id, attempt) => self.begin(&id, attempt),
            BatchRecord::Finish(id, _, found) => self.end(&id, COMPLETED, Some(found)),
            BatchRecord::Lost(items) => self.lose(&items),
            BatchRecord::Next(id) => self.advance(id),
        }
    }

    /// A new batch.
    fn create(&mut self, id: BatchId, attempt: u32, body: BatchBody)
        requires room { 1 ≤ self.old.room }
        requires taken { refusal (BatchRecord.Create id attempt body) self.old.table ≡ None }
        requires lawful { BringsLawful (BatchRecord.Create id attempt body) }
        ensures { self.new.table ≡ applied (BatchRecord.Create id attempt body) self.old.table }
    {
        set_last(&mut self.lasts, &id);
        self.rows.push_reserved(BatchRow {
            id,
            status: SUBMITTED,
            attempt,
            body,
            result: None,
        });
    }

    /// The owner's next batch has this number or a greater one.
    fn advance(&mut self, id: BatchId)
        requires room { 1 ≤ self.old.room }
        requires taken { refusal (BatchRecord.Next id) self.old.table ≡ None }
        ensures { self.new.table ≡ applied (BatchRecord.Next id) self.old.table }
    {
        set_last(&mut self.lasts, &id);
    }

    /// The batch is no more.
    fn discard(&mut self, id: &BatchId)
        requires taken { refusal (BatchRecord.Discard id.now) self.old.table ≡ None }
        ensures { self.new.table ≡ applied (BatchRecord.Discard id.now) self.old.table }
    {
        self.rows.retain(|row| !is_same_batch(id, &row.id));
    }

    /// The batch's attempt ends with this status.
    fn end(&mut self, id: &BatchId, status: u8, found: Option<BatchResult>)
        ensures { self.new.table ≡ with_row id.now (ended status found) self.old.table }
    {
        if let Some(place) = place_of(&self.rows, id) {
            end_row(&mut self.rows[place], status, found);
        }
    }

    /// An attempt at the batch begins.
    fn begin(&mut self, id: &BatchId, attempt: u32)
        ensures { self.new.table ≡ with_row id.now (begun attempt) self.old.table }
    {
        if let Some(place) = place_of(&self.rows, id) {
            begin_row(&mut self.rows[place], attempt);
        }
    }

    /// These attempts end with their node.
    fn lose(&mut self, items: &Seq<AttemptOf>)
        ensures { self.new.table ≡ applied (BatchRecord.Lost items.now) self.old.table }
    {
        for item in items.as_slice() {
            self.end(&item.id, FAILED, None);
        }
    }
}

/// The attempt at a row ends with this status.
fn end_row(row: &mut BatchRow, status: u8, found: Option<BatchResult>)
    ensures { row.new ≡ ended status found row.old }
{
    row.status = status;
    row.result = found;
}

/// An attempt at a row begins.
fn begin_row(row: &mut BatchRow, attempt: u32)
    ensures { row.new ≡ begun attempt row.old }
{
    row.status = SUBMITTED;
    row.attempt = attempt;
    row.result = None;
}
