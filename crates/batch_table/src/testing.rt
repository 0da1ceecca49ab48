//! Which records are taken.

ghost use Rattle.std.specs.Prelude.{◌≡◌, None, Some, IfErr, OnOk};
ghost use Rattle.batch_table.specs.Lookups.{Answers, is_wanted};
ghost use Rattle.std.specs.List.{list_any};
ghost use Rattle.table_defs.specs.Names.{is_id};
ghost use Rattle.table_defs.specs.Table.{row_of};
ghost use Rattle.table_defs.specs.Taken.{is_open, is_over, lost_refusal, may_begin, on_row, refusal};

use crate::names::is_same_batch;
use crate::statuses::{ABORTED, FAILED, SUBMITTED};
use crate::table::BatchTable;
use base_names::{BatchId, Refusal, Seq};
use model_data::{AttemptOf, BatchRecord, BatchRow};

/// What is wanted of a batch's row.
#[derive(Clone, Copy, Debug, PartialEq, Eq)]
pub(crate) enum Wanted {
    /// This attempt goes on.
    Open(u32),
    /// None goes on.
    Over,
    /// This attempt may begin.
    Begin(u32),
}

/// Whether a row is as it is wanted.
fn is_wanted(row: &BatchRow, wanted: Wanted) -> bool
    ensures { result ≡ is_wanted wanted row.now }
{
    match wanted {
        Wanted::Open(attempt) => row.status == SUBMITTED && row.attempt == attempt,
        Wanted::Over => row.status != SUBMITTED,
        Wanted::Begin(attempt) => {
            (row.status == ABORTED || row.status == FAILED)
                && u64::from(attempt) == u64::from(row.attempt) + 1
        }
    }
}

impl BatchTable {
    /// Whether a record is taken, or why it isn't: BATCH or BATCHSTATE.
    pub fn test(&self, change: &BatchRecord) -> Result<(), Refusal>
        ensures { Answers (refusal change.now self.now.table) result }
    {
        match change {
            BatchRecord::Create(id, _, _) => {
                if self.greatest(&id.owner) < id.number {
                    Ok(())
                } else {
                    Err(Refusal::BATCH)
                }
            }
            BatchRecord::Abort(id, attempt) => self.test_row(id, Wanted::Open(*attempt)),
            BatchRecord::Discard(id) => self.test_row(id, Wanted::Over),
            BatchRecord::Retry(id, attempt) => self.test_row(id, Wanted::Begin(*attempt)),
            BatchRecord::Finish(id, attempt, _) => self.test_row(id, Wanted::Open(*attempt)),
            BatchRecord::Lost(items) => self.test_lost(items),
            BatchRecord::Next(id) => {
                if self.greatest(&id.owner) <= id.number {
                    Ok(())
                } else {
                    Err(Refusal::BATCH)
                }
            }
        }
    }

    /// Whether a batch's row is there and as it is wanted.
    fn test_row(&self, id: &BatchId, wanted: Wanted) -> Result<(), Refusal>
        ensures { Answers (on_row (is_wanted wanted) (row_of id.now self.now.table)) result }
    {
        match self.row(id) {
            None => Err(Refusal::BATCH),
            Some(row) => {
                if is_wanted(row, wanted) {
                    Ok(())
                } else {
                    Err(Refusal::BATCHSTATE(row.status))
                }
            }
        }
    }

    /// Whether each of these attempts goes on and stands there once.
    fn test_lost(&self, items: &Seq<AttemptOf>) -> Result<(), Refusal>
        ensures { Answers (lost_refusal items.now self.now.table) result }
    {
        for (place, item) in items.as_slice().iter().enumerate() {
            if is_among(&items.as_slice()[..place], &item.id) {
                return Err(Refusal::BATCHSTATE(FAILED));
            }
            self.test_row(&item.id, Wanted::Open(item.attempt))?;
        }
        Ok(())
    }
}

/// Whether one of these is an attempt at the batch.
fn is_among(items: &[AttemptOf], id: &BatchId) -> bool
    ensures { result ≡ list_any (λ item. is_id id.now item.id) items.now }
{
    items.iter().any(|item| is_same_batch(id, &item.id))
}
