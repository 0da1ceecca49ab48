//! Records that are taken or refused one after the other, and what the table then has.

ghost use Rattle.std.specs.Prelude.{IfOk};
ghost use Rattle.batch_table.specs.Contents.{BringsLawful};

use base_names::{BatchId, NoMemory, Owner, Refusal, Seq};
use batch_table::{BatchTable, is_same_batch, is_same_owner};
use model_data::{AttemptOf, BatchBody, BatchRecord, BatchResult, Model, Outcome, Params};
use std::alloc::Global;
use std::test::Fail;

/// Takes the record where it is to be taken.
fn take(table: &mut BatchTable, change: BatchRecord) -> Result<Option<Refusal>, NoMemory>
    requires lawful { BringsLawful change }
{
    match table.test(&change) {
        Err(refusal) => Ok(Some(refusal)),
        Ok(()) => {
            table.reserve()?;
            table.apply(change);
            Ok(None)
        }
    }
}

fn batch(owner: &[u8], number: u32) -> Result<BatchId, Fail> {
    Ok(BatchId {
        owner: Owner::read(owner).ok_or("an owner")?,
        number,
    })
}

fn create(alloc: Global, id: BatchId) -> BatchRecord
    ensures { BringsLawful result }
{
    BatchRecord::Create(
        id,
        1,
        BatchBody {
            model: Model::empty(alloc),
            params: Params::usual(),
        },
    )
}

fn finish(id: BatchId, attempt: u32) -> BatchRecord
    ensures { BringsLawful result }
{
    BatchRecord::Finish(
        id,
        attempt,
        BatchResult {
            outcome: Outcome {
                status: 2,
                pivots: 0,
                nodes: 0,
                work: 0,
                point: None,
                wide: None,
            },
            cert: None,
        },
    )
}

fn lost(alloc: Global, attempts: &[(BatchId, u32)]) -> Result<BatchRecord, NoMemory>
    ensures { IfOk result (λ change. BringsLawful change) }
{
    let mut items = Vec::new(alloc);
    for (id, attempt) in attempts {
        items.push(AttemptOf {
            id: *id,
            attempt: *attempt,
        })?;
    }
    Ok(BatchRecord::Lost(Seq::of(items)))
}

fn status(table: &BatchTable, id: &BatchId) -> Option<u8> {
    table.row(id).map(|row| row.status)
}

#[test]
fn numbers_are_each_owners_own(rt: HostRuntime) -> Result<(), Fail> {
    let alloc = rt.alloc();
    let mut table = BatchTable::empty(alloc);
    let (first, other) = (batch(b"ada", 1)?, batch(b"bob", 1)?);
    assert!(rt; is_same_owner(&first.owner, &first.owner) && !is_same_batch(&first, &other));
    assert!(rt; take(&mut table, create(alloc, first))?.is_none());
    assert!(rt; take(&mut table, create(alloc, other))?.is_none());
    assert!(rt; take(&mut table, create(alloc, first))? == Some(Refusal::BATCH));
    assert!(rt; take(&mut table, BatchRecord::Next(batch(b"ada", 5)?))?.is_none());
    assert!(rt; take(&mut table, create(alloc, batch(b"ada", 5)?))? == Some(Refusal::BATCH));
    assert!(rt; table.greatest(&first.owner) == 5 && table.greatest(&other.owner) == 1);
    assert!(rt; table.len() == 2 && table.rows().len() == 2 && table.going_on() == 2);
    Ok(())
}

#[test]
fn an_attempt_ends_once(rt: HostRuntime) -> Result<(), Fail> {
    let alloc = rt.alloc();
    let mut table = BatchTable::empty(alloc);
    let id = batch(b"ada", 1)?;
    assert!(rt; take(&mut table, BatchRecord::Abort(id, 1))? == Some(Refusal::BATCH));
    assert!(rt; take(&mut table, create(alloc, id))?.is_none());
    assert!(rt; take(&mut table, BatchRecord::Discard(id))? == Some(Refusal::BATCHSTATE(2)));
    assert!(rt; take(&mut table, BatchRecord::Abort(id, 1))?.is_none());
    assert!(rt; take(&mut table, finish(id, 1))? == Some(Refusal::BATCHSTATE(3)));
    assert!(rt; take(&mut table, BatchRecord::Retry(id, 1))? == Some(Refusal::BATCHSTATE(3)));
    assert!(rt; take(&mut table, BatchRecord::Retry(id, 2))?.is_none());
    assert!(rt; take(&mut table, finish(id, 2))?.is_none());
    assert!(rt; status(&table, &id) == Some(5) && table.going_on() == 0);
    assert!(rt; take(&mut table, BatchRecord::Discard(id))?.is_none());
    assert!(rt; status(&table, &id).is_none());
    assert!(rt; take(&mut table, create(alloc, id))? == Some(Refusal::BATCH));
    Ok(())
}

#[test]
fn attempts_are_lost_together(rt: HostRuntime) -> Result<(), Fail> {
    let alloc = rt.alloc();
    let mut table = BatchTable::empty(alloc);
    let (first, second) = (batch(b"ada", 1)?, batch(b"ada", 2)?);
    assert!(rt; take(&mut table, create(alloc, first))?.is_none());
    assert!(rt; take(&mut table, create(alloc, second))?.is_none());
    let twice = lost(alloc, &[(first, 1), (second, 1), (first, 2)])?;
    assert!(rt; take(&mut table, twice)? == Some(Refusal::BATCHSTATE(4)));
    assert!(rt; take(&mut table, lost(alloc, &[(first, 1), (second, 1)])?)?.is_none());
    assert!(rt; status(&table, &first) == Some(4) && status(&table, &second) == Some(4));
    Ok(())
}
