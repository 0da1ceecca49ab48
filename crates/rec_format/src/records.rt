//! Records, whole.
ghost use Rattle.std.specs.Prelude.{◌≡◌, ◌++◌, IfOk, IfSome, OnOk, Some};
ghost use Rattle.model_data.specs.declared.batch.BatchRecord.{BatchRecord};
ghost use Rattle.rec_format.specs.Format.{whole};
ghost use Rattle.rec_format.specs.Ids.{attempt as attempt_format};
ghost use Rattle.rec_format.specs.Lawful.{CanBeSpelled, IsLawfulRecord};
ghost use Rattle.rec_format.specs.Records.{attempt_of, batch_record, record_of_kind, record_write, RecordFits};
ghost use Rattle.rec_format.specs.Taking.{IsTold, Takes, Took};

use crate::orderly::is_orderly_record;
use crate::reader::{NoSpelling, Reader};
use crate::spelled::Spelled;
use crate::typed::typed_record;
use base_names::{BatchId, NoMemory, OrMemory, Seq, Text};
use model_data::{AttemptOf, BatchBody, BatchRecord, BatchResult};
use std::alloc::Global;

/// The bytes that spell the record, which is lawful then.
#[tactic(auto, using(crate::proofs::LawfulSpelled::record_fits))]
pub fn encode(alloc: Global, r: &BatchRecord) -> Result<Text, NoMemory>
    requires { CanBeSpelled r.now }
    ensures bytes { IfOk result (λ text. text ≡ record_write r.now) }
    ensures lawful { OnOk result (IsLawfulRecord r.now) }
{
    typed_record(r);
    let mut out = Vec::new(alloc);
    put_record(&mut out, r)?;
    Ok(Text::of(out))
}

/// The record that these bytes spell. `None` exactly where they spell none that is lawful.
pub fn decode(alloc: Global, bytes: &[u8]) -> Result<Option<BatchRecord>, NoMemory>
    ensures spelled { IfOk result (λ o. IfSome o (λ r. (bytes.now ≡ record_write r) × IsLawfulRecord r)) }
    ensures only { (r : BatchRecord) → IsLawfulRecord r → bytes.now ≡ record_write r → IfOk result (λ o. o ≡ Some r) }
{
    match whole_record(alloc, bytes) {
        Ok(record) => {
            if is_orderly_record(alloc, &record)? {
                Ok(Some(record))
            } else {
                Ok(None)
            }
        }
        Err(OrMemory::Fault(NoSpelling)) => Ok(None),
        Err(OrMemory::NoMemory) => Err(NoMemory),
    }
}

/// The record that all of the bytes spell, where its model needn't be lawful.
fn whole_record(alloc: Global, bytes: &[u8]) -> Result<BatchRecord, OrMemory<NoSpelling>>
    ensures { IsTold (whole batch_record bytes.now) result }
{
    let mut reader = Reader { alloc, bytes };
    let record = read_record(&mut reader)?;
    if reader.is_done() {
        Ok(record)
    } else {
        Err(OrMemory::Fault(NoSpelling))
    }
}

/// The record at the front of the reader's bytes, where its model needn't be lawful.
fn read_record(reader: &mut Reader) -> Result<BatchRecord, OrMemory<NoSpelling>>
    ensures { Takes batch_record reader.old.bytes.now result reader.new.bytes.now }
{
    let kind = reader.byte()?;
    record_of(reader, kind)
}

/// The record of this kind at the front of the reader's bytes.
fn record_of(reader: &mut Reader, kind: u8) -> Result<BatchRecord, OrMemory<NoSpelling>>
    ensures { Took (record_of_kind kind reader.old.bytes.now) result reader.new.bytes.now }
{
    match kind {
        1 => {
            let of = AttemptOf::read_from(reader)?;
            let body = BatchBody::read_from(reader)?;
            Ok(BatchRecord::Create(of.id, of.attempt, body))
        }
        2 => {
            let of = AttemptOf::read_from(reader)?;
            Ok(BatchRecord::Abort(of.id, of.attempt))
        }
        3 => Ok(BatchRecord::Discard(BatchId::read_from(reader)?)),
        4 => {
            let of = AttemptOf::read_from(reader)?;
            Ok(BatchRecord::Retry(of.id, of.attempt))
        }
        5 => {
            let of = AttemptOf::read_from(reader)?;
            let found = BatchResult::read_from(reader)?;
            Ok(BatchRecord::Finish(of.id, of.attempt, found))
        }
        6 => Ok(BatchRecord::Lost(<Seq<AttemptOf>>::read_from(reader)?)),
        7 => Ok(BatchRecord::Next(BatchId::read_from(reader)?)),
        _ => Err(OrMemory::Fault(NoSpelling)),
    }
}

fn put_record(out: &mut Vec<u8>, r: &BatchRecord) -> Result<(), NoMemory>
    requires { RecordFits r.now }
    ensures { OnOk result (out.new.items ≡ out.old.items ++ record_write r.now) }
{
    match r {
        BatchRecord::Create(id, attempt, body) => {
            out.push(1)?;
            put_attempt(out, id, *attempt)?;
            body.write_to(out)
        }
        BatchRecord::Abort(id, attempt) => {
            out.push(2)?;
            put_attempt(out, id, *attempt)
        }
        BatchRecord::Discard(id) => {
            out.push(3)?;
            id.write_to(out)
        }
        BatchRecord::Retry(id, attempt) => {
            out.push(4)?;
            put_attempt(out, id, *attempt)
        }
        BatchRecord::Finish(id, attempt, found) => {
            out.push(5)?;
            put_attempt(out, id, *attempt)?;
            found.write_to(out)
        }
        BatchRecord::Lost(attempts) => {
            out.push(6)?;
            attempts.write_to(out)
        }
        BatchRecord::Next(id) => {
            out.push(7)?;
            id.write_to(out)
        }
    }
}

fn put_attempt(out: &mut Vec<u8>, id: &BatchId, attempt: u32) -> Result<(), NoMemory>
    requires { attempt_format.Fits (attempt_of id.now attempt) }
    ensures { OnOk result (out.new.items ≡ out.old.items ++ attempt_format.write (attempt_of id.now attempt)) }
{
    id.write_to(out)?;
    attempt.write_to(out)
}
