//! Batches: what is submitted, what is found, and the records of both.
ghost use Rattle.std.specs.Prelude.{◌≡◌, IfOk};

use crate::model::Model;
use crate::params::Params;
use crate::solution::Outcome;
use base_names::{BatchId, NoMemory, Seq, Text, TryCopy};
use std::alloc::Global;

/// What a batch solves, and how.
#[derive(Debug, Drop, PartialEq, Eq)]
pub struct BatchBody {
    pub model: Model,
    pub params: Params,
}

/// What a batch found. There is no certificate where its text was too long.
#[derive(Debug, Drop, PartialEq, Eq)]
pub struct BatchResult {
    pub outcome: Outcome,
    pub cert: Option<Text>,
}

/// A batch as the table has it.
#[derive(Debug, Drop, PartialEq, Eq)]
pub struct BatchRow {
    pub id: BatchId,
    pub status: u8,
    /// The number of the last attempt, from 1.
    pub attempt: u32,
    pub body: BatchBody,
    pub result: Option<BatchResult>,
}

/// A batch as it is listed.
#[derive(Clone, Copy, Debug, PartialEq, Eq)]
pub struct BatchLine {
    pub id: BatchId,
    pub status: u8,
}

/// One attempt at a batch.
#[derive(Clone, Copy, Debug, PartialEq, Eq)]
pub struct AttemptOf {
    pub id: BatchId,
    pub attempt: u32,
}

/// A change of the table of batches, as it is journaled.
#[derive(Debug, Drop, PartialEq, Eq)]
pub enum BatchRecord {
    /// The batch, the number of its first attempt, and what it solves.
    Create(BatchId, u32, BatchBody),
    /// This attempt ends without a result.
    Abort(BatchId, u32),
    /// The batch is no more.
    Discard(BatchId),
    /// The number of the attempt that begins.
    Retry(BatchId, u32),
    /// This attempt ends with a result.
    Finish(BatchId, u32, BatchResult),
    /// These attempts end with their node.
    Lost(Seq<AttemptOf>),
    /// The owner's next batch has this number or a greater one.
    Next(BatchId),
}

impl BatchBody {
    /// An equal body.
    pub fn copy(&self, alloc: Global) -> Result<BatchBody, NoMemory>
        ensures { IfOk result (λ copy. copy ≡ self.now) }
    {
        Ok(BatchBody {
            model: self.model.copy(alloc)?,
            params: self.params,
        })
    }
}

impl TryCopy for BatchBody {
    fn try_copy(&self, alloc: Global) -> Result<BatchBody, NoMemory> {
        self.copy(alloc)
    }
}

impl BatchResult {
    /// An equal result.
    pub fn copy(&self, alloc: Global) -> Result<BatchResult, NoMemory>
        ensures { IfOk result (λ copy. copy ≡ self.now) }
    {
        let cert = match &self.cert {
            Some(cert) => Some(cert.copy(alloc)?),
            None => None,
        };
        Ok(BatchResult {
            outcome: self.outcome.copy(alloc)?,
            cert,
        })
    }
}

impl TryCopy for BatchResult {
    fn try_copy(&self, alloc: Global) -> Result<BatchResult, NoMemory> {
        self.copy(alloc)
    }
}

impl BatchRow {
    /// An equal row.
    pub fn copy(&self, alloc: Global) -> Result<BatchRow, NoMemory>
        ensures { IfOk result (λ copy. copy ≡ self.now) }
    {
        let result = match &self.result {
            Some(found) => Some(found.copy(alloc)?),
            None => None,
        };
        Ok(BatchRow {
            id: self.id,
            status: self.status,
            attempt: self.attempt,
            body: self.body.copy(alloc)?,
            result,
        })
    }
}

impl TryCopy for BatchRow {
    fn try_copy(&self, alloc: Global) -> Result<BatchRow, NoMemory> {
        self.copy(alloc)
    }
}

impl BatchRecord {
    /// An equal record.
    pub fn copy(&self, alloc: Global) -> Result<BatchRecord, NoMemory>
        ensures { IfOk result (λ copy. copy ≡ self.now) }
    {
        match self {
            BatchRecord::Create(id, attempt, body) => Ok(BatchRecord::Create(
                *id,
                *attempt,
                body.copy(alloc)?,
            )),
            BatchRecord::Abort(id, attempt) => Ok(BatchRecord::Abort(*id, *attempt)),
            BatchRecord::Discard(id) => Ok(BatchRecord::Discard(*id)),
            BatchRecord::Retry(id, attempt) => Ok(BatchRecord::Retry(*id, *attempt)),
            BatchRecord::Finish(id, attempt, found) => Ok(BatchRecord::Finish(
                *id,
                *attempt,
                found.copy(alloc)?,
            )),
            BatchRecord::Lost(attempts) => Ok(BatchRecord::Lost(attempts.copy(alloc)?)),
            BatchRecord::Next(id) => Ok(BatchRecord::Next(*id)),
        }
    }
}

impl TryCopy for BatchRecord {
    fn try_copy(&self, alloc: Global) -> Result<BatchRecord, NoMemory> {
        self.copy(alloc)
    }
}
