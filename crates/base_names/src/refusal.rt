//! Refusals: why a command was not done.

ghost use Rattle.std.specs.Prelude.{◌≡◌};

use crate::memory::NoMemory;
use crate::node::NodeNo;
use std::alloc::{AllocError, AllocFailed};

/// What is wrong in a text of a model, at the place that is told beside it.
#[derive(Clone, Copy, Debug, PartialEq, Eq)]
pub enum FaultWord {
    Word,
    Number,
    NameLength,
    DoubledName,
    NoSection,
    Unsupported,
    AfterEnd,
    Size,
}

/// Which of an owner's limits is reached.
#[derive(Clone, Copy, Debug, PartialEq, Eq)]
pub enum OwnerLimit {
    Commands,
    Numbers,
    Bytes,
}

/// Why a command was not done. The names are those of the printed texts, and the numbers there follow
/// the order here, from 1.
#[derive(Clone, Copy, Debug, PartialEq, Eq)]
pub enum Refusal {
    KEY,
    LINE,
    STATE,
    /// The line and the column, from 1, and what is wrong there.
    MODEL(u32, u32, FaultWord),
    NAME,
    DUPLICATE,
    RANGE,
    PARAM,
    NOTAG,
    SIZE,
    NOJOB,
    NONODE,
    BATCH,
    /// The batch's status.
    BATCHSTATE(u8),
    OWNERFULL(OwnerLimit),
    /// The bytes that are needed, and the limit.
    JOURNALFULL(u64, u64),
    /// The disk's count of faults before and after.
    DISK(u64, u64),
    MEMORY,
    ROLE,
    NOSOLUTION,
    NODE,
    /// The node on which the job was lost.
    NODELOST(NodeNo),
}

impl From<NoMemory> for Refusal {
    ghost use Rattle.base_names.specs.declared.refusal.Refusal.TheVariants.{MEMORY};

    ghost from_gives = { λ _ refusal. refusal ≡ MEMORY };

    fn from(_error: NoMemory) -> Refusal {
        Refusal::MEMORY
    }
}

impl From<AllocError> for Refusal {
    ghost use Rattle.base_names.specs.declared.refusal.Refusal.TheVariants.{MEMORY};

    ghost from_gives = { λ _ refusal. refusal ≡ MEMORY };

    fn from(_error: AllocError) -> Refusal {
        Refusal::MEMORY
    }
}

impl<T: Drop> From<AllocFailed<T>> for Refusal {
    ghost use Rattle.base_names.specs.declared.refusal.Refusal.TheVariants.{MEMORY};

    ghost from_gives = { λ _ refusal. refusal ≡ MEMORY };

    fn from(_failed: AllocFailed<T>) -> Refusal {
        Refusal::MEMORY
    }
}
