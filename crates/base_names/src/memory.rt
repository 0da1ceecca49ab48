//! Want of memory as an answer.

ghost use Rattle.std.specs.Prelude.{◌≡◌, Some};
ghost use Rattle.base_names.specs.Memory.{fault_or_memory_text, memory_text};

use std::alloc::{AllocError, AllocFailed};
use std::error::Error;
use std::fmt;

/// There was no memory for what was asked. Nothing else is said by it: what could not be stored is
/// dropped.
#[derive(Clone, Copy, Debug, PartialEq, Eq)]
pub struct NoMemory;

impl fmt::Display for NoMemory {
    ghost output = { λ _. Some memory_text };

    fn fmt<W: fmt::Write>(&self, f: &mut fmt::Formatter<W>) -> fmt::Result {
        f.write_str("out of memory")
    }
}

impl Error for NoMemory {}

impl From<AllocError> for NoMemory {
    fn from(_error: AllocError) -> NoMemory {
        NoMemory
    }
}

impl<T: Drop> From<AllocFailed<T>> for NoMemory {
    fn from(_failed: AllocFailed<T>) -> NoMemory {
        NoMemory
    }
}

/// A fault of the call's own, or want of memory.
#[derive(Clone, Copy, Debug, PartialEq, Eq, Drop)]
pub enum OrMemory<S> {
    Fault(S),
    NoMemory,
}

impl<S: fmt::Display> fmt::Display for OrMemory<S> {
    ghost output = { λ answer. fault_or_memory_text S.output answer };

    fn fmt<W: fmt::Write>(&self, f: &mut fmt::Formatter<W>) -> fmt::Result {
        match self {
            OrMemory::Fault(fault) => write!(f, "{fault}"),
            OrMemory::NoMemory => write!(f, "{NoMemory}"),
        }
    }
}

impl<S: Error> Error for OrMemory<S> {}

impl<S> From<NoMemory> for OrMemory<S> {
    ghost use Rattle.base_names.specs.declared.memory.OrMemory.TheVariants.{NoMemory as no_memory};

    ghost from_gives = { λ _ answer. answer ≡ no_memory };

    fn from(_error: NoMemory) -> OrMemory<S> {
        OrMemory::NoMemory
    }
}

impl<S> From<AllocError> for OrMemory<S> {
    ghost use Rattle.base_names.specs.declared.memory.OrMemory.TheVariants.{NoMemory as no_memory};

    ghost from_gives = { λ _ answer. answer ≡ no_memory };

    fn from(_error: AllocError) -> OrMemory<S> {
        OrMemory::NoMemory
    }
}

impl<S, T: Drop> From<AllocFailed<T>> for OrMemory<S> {
    ghost use Rattle.base_names.specs.declared.memory.OrMemory.TheVariants.{NoMemory as no_memory};

    ghost from_gives = { λ _ answer. answer ≡ no_memory };

    fn from(_failed: AllocFailed<T>) -> OrMemory<S> {
        OrMemory::NoMemory
    }
}
