//! The calls of a disk, as a list that only proofs read.

ghost use Rattle.std.specs.Prelude.{◌≡◌, ℕ, List, [], ◌∷◌, ◌++◌};
ghost use Rattle.std.specs.Borrow.{ftrue};
ghost use Rattle.disk_model.specs.Calls.{DiskCall};
ghost use Rattle.disk_model.specs.Made.{call_of, has_failed};

use crate::answer::{DiskDone, DiskLen};
use std::marker::{Model, PhantomData};

/// A call with its answer: of a read and a write the place too, and of a read the length.
#[derive(Clone, Copy, Debug)]
pub enum Made {
    Len(DiskLen),
    Read(u64, u64, DiskDone),
    Write(u64, DiskDone),
    Sync(DiskDone),
}

impl Made {
    /// Whether it was answered that it failed.
    pub fn has_failed(self) -> bool
        ensures { (bytes : List ℕ) → has_failed (call_of self bytes) ≡ result }
    {
        match self {
            Made::Len(DiskLen::Len(_)) => false,
            Made::Len(DiskLen::Failed) => true,
            Made::Read(_, _, answer) => answer == DiskDone::Failed,
            Made::Write(_, answer) => answer == DiskDone::Failed,
            Made::Sync(answer) => answer == DiskDone::Failed,
        }
    }
}

/// The calls so far, the earliest first, which a clause reads as `calls`. It takes no memory, and its methods do nothing at run
/// time.
#[derive(Drop)]
pub struct CallLog {
    of: PhantomData<u8>,
    pub ghost calls: { List DiskCall },
}

impl Model for CallLog {
    ghost also_owns = { λ _. ftrue };
}

impl CallLog {
    pub fn new() -> CallLog
        ensures { result.calls ≡ [] }
    {
        CallLog { of: PhantomData }
    }

    /// Adds a call. The bytes are those of a write.
    pub fn note(&mut self, _made: &Made, _bytes: &[u8])
        ensures { self.new.calls ≡ self.old.calls ++ call_of _made.now _bytes.now ∷ [] }
    {}
}
