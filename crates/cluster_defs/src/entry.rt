//! An ask that was answered, as it is kept.

ghost use Rattle.std.specs.Prelude.{◌≡◌, IfOk};

use crate::ask::Ask;
use crate::reply::Reply;
use base_names::{NoMemory, Seat, TryCopy};
use std::alloc::Global;

/// Who asked, what was asked, and what was replied.
#[derive(Debug, Drop, PartialEq, Eq)]
pub struct Entry {
    pub seat: Seat,
    pub ask: Ask,
    pub reply: Reply,
}

impl Entry {
    /// An equal entry.
    pub fn copy(&self, alloc: Global) -> Result<Entry, NoMemory>
        ensures { IfOk result (λ copy. copy ≡ self.now) }
    {
        Ok(Entry {
            seat: self.seat,
            ask: self.ask.copy(alloc)?,
            reply: self.reply.copy(alloc)?,
        })
    }
}

impl TryCopy for Entry {
    fn try_copy(&self, alloc: Global) -> Result<Entry, NoMemory> {
        self.copy(alloc)
    }
}
