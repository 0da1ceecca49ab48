//! What the hub replies.

ghost use Rattle.std.specs.Prelude.{◌≡◌, IfOk};

use base_names::{BatchId, NoMemory, Refusal, TryCopy};
use std::alloc::Global;

/// The answer to an ask.
#[derive(Debug, Drop, PartialEq, Eq)]
pub enum Reply {
    /// The batch was submitted, and this is its ID.
    Made(BatchId),
    /// The batch has this status.
    Status(BatchId, u8),
    Refused(Refusal),
}

impl Reply {
    /// An equal reply.
    pub fn copy(&self, _alloc: Global) -> Result<Reply, NoMemory>
        ensures { IfOk result (λ copy. copy ≡ self.now) }
    {
        Ok(match self {
            Reply::Made(id) => Reply::Made(*id),
            Reply::Status(id, status) => Reply::Status(*id, *status),
            Reply::Refused(refusal) => Reply::Refused(*refusal),
        })
    }
}

impl TryCopy for Reply {
    fn try_copy(&self, alloc: Global) -> Result<Reply, NoMemory> {
        self.copy(alloc)
    }
}
