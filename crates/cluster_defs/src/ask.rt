//! What a session asks the hub for.

ghost use Rattle.std.specs.Prelude.{◌≡◌, IfOk};

use base_names::{BatchId, NoMemory, TryCopy};
use model_data::BatchBody;
use std::alloc::Global;

/// What is asked for a seat.
#[derive(Debug, Drop, PartialEq, Eq)]
pub enum Ask {
    /// To submit a batch with this body.
    Create(BatchBody),
    /// To tell a batch's status.
    Status(BatchId),
}

impl Ask {
    /// An equal ask.
    pub fn copy(&self, alloc: Global) -> Result<Ask, NoMemory>
        ensures { IfOk result (λ copy. copy ≡ self.now) }
    {
        match self {
            Ask::Create(body) => Ok(Ask::Create(body.copy(alloc)?)),
            Ask::Status(id) => Ok(Ask::Status(*id)),
        }
    }
}

impl TryCopy for Ask {
    fn try_copy(&self, alloc: Global) -> Result<Ask, NoMemory> {
        self.copy(alloc)
    }
}
