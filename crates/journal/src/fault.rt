//! Why a call of the journal was refused.

use base_names::NoMemory;
use std::alloc::AllocError;

/// Why a file wasn't opened.
#[derive(Clone, Copy, Debug, PartialEq, Eq)]
pub enum MountFault {
    DiskFailed,
    /// The first 8 bytes of the file, which are another header.
    NotAJournal([u8; 8]),
    NoMemory,
}

impl From<AllocError> for MountFault {
    ghost use Rattle.std.specs.Prelude.{◌≡◌};
    ghost use Rattle.journal.specs.declared.fault.MountFault.TheVariants.{NoMemory};

    ghost from_gives = { λ _ fault. fault ≡ NoMemory };

    fn from(_error: AllocError) -> MountFault {
        MountFault::NoMemory
    }
}

impl From<NoMemory> for MountFault {
    ghost use Rattle.std.specs.Prelude.{◌≡◌};
    ghost use Rattle.journal.specs.declared.fault.MountFault.TheVariants.{NoMemory as no_memory};

    ghost from_gives = { λ _ fault. fault ≡ no_memory };

    fn from(_error: NoMemory) -> MountFault {
        MountFault::NoMemory
    }
}

/// Why a body wasn't added, or the one in doubt not undone.
#[derive(Clone, Copy, Debug, PartialEq, Eq)]
pub enum AppendFault {
    /// The place of the end behind the record, and the limit that it passes.
    Full { need: u64, limit: u64 },
    DiskFailed,
}
