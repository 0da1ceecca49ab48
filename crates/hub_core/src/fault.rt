//! Why a hub wasn't opened.

ghost use Rattle.std.specs.Prelude.{◌≡◌, Some};
ghost use Rattle.hub_core.specs.Mounting.{mount_fault};

use journal::MountFault;

/// Why a hub wasn't opened.
#[derive(Clone, Copy, Debug, PartialEq, Eq)]
pub enum HubFault {
    DiskFailed,
    /// The first 8 bytes of the file, which are another header.
    NotAJournal([u8; 8]),
    /// The number of the first body, from 1, that spells no record or that the table refuses.
    BadRecord(u64),
    /// The end and the reserve together, which pass the journal's limit; at most 2^64 - 1.
    TooFull(u64),
    NoMemory,
}

/// The hub's word for a fault of the journal.
pub(crate) fn of_mount(fault: MountFault) -> HubFault
    ensures { mount_fault result ≡ Some fault }
{
    match fault {
        MountFault::DiskFailed => HubFault::DiskFailed,
        MountFault::NotAJournal(head) => HubFault::NotAJournal(head),
        MountFault::NoMemory => HubFault::NoMemory,
    }
}
