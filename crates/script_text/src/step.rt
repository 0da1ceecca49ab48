//! One step of a script.

use base_names::{Owner, Role};
use disk_model::Image;

/// What a line of a script asks for.
#[derive(Clone, Copy, Debug, PartialEq, Eq)]
pub enum Step {
    /// The greatest number of an owner's commands, of the bytes of the models that an owner keeps, and of the journal's bytes.
    Limits {
        commands: u32,
        bytes: u64,
        journal: u64,
    },
    /// A session begins at the seat of this number.
    Seat(u8, Owner, Role),
    /// The session at this seat gets a command line.
    At(u8),
    /// The input of the session at this seat ends.
    Hang(u8),
    /// The k-th call of the disk from now on fails. k is at least 1.
    Fault(u64),
    /// The machine stops in the k-th call of the disk from now on, or at once where k is 0.
    Stop(u64, Image),
    /// The machine starts again.
    Open,
}
