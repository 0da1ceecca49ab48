//! `session`: one client's session over a file on a disk.
//!
//! [`hold_session`] opens the file, answers the client's lines over it, and gives the disk back. `specs/OnDisk.antt` says what the desk
//! over a file replies, and `specs/Held.antt` what was taken, written and found by the end.
#![tactic(auto)]

mod command;

pub use command::{SessionEnd, hold_session};
