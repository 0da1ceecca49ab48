//! Bodies in a file on a disk, each of them there before it is acknowledged.
//!
//! - [`Journal::mount`] opens a file that a crash may have left, or begins one, and tells its bodies.
//! - [`Journal::append`] adds a body by four calls of the disk. Once it answers `Ok` the body is there whatever comes. Where the disk
//!   fails, at most this one record is in doubt, and [`Journal::settle`] undoes it.
//! - The functions without code are laws: what images are read as, through appends, openings and stops.
//!
//! `specs/Records.antt` says what a file is read as and what an image may be, and `specs/Reading.antt` the first of these in the
//! format's own words; `specs/Plans.antt` which calls of the disk are made; `specs/Standing.antt` what a journal stands for between
//! calls (`Stands`) and what a crash leaves of it at any moment (`Holds`, `WhileAdding`); `specs/Mounting.antt` what an opening finds
//! and leaves (`Mends`, `WhileMounting`). `docs/FORMATS.md` has the file.
#![tactic(auto)]

mod append;
mod fault;
mod journal;
mod laws;
mod mending;
mod mounting;
mod opening;
mod put;
mod reading_back;
mod scanning;
mod spelling;

pub use fault::{AppendFault, MountFault};
pub use journal::{Journal, JournalRoom};
pub use laws::{
    a_file_is_read_while_its_gates_are_open, a_journal_stands_for_its_bodies,
    a_mounting_opens_one_gate_at_most, an_append_leaves_at_most_one_more,
    an_image_is_read_as_its_bodies,
};
pub use mounting::Unmounted;
