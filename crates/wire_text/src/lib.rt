//! Commands and answers as bytes.
//!
//! - [`read_command`] gives the [`Command`] that a line is, or why it is none; [`block_len`] tells how long a block stands
//!   behind a line.
//! - The `append` calls write answers behind what stands on a kept buffer, in whole lines.
//!
//! Which line is which command is defined in `specs/Forms.antt`, a table of forms, `specs/Kinds.antt`, what a word tells in
//! an argument's place, and `specs/Commands.antt`, which puts the two together. `specs/Reading.antt` says the same from the
//! left, as the code goes. `specs/Answers.antt` has the texts of answers. [`laws`] says that no
//! line is two commands.
#![tactic(auto)]

mod answers;
mod arguments;
mod changes;
mod command;
pub mod laws;
mod limits;
mod queries;
mod reading;
mod telling;
mod terms;
mod verb;
mod words;

pub use answers::{
    append_block, append_bye, append_count, append_done, append_kind, append_lower, append_number,
    append_refusal, append_reply, append_sense, append_tag, append_updated, append_upper,
    append_whole,
};
pub use command::Command;
pub use limits::BLOCK_LIMIT;
pub use reading::{block_len, read_command};
