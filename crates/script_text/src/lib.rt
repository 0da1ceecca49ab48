//! The lines of a script, each a step of a run of many sessions over one disk.
//!
//! [`read_step`] gives the [`Step`] that a line is, and [`command_line`] the command line that stands in it. Which line is which step is
//! defined in `specs/Steps.antt`, a table by the words of the line; `docs/FORMATS.md` has it in plain words.
#![tactic(auto)]

mod limits;
mod reading;
mod step;
mod words;

pub use limits::{LEAST_JOURNAL, MOST_JOURNAL};
pub use reading::{block_len, command_line, read_step};
pub use step::Step;

#[cfg(test)]
mod tests;
