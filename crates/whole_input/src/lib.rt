//! An input that is read to its end before anything is answered.
//!
//! [`read_whole`] reads at most so many bytes of a source. What it took, by its answer, stands in `specs/Whole.antt`.
#![tactic(auto)]

mod whole;

pub use whole::{Input, Whole, read_whole};
