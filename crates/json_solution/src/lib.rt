//! A solution as JSON text.
//!
//! [`json`] gives the text that `specs/Solution.antt` says, byte for byte. `serde_json` prints it, from a value that
//! `specs/Built.antt` has.
#![tactic(auto)]

mod built;
mod solution;

pub use solution::json;

#[cfg(test)]
mod tests;
