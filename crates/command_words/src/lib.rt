//! The words of a command line, read by `clap`.
//!
//! [`read_words`] gives what the words ask for, or refuses them. `specs/Table.antt` has the subcommands with their options,
//! `specs/Given.antt` what the words behind one give, and `specs/Asked.antt` what that asks for. A law, generic in the table
//! of subcommands, says that `clap` takes just the words that these take, and keeps what they gave (`proofs/Tops.antt`).
#![tactic(auto)]

mod asked;
mod command;
mod limits;
mod reading;
mod values;

pub use asked::{ServeWords, Words, WordsFault};
pub use reading::read_words;
