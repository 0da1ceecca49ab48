//! A command whose input is the text of a model: what it writes for the model, or where the text is none.
//!
//! [`Query`] is what is asked of a model, and [`answer`] reads a whole input, and writes the answer for the model that it
//! spells, or tells where it is no model's text. What it did to its source and its sink by its end stands in `specs/Says.antt`,
//! which is told what answers a model.
#![tactic(auto)]

mod command;
mod query;
mod reading;

pub use command::{ModelEnd, TEXT_LIMIT, answer};
pub use query::Query;
