//! `limits`: the text of a model in, the limits that a solve of it doesn't meet out.
//!
//! [`limits`] reads a whole input, and writes two lines for the model that it spells, or tells where it is no model's text. What
//! the lines tell stands in `specs/Text.antt` of `limit_defs`, and what was done to source and sink by the end in `model_command`.
#![tactic(auto)]

mod command;
mod text;

pub use command::limits;
pub use model_command::ModelEnd;
