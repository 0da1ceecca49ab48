//! `solve`: the text of a model in, its outcome with a certificate out.
//!
//! [`solve`] reads a whole input, and writes the certificate of the model that it spells, or tells where it is no model's text. What
//! answers for a model stands in `specs/Solve.antt`, and what was done to source and sink by the end in `model_command`. The search is
//! that of `branch_tree`, turn by turn to its end; the law that its outcome is so, and its certificate valid, is
//! that of `solver_laws`, and the one that no limit ends it which is enough that of `node_laws`.
#![tactic(auto)]

mod certificate;
mod command;

pub use command::solve;
pub use model_command::ModelEnd;
