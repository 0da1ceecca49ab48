//! Limits on pivots and nodes that no solve meets: how large they are, and the text that tells them.
//!
//! `specs/Counts.antt` has the number of ways to choose, and how many pivots a relaxation takes at most by its columns and rows.
//! `specs/Limits.antt` has the bounds of a model: how many nodes its tree has at most, how many pivots a whole solve takes, and
//! which parameters allow as many. `specs/Text.antt` has the two lines that tell them. Worked numbers and models are evaluated in
//! `proofs/Worked.antt`.
#![tactic(auto)]

mod laws;

pub use laws::{a_model_is_closed_where_no_variable_is_open, limits_that_are_told_are_enough};
