//! Limits on pivots and nodes that no solve of a model meets.
//!
//! [`pivot_bound`] says how many pivots one relaxation takes at most, [`node_bound`] how many nodes a tree has at most, and
//! [`iteration_bound`] how many pivots the whole tree takes. What these numbers are stands in `specs/Limits.antt` of
//! `limit_defs`, and how a number is told that no limit of a solve reaches in `specs/Bounds.antt`. They are read off
//! a model's variables and rows; no standard form is made.
#![tactic(auto)]

mod iterations;
mod nodes;
mod pivots;
mod root;
mod variable;

pub use iterations::iteration_bound;
pub use nodes::{Nodes, node_bound};
pub use pivots::pivot_bound;
pub use root::{root_columns, root_rows};
