//! The simplex method on one relaxation, a pivot at a time.
//!
//! An [`LpRun`] begins at the dictionary that a standard form opens with. Each step makes the pivot that comes next by the
//! rule, in both phases, or tells how the relaxation ends. What comes, and what a pivot makes of a dictionary, is defined in
//! `specs/Path.antt` of `solve_defs`; [`bland_rule`] finds it. A run takes no memory behind its start. A refused operation
//! leaves a run of which no more than the sizes is known.
#![tactic(auto)]

mod run;
mod steps;

pub use bland_rule::{Coming, Entering};
pub use run::{LpRun, LpTurn};
pub use steps::pivot_by;
