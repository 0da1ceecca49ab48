//! A model in standard form, and back.
//!
//! [`to_std`] makes a linear program of a model and of the cuts that hold in a part of the search, and [`point_back`] the
//! values of its variables from those of the program's columns. What both are, operation by operation, is said in
//! `specs/StandardForm.antt` of `solve_defs`. A call answers [`StdFault::Wide`] exactly where one of these operations
//! doesn't fit, with the first one.
#![tactic(auto)]

mod bounds;
mod columns;
mod fault;
mod point;
mod rows;
mod shape;
mod standard;
mod weights;

pub use fault::StdFault;
pub use point::{point_back, ray_back};
pub use solve_defs::Cut;
pub use standard::to_std;
pub use weights::dual_back;
