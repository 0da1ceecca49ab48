//! What is read off the tableau on which a relaxation ends: its point, weights and a direction.
//!
//! Each is defined in `specs/Ends.antt` of `solve_defs`, as a value for each variable by its index. They are formed in one pass
//! over the rows or the columns of a [`Tableau`](dictionary::Tableau), in whatever representation. No operation is made that
//! could be refused.
#![tactic(auto)]

mod by_index;
mod ends;

pub use ends::{dual_of, farkas_of, point_of, ray_of};
pub use solve_defs::{Duals, StdRay};
