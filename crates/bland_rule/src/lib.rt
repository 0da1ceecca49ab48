//! Bland's rule on a tableau: which pivot comes next, or which end.
//!
//! The entering variable has the smallest index among those whose rise makes the maximized row greater, and the leaving one
//! among those that bound this rise most closely. What comes next is defined in `specs/Path.antt` of `solve_defs`, and the
//! rule in `specs/Rule.antt` of `dictionary`, over lists of columns and rows. Here each is one pass by number over a
//! [`Tableau`](dictionary::Tableau), in whatever representation, without memory.
#![tactic(auto)]

mod choice;
mod entering;
mod scans;

pub use choice::{
    awaits_artificial, coming, entering_column, least_row, leaving_row, next_work, work,
};
pub use entering::{Coming, Entering};
