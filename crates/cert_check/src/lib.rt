//! Certificates are checked.
//!
//! [`check`] looks at an outcome with its certificate in the order that `Certificates` of `solve_defs` fixes, and answers the first
//! look that doesn't hold, or the first operation that doesn't fit. Whoever believes it needs to believe no solver: it stands on the
//! definitions of what is right alone, and shares no code with how an answer is found. What its answers say of looks is stated in
//! `specs/Failures.antt`, what they say of a model in `Points` of `solve_defs`.
#![tactic(auto)]

mod bounds;
mod cases;
mod checking;
mod claim;
mod failure;
mod items;
mod kinds;
mod leaf;
mod point;
mod ray;
mod shape;
mod side;
mod signs;
mod sums;
mod tree;
mod values;
mod verdict_laws;

pub use checking::check;
pub use solve_defs::{Place, Verdict};
pub use verdict_laws::a_verdict_tells_the_first_failure;
