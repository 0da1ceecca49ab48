//! Dictionaries of the simplex method, over exact fractions.
//!
//! A dictionary tells each basic variable and the objective by the nonbasic ones. What it is, the one that a linear program
//! in standard form opens with, a pivot and the end of phase one are defined in `specs/Dictionary.antt`, the rule by which
//! variables enter and leave in `specs/Rule.antt`. The trait [`Tableau`] says what each representation does in these words,
//! and [`Dict`] is the dense one. What a dictionary says of points is defined in `specs/Solutions.antt`, and [`laws`] say
//! what pivots, the rule and phase one have to do with them. The same pivots without limits on the size of numbers are in
//! `specs/ExactPath.antt`, and [`what_fits_is_exact`] says that those which fit are these.
#![tactic(auto)]

mod dense;
mod elimination;
mod exact_laws;
pub mod laws;
mod openings;
mod removal;
mod standard;
mod tableaus;

pub use dense::Dict;
pub use exact_laws::what_fits_is_exact;
pub use standard::{Std, StdRow};
pub use tableaus::Tableau;
