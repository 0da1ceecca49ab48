//! A relaxation takes few pivots, as contracts without code.
//!
//! Choices of basic variables are counted by flags and ranks: a set of numbers below n with m members has a rank below the number
//! of ways to choose m of n (`choose` of `limit_defs`), and sets with one rank are one. Since no basis is met twice within a
//! phase (`cycle_laws`), its path is shorter than there are bases. A relaxation is two such paths at most, each among the
//! columns, the slacks of the rows and the artificial variable.
#![tactic(auto)]

mod choice_laws;
mod path_laws;

pub use choice_laws::different_choices_are_few;
pub use path_laws::{a_phase_has_fewer_pivots_than_bases, a_relaxation_takes_few_pivots};
