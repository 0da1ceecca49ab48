//! Exact fractions of 128 bits.
//!
//! A [`Frac`] is kept in lowest terms, with a denominator above 0 and both parts below 2^127 in size. Each operation is
//! exact or refused: it never rounds and never wraps, and its contract says on which operands it answers.
//!
//! A contract sees a `Frac` as a mathematical fraction, in whose type a denominator can't be 0. The definitions stand in
//! `specs/`: `Fraction` has the exact results, `Fits` says which of them fit, `Order` has the order by value, `Checked`
//! has operations that name what did not fit, for chains, and `Text` says how a fraction and a refusal are written.
//! [`laws`] has what holds of all of these.
#![tactic(auto)]

mod display;
mod divisor;
mod euclid;
mod fractions;
pub mod laws;
mod limits;
mod operations;
mod parts;

pub use fractions::Frac;
pub use limits::{HUGE, HUGE_TENS, LIMIT};
pub use operations::{Op, Wide};
