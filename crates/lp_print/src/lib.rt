//! Models as text.
//!
//! [`print`] gives the canonical text of a model, in which its tags don't stand. What the text is, line by line, is said in
//! `specs/Canonical.antt` of `lp_defs`. It is written from first to last into one growing list of bytes.
#![tactic(auto)]

mod bounds;
mod kinds;
mod objective;
mod printing;
mod rows;
mod words;

pub use printing::print;
