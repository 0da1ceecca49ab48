//! Numbers as texts.
//!
//! [`read`] gives the value of a number text, exactly: a decimal number with an optional exponent, or a fraction.
//! [`write`] gives the one canonical text of a value, `p` or `p/q`. [`write_onto`] and [`write_size_onto`] add such a text
//! to bytes at hand.
//!
//! The grammar stands in `specs/Grammar`, what the parts of a text are worth in `specs/Number`, and `specs/Reading` has
//! the same as a function on bytes. [`laws`] ties these together.
#![tactic(auto)]

mod digits;
mod fault;
pub mod laws;
mod parts;
mod reading;
mod writing;

pub use fault::NumFault;
pub use reading::read;
pub use writing::{write, write_onto, write_size_onto};
