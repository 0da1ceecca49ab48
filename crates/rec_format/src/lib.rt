//! Records of batches as bytes, and back.
//!
//! [`encode`] gives the bytes that spell a record, and [`decode`] the record that bytes spell, which is lawful; there is
//! none exactly where the bytes spell none. [`create_len`], [`finish_len`] and [`model_len`] count bytes without making
//! them.
//!
//! How values are spelled stands in `specs/`: a `Format` is a writer, a reader and the values that have a spelling, and
//! formats are composed as the values are. That each has one spelling is a law ([`laws`]). Which records are lawful stands
//! in `specs/Lawful.antt`.
#![tactic(auto)]

mod bodies;
mod codes;
mod composed;
mod distinct;
mod fractions;
mod ids;
pub mod laws;
mod lengths;
mod models;
mod numbers;
mod orderly;
mod parameters;
mod reader;
mod records;
mod results;
mod spelled;
mod texts;
mod typed;

pub use lengths::{create_len, finish_len, model_len};
pub use records::{decode, encode};
