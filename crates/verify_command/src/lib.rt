//! `verify`: a model and a certificate's text in, a verdict out.
//!
//! [`verify`] reads a whole input: a line `MODEL k`, a block of k bytes that spells a model, and the text of an outcome with its
//! certificate. It writes whether that shows the outcome right, or tells the first place that fails. What stands in an input is
//! said in `specs/Input.antt`, what is found in one in `specs/Findings.antt`, its text in `specs/Texts.antt`, and what `verify`
//! did to its source and its sink by its end in `specs/Verify.antt`. The look itself is `cert_check`'s, and nothing here knows how
//! an outcome is found.
#![tactic(auto)]

mod command;
mod finding;
pub mod laws;
mod parts;
mod telling;

pub use command::{VERIFY_LIMIT, VerifyEnd, verify};
pub use finding::Finding;
