//! What is solved is verified, as a contract without code.
//!
//! `solver_laws` says that a solve's certificate is valid, `cert_text` that the text of one is read again, and `verify_command` what
//! `verify` finds in an input. Here they are joined ([`what_is_solved_is_verified`]): of a model's text with the text that a solve of
//! it writes, `verify` says that it is valid, or that its check has an operation that doesn't fit, and nothing else. The words of
//! the law stand in `specs/Joined.antt`.
#![tactic(auto)]

mod joined;

pub use joined::what_is_solved_is_verified;
