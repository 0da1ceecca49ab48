//! The words between a session and the hub.
//!
//! [`Desk`] is the hub as a session has it before it: whatever stands behind it, a list in memory or a hub under a lock,
//! answers an [`Ask`] by a [`Reply`]. `cluster_defs` has these types, and in `specs/Asking.antt` the rules that its
//! answers keep.
#![tactic(auto)]

mod desk;

pub use cluster_defs::{Ask, Entry, Reply};
pub use desk::Desk;
pub use model_data::BatchBody;

#[cfg(test)]
mod tests;
