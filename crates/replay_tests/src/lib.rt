//! Tests of `replay_command`: whole scripts over memory. They stand here, since a crate with tests of its own is proved twice.
#![tactic(auto)]

#[cfg(test)]
mod refusals;
#[cfg(test)]
mod running;
#[cfg(test)]
mod stops;
