//! Tests of `base_names` and `base_io`. They stand here, since a crate with tests of its own is proved twice.
#![tactic(auto)]

#[cfg(test)]
mod lines;
#[cfg(test)]
mod names;
#[cfg(test)]
mod std_forms;
