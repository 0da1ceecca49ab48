//! Tests of `branch_tree`. They stand here, since a crate with tests of its own is proved twice.
#![tactic(auto)]

#[cfg(test)]
mod models;
#[cfg(test)]
mod paths;
#[cfg(test)]
mod runs;
#[cfg(test)]
mod turns;
