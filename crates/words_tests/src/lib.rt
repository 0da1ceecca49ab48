//! Tests of `command_words`. They stand here, since a crate with tests of its own is proved twice.
#![tactic(auto)]

#[cfg(test)]
mod lines;
