//! Tests of `journal`: stops and failures at each of its calls, what a mounting makes of a file, and the file's bytes. They stand
//! here, since a crate with tests of its own is proved twice.
#![tactic(auto)]

#[cfg(test)]
mod calls;
#[cfg(test)]
mod files;
#[cfg(test)]
mod tools;
