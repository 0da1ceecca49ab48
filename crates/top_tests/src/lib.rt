//! Tests of `cs_top`: whole runs over memory. They stand here, since a crate with tests of its own is proved twice.
#![tactic(auto)]

#[cfg(test)]
mod faults;
#[cfg(test)]
mod running;
#[cfg(test)]
mod scripts;
#[cfg(test)]
mod sessions;
#[cfg(test)]
mod solving;
#[cfg(test)]
mod verifying;
