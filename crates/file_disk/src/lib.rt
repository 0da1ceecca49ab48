//! A disk that is a file of the operating system.
//!
//! [`FileDisk`] stands at the edge: what a real file holds, no contract can say. It tells its calls with their answers, and its
//! count of faults, which rises at each call that fails and at no other.
#![tactic(auto)]

mod disk;
mod file;

pub use disk::FileDisk;

#[cfg(test)]
mod tests;
