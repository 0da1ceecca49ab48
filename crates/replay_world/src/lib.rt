//! The world of a script of many sessions over one disk, with failures, stops and openings.
//!
//! A [`World`] is a machine with its disk and the sessions on it. [`World::step`] does what one step of a script asks for, and puts
//! what that writes into a buffer. What a step does is defined in `specs/`: `Hubs` has a hub over a disk in memory, `World` what stands
//! between two steps, and `Steps` what each step does and writes, a function of the world and of what the step finds of memory.
//! `Views` says what a world in memory stands for, and `Stepping` what a step did to it.
#![tactic(auto)]

mod answering;
mod machine;
mod stepping;
mod taken;
mod telling;
mod world;

pub use taken::Taken;
pub use world::World;
