//! A journal over a disk in memory: what each of its calls makes of the disk is a function of what stands on it and of what is armed
//! there, as long as no growth is refused.
//!
//! `specs/Running.antt` runs the plan of a call, `specs/Adding.antt` adds a body. That this is what a journal's calls do is a law.
#![tactic(auto)]

mod laws;

pub use laws::{a_run_in_memory_is_determined, an_append_in_memory_is_determined};
