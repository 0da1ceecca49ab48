//! `replay`: a script of many sessions over one disk, with failures, stops and openings.
//!
//! [`replay`] reads a script line by line, and writes what each step gives before it reads the next line. What a script writes is a
//! fold over its lines, in `specs/Script.antt`, of the steps that `replay_world` defines. `specs/Replayed.antt` says what was taken and
//! written by the end, and which line is refused; by a law ([`a_refused_line_is_counted`]) its number counts the script's lines.
#![tactic(auto)]

mod answering;
mod command;
mod frame;
mod laws;
mod standing;

pub use command::{ReplayEnd, replay};
pub use laws::a_refused_line_is_counted;
