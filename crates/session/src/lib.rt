//! A session: one client's commands and their answers, over a desk that answers for the hub.
//!
//! [`talk`] is a whole session over a source and a sink, [`Session`] one line at a time. `specs/Transcript.antt` has what a
//! session writes for its input: a fold over the frames of `base_io` and over what each line hears, which is what the
//! desk replies, and that there is no memory (`specs/Hearing.antt`). `specs/Session.antt` says what each command does.
//! [`next_frame`], `specs/Dialogue.antt` and `specs/Writing.antt` know nothing of commands, and serve every program that
//! answers its input line by line.
#![tactic(auto)]

mod answering;
mod asking;
mod changing;
mod frame;
mod looking;
mod session;
mod state;
mod step;
mod talking;

pub use frame::{Blocks, NextFrame, next_frame};
pub use session::{Session, wants};
pub use step::Next;
pub use talking::{End, talk};
