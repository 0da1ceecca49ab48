//! The top call: the words of a command line, a source, sinks and a disk in, a status out.
//!
//! [`run`] does all that the program does, and its contract says what stands on the sinks afterwards. What a session
//! writes for its input is said in `session`; `specs/OnDisk.antt` says what the desk over a file replies, `specs/Task.antt` what words have
//! the program do, and `specs/Run.antt` what the top call leaves behind by its status.
#![tactic(auto)]

mod status;
mod task;
mod top_call;

pub use command_words::{Words, WordsFault, read_words};
pub use top_call::run;
