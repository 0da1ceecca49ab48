//! What the program does today, of all that words may ask for.

ghost use Rattle.std.specs.Prelude.{◌≡◌};
ghost use Rattle.command_words.specs.Asked.{shown};
ghost use Rattle.cs_top.specs.Task.{task_of};

use base_names::{Owner, Role};
use command_words::Words;
use model_data::Params;

/// What the program is to do.
#[derive(Clone, Copy, Debug, PartialEq, Eq)]
pub enum Task {
    /// Hold a session of this owner, on the disk.
    Session(Owner, Role),
    /// Solve the model of a text.
    Solve(Params),
    /// Tell the limits that a solve of the model of a text doesn't meet.
    Limits,
    /// Tell whether the certificate of a text is valid.
    Verify,
    /// Run a script of many sessions over a disk of its own.
    Replay,
}

/// What these words have the program do, if it can.
pub fn task_of(words: &Words) -> Option<Task>
    ensures { result ≡ task_of (shown words.now) }
{
    match words {
        Words::Session(owner, role, _) => Some(Task::Session(*owner, *role)),
        Words::Solve(params) => Some(Task::Solve(*params)),
        Words::Limits => Some(Task::Limits),
        Words::Verify => Some(Task::Verify),
        Words::Replay => Some(Task::Replay),
        Words::Work(_) | Words::Load(_) | Words::Serve(_) => None,
    }
}
