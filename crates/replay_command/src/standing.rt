//! Where a script stands between two lines.

ghost use Rattle.std.specs.Prelude.{◌≡◌};
ghost use Rattle.replay_command.specs.Answering.{standing_of};
ghost use Rattle.replay_command.specs.Script.{lines_behind};

use replay_world::World;

/// Where a script stands.
#[derive(Drop)]
pub(crate) enum Standing {
    /// Before its first line.
    Fresh,
    /// So many lines behind it, in this world.
    Behind(u64, World),
}

/// What comes of a line.
#[derive(Drop)]
pub(crate) enum Answer {
    Next(Standing),
    /// The line of this number is refused.
    Refused(u64),
}

impl Standing {
    /// How many lines are behind it.
    pub(crate) fn lines(&self) -> u64
        ensures { result ≡ lines_behind (standing_of self.now) }
    {
        match self {
            Standing::Fresh => 0,
            Standing::Behind(lines, _) => *lines,
        }
    }
}
