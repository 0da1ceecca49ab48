//! What a hub is set up with.

ghost use Rattle.std.specs.Prelude.{◌≡◌};

/// The limits of each owner, and that of the journal.
#[derive(Clone, Copy, Debug, PartialEq, Eq)]
pub struct Limits {
    /// The counted commands of an owner since mounting.
    pub commands: u32,
    /// The bytes of the models that an owner keeps.
    pub bytes: u64,
    /// The bytes of the journal, with what is kept free for outcomes.
    pub journal: u64,
}

/// The nodes at mounting, and the limits. Nodes aren't used yet.
#[derive(Clone, Copy, Debug, PartialEq, Eq)]
pub struct Setup {
    pub nodes: u32,
    /// A node's limit on jobs.
    pub limit: u32,
    /// That on jobs of the highest priority too, 0 for none.
    pub hard: u32,
    pub limits: Limits,
}

/// The disk's counts of faults before a call and behind it.
#[derive(Clone, Copy, Debug, PartialEq, Eq)]
pub struct Counts {
    pub before: u64,
    pub after: u64,
}

impl Limits {
    /// 65,536 commands, 8 MiB of models, a journal of 10^9 bytes.
    pub fn usual() -> Limits
        ensures { result ≡ record { commands = 65536; bytes = 8388608; journal = 1000000000 } }
    {
        Limits {
            commands: 65_536,
            bytes: 8_388_608,
            journal: 1_000_000_000,
        }
    }
}
