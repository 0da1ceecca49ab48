//! The parameters of a solve and of a batch.

/// How long a solve may go on, and how a batch runs and is told.
#[derive(Clone, Copy, Debug, PartialEq, Eq)]
pub struct Params {
    /// The most pivots.
    pub iterations: u64,
    /// The most nodes.
    pub nodes: u64,
    /// The most work.
    pub work: u64,
    /// The priority of a batch's job, from -100 to 100.
    pub priority: i8,
    /// How much the solution's text of a batch tells: 0 or 1.
    pub detail: u8,
}

impl Params {
    ghost use Rattle.std.specs.Prelude.{◌≡◌};
    ghost use Rattle.model_data.specs.Params.{IsInRange, usual_params};

    /// What holds where nothing else is set.
    pub fn usual() -> Params
        ensures value { result ≡ usual_params }
        ensures in_range { IsInRange result }
    {
        Params {
            iterations: 100_000,
            nodes: 10_000,
            work: 1_000_000_000_000,
            priority: 0,
            detail: 0,
        }
    }
}
