//! What a turn of a search tells.
ghost use Rattle.std.specs.Prelude.{◌≡◌, None, Some};
ghost use Rattle.solve_defs.specs.Plain.{no_events};

use crate::done::Done;
use solve_defs::Events;

/// What a turn tells, and how the search ends where it does.
#[derive(Debug, Drop)]
pub(crate) struct Step {
    pub(crate) events: Events,
    pub(crate) done: Option<Done>,
}

impl Step {
    /// A pivot.
    pub(crate) fn pivot(simplex: Option<u64>) -> Step
        ensures { result ≡ record { events = record no_events { simplex = simplex }; done = None } }
    {
        Step {
            events: Events {
                simplex,
                sol: None,
                node: None,
            },
            done: None,
        }
    }

    /// An end of which nothing is told.
    pub(crate) fn silent(done: Done) -> Step
        ensures { result ≡ record { events = no_events; done = Some done } }
    {
        Step {
            events: Events {
                simplex: None,
                sol: None,
                node: None,
            },
            done: Some(done),
        }
    }
}
