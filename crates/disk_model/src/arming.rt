//! What is armed on a disk in memory, by the numbers of its calls.

ghost use Rattle.std.specs.Prelude.{◌≡◌};
ghost use Rattle.disk_model.specs.Memory.{begins, is_due, stop_in};

use crate::image::Image;

/// How a call begins.
#[derive(Clone, Copy, Debug, PartialEq, Eq)]
pub enum Begun {
    Runs,
    Fails,
    Stops,
}

/// A stop in the call of this number.
#[derive(Clone, Copy, Debug)]
pub struct Stop {
    pub at: u128,
    pub image: Image,
}

/// Whether a failure is armed for this call.
pub fn fails_in(fails: &[u128], call: u64) -> bool
    ensures { result ≡ is_due fails.now call }
{
    let call = u128::from(call);
    fails.iter().any(|at| *at == call)
}

/// The image of the stop that is armed for this call.
pub fn stop_due(stop: Option<Stop>, call: u64) -> Option<Image>
    ensures { result ≡ stop_in stop call }
{
    match stop {
        Some(stop) if stop.at == u128::from(call) => Some(stop.image),
        _ => None,
    }
}
