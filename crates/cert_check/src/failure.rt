//! Why a certificate isn't valid.
ghost use Rattle.std.specs.Prelude.{◌≡◌, Err};
ghost use Rattle.cert_check.specs.Found.{tested, verdict_by};

use base_names::OrMemory;
use frac128::Wide;
use solve_defs::{Place, Verdict};

/// The first look that doesn't hold, or the first operation that doesn't fit.
#[derive(Clone, Copy, Debug)]
pub(crate) enum Failure {
    Invalid(Place),
    TooWide(Wide),
}

impl Failure {
    pub(crate) fn verdict(&self) -> Verdict
        ensures { result ≡ verdict_by {A = Unit} (Err self.now) }
    {
        match self {
            Failure::Invalid(place) => Verdict::Invalid(*place),
            Failure::TooWide(wide) => Verdict::TooWide(*wide),
        }
    }
}

impl From<Wide> for Failure {
    ghost use Rattle.cert_check.specs.declared.failure.Failure.TheVariants.{TooWide};

    ghost from_gives = { λ wide failure. failure ≡ TooWide wide };

    fn from(wide: Wide) -> Failure {
        Failure::TooWide(wide)
    }
}

impl From<Failure> for OrMemory<Failure> {
    ghost use Rattle.base_names.specs.declared.memory.OrMemory.TheVariants.{Fault};

    ghost from_gives = { λ failure answer. answer ≡ Fault failure };

    fn from(failure: Failure) -> OrMemory<Failure> {
        OrMemory::Fault(failure)
    }
}

/// A look at this place, whose operations fit.
pub(crate) fn look(place: Place, holds: bool) -> Result<(), Failure>
    ensures { verdict_by result ≡ tested holds place }
{
    if holds {
        Ok(())
    } else {
        Err(Failure::Invalid(place))
    }
}
