//! Why a form or a point isn't there.
ghost use Rattle.std.specs.Prelude.{◌≡◌};

use base_names::OrMemory;
use frac128::Wide;

/// Why a model has no standard form, or a point of it no values.
#[derive(Clone, Copy, Debug, PartialEq, Eq)]
pub enum StdFault {
    /// This operation doesn't fit.
    Wide(Wide),
}

impl From<StdFault> for OrMemory<StdFault> {
    ghost use Rattle.base_names.specs.declared.memory.OrMemory.TheVariants.{Fault};

    ghost from_gives = { λ fault answer. answer ≡ Fault fault };

    fn from(fault: StdFault) -> OrMemory<StdFault> {
        OrMemory::Fault(fault)
    }
}
