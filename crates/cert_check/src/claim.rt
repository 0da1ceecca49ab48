//! What a leaf claims of its points.
ghost use Rattle.std.specs.Prelude.{◌≡◌};
ghost use Rattle.cert_check.specs.Leaves.{claim_by, coef_by};

use crate::values::{is_at_most, is_below, turned};
use frac128::Frac;
use model_data::{Model, Var};

#[derive(Clone, Copy, Debug)]
pub(crate) enum Claim {
    /// None is better than this value.
    NoneBetter(Frac),
    /// There is none.
    NoPoint,
}

impl Claim {
    /// What the coefficient of a variable has to be.
    pub(crate) fn coef(&self, m: &Model, var: &Var) -> Frac
        ensures { result ≡ coef_by m.now self.now var.now }
    {
        match self {
            Claim::NoneBetter(_) => turned(m.direction, &var.obj),
            Claim::NoPoint => Frac::zero(),
        }
    }

    /// What the side begins with.
    pub(crate) fn constant(&self, m: &Model) -> Frac
        ensures { result ≡ (claim_by m.now self.now).constant }
    {
        match self {
            Claim::NoneBetter(_) => turned(m.direction, &m.constant),
            Claim::NoPoint => Frac::zero(),
        }
    }

    /// Whether the side is low enough.
    pub(crate) fn is_shown_by(&self, m: &Model, side: &Frac) -> bool
        ensures { result ≡ (claim_by m.now self.now).holds side.now }
    {
        match self {
            Claim::NoneBetter(value) => is_at_most(side, &turned(m.direction, value)),
            Claim::NoPoint => is_below(side, &Frac::zero()),
        }
    }
}
