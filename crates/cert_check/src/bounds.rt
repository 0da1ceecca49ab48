//! Between which values variables stand.
ghost use Rattle.std.specs.Prelude.{◌≡◌, IfOk, map};
ghost use Rattle.solve_defs.specs.Bounds.{both, greater_bound, kind_bounds, lesser_bound, own_bounds};
ghost use Rattle.solve_defs.specs.Certificates.{is_above, is_under, is_within, stays_within};

use crate::values::{is_at_most, is_negative_or_zero, is_positive_or_zero};
use base_names::NoMemory;
use frac128::Frac;
use model_data::{Var, VarKind};
use std::alloc::Global;
use std::marker::Model;

/// Between which values a variable stands. A side of `None` is not limited.
#[derive(Clone, Copy, Debug)]
pub(crate) struct Bounds {
    lower: Option<Frac>,
    upper: Option<Frac>,
}

impl Model for Bounds {
    ghost use Rattle.solve_defs.specs.Bounds.{Bounds};

    ghost Value = { Bounds };

    ghost view = { λ b. record { lower = b.lower; upper = b.upper } };

    ghost inverse = { λ v. record { lower = v.lower; upper = v.upper } };
}

impl Bounds {
    pub(crate) fn of(lower: Option<Frac>, upper: Option<Frac>) -> Bounds
        ensures { result ≡ record { lower = lower; upper = upper } }
    {
        Bounds { lower, upper }
    }

    pub(crate) fn lower(&self) -> Option<Frac>
        ensures { result ≡ self.now.lower }
    {
        self.lower
    }

    pub(crate) fn upper(&self) -> Option<Frac>
        ensures { result ≡ self.now.upper }
    {
        self.upper
    }

    fn of_kind(kind: VarKind) -> Bounds
        ensures { result ≡ kind_bounds kind }
    {
        match kind {
            VarKind::Continuous | VarKind::Integer => Bounds::of(None, None),
            VarKind::Binary => Bounds::of(Some(Frac::zero()), Some(Frac::one())),
        }
    }

    /// The variable's own bounds, with those that its kind adds.
    pub(crate) fn of_var(var: &Var) -> Bounds
        ensures { result ≡ own_bounds var.now }
    {
        Bounds::of(var.lower, var.upper).both(&Bounds::of_kind(var.kind))
    }

    /// On each side the tighter bound.
    pub(crate) fn both(&self, other: &Bounds) -> Bounds
        ensures { result ≡ both self.now other.now }
    {
        Bounds {
            lower: greater_bound(self.lower, other.lower),
            upper: lesser_bound(self.upper, other.upper),
        }
    }

    /// Whether the value is within the bounds.
    pub(crate) fn has(&self, x: &Frac) -> bool
        ensures { result ≡ is_within self.now x.now }
    {
        is_above(&self.lower, x) && is_under(&self.upper, x)
    }

    /// Whether no finite bound is left along this direction.
    pub(crate) fn are_kept_along(&self, x: &Frac) -> bool
        ensures { result ≡ stays_within self.now x.now }
    {
        (self.lower.is_none() || is_positive_or_zero(x))
            && (self.upper.is_none() || is_negative_or_zero(x))
    }
}

fn is_above(lower: &Option<Frac>, x: &Frac) -> bool
    ensures { result ≡ is_above lower.now x.now }
{
    match lower {
        Some(lower) => is_at_most(lower, x),
        None => true,
    }
}

fn is_under(upper: &Option<Frac>, x: &Frac) -> bool
    ensures { result ≡ is_under upper.now x.now }
{
    match upper {
        Some(upper) => is_at_most(x, upper),
        None => true,
    }
}

fn greater_bound(x: Option<Frac>, y: Option<Frac>) -> Option<Frac>
    ensures { result ≡ greater_bound x y }
{
    match (x, y) {
        (Some(x), Some(y)) => Some(if is_at_most(&y, &x) { x } else { y }),
        (Some(x), None) => Some(x),
        (None, y) => y,
    }
}

fn lesser_bound(x: Option<Frac>, y: Option<Frac>) -> Option<Frac>
    ensures { result ≡ lesser_bound x y }
{
    match (x, y) {
        (Some(x), Some(y)) => Some(if is_at_most(&x, &y) { x } else { y }),
        (Some(x), None) => Some(x),
        (None, y) => y,
    }
}

/// The bounds of each variable where no cut holds.
pub(crate) fn own_bounds(alloc: Global, vars: &[Var]) -> Result<Vec<Bounds>, NoMemory>
    ensures { IfOk result (λ bounds. bounds.items ≡ map own_bounds vars.now) }
{
    Ok(vars.iter().map(|var| Bounds::of_var(var)).collect(alloc)?)
}
