//! What a variable adds to the bounds of its model.
ghost use Rattle.std.specs.Prelude.{◌≡◌, ◌≤◌, ◌<◌, ◌^◌, IfSome, unsigned_abs};
ghost use Rattle.model_data.specs.Size.{is_integer};
ghost use Rattle.search_laws.specs.Counts.{ceil_of, range_between};
ghost use Rattle.solve_defs.specs.Bounds.{own_bounds};
ghost use Rattle.solve_defs.specs.StandardForm.{shape_between, spans_of, width};
ghost use Rattle.solve_defs.specs.Values.{floor_of};
ghost use Rattle.enough_limits.specs.Bounds.{closed_range};

use frac128::Frac;
use model_data::{Var, VarKind};

/// How many whole numbers may lie between the variable's bounds, where it takes these alone, and else 1. None where it lacks a bound.
pub(crate) fn range(var: &Var) -> Option<u128>
    ensures { result ≡ closed_range var.now }
{
    if !is_integer(var.kind) {
        return Some(1);
    }
    match (lower(var), upper(var)) {
        (Some(lower), Some(upper)) => Some(range_between(&lower, &upper)),
        _ => None,
    }
}

fn is_integer(kind: VarKind) -> bool
    ensures { result ≡ is_integer kind }
{
    match kind {
        VarKind::Continuous => false,
        VarKind::Integer | VarKind::Binary => true,
    }
}

/// The lower bound, with 0 for a binary variable.
fn lower(var: &Var) -> Option<Frac>
    ensures { result ≡ (own_bounds var.now).lower }
{
    match (var.kind, var.lower) {
        (VarKind::Binary, Some(lower)) if !Frac::zero().cmp(&lower).is_le() => Some(Frac::zero()),
        (VarKind::Binary, None) => Some(Frac::zero()),
        (_, lower) => lower,
    }
}

/// The upper bound, with 1 for a binary variable.
fn upper(var: &Var) -> Option<Frac>
    ensures { result ≡ (own_bounds var.now).upper }
{
    match (var.kind, var.upper) {
        (VarKind::Binary, Some(upper)) if upper.cmp(&Frac::one()).is_le() => Some(upper),
        (VarKind::Binary, _) => Some(Frac::one()),
        (_, upper) => upper,
    }
}

/// From the whole number at or below the lower bound to the one at or above the upper bound, or 1 where there is none.
fn range_between(lower: &Frac, upper: &Frac) -> u128
    ensures { result ≡ range_between (Some lower.now) (Some upper.now) }
{
    let first = floor(lower);
    let last = ceil(upper);
    if last <= first {
        1
    } else {
        last.abs_diff(first) + 1
    }
}

fn floor(value: &Frac) -> i128
    ensures value { result ≡ floor_of value.now }
    ensures small { unsigned_abs result < 2 ^ 127 }
{
    value.num().div_euclid(value.den())
}

fn ceil(value: &Frac) -> i128
    ensures value { result ≡ ceil_of value.now }
    ensures small { unsigned_abs result < 2 ^ 127 }
{
    -floor(&value.neg())
}

/// The columns of the variable in standard form: two where it has no bound.
pub(crate) fn columns(var: &Var) -> u32
    ensures value { result ≡ width (shape_between (own_bounds var.now).lower (own_bounds var.now).upper) }
    ensures most { result ≤ 2 }
{
    match (lower(var), upper(var)) {
        (None, None) => 2,
        _ => 1,
    }
}

/// The rows of the variable in standard form: one where it has both bounds.
pub(crate) fn rows(var: &Var) -> u32
    ensures value { result ≡ spans_of (shape_between (own_bounds var.now).lower (own_bounds var.now).upper) }
    ensures most { result ≤ 1 }
{
    match (lower(var), upper(var)) {
        (Some(_), Some(_)) => 1,
        _ => 0,
    }
}
