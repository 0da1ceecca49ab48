//! Which values a variable allows, by its kind.
ghost use Rattle.std.specs.Prelude.{◌≡◌};
ghost use Rattle.model_data.specs.Size.{is_integer};
ghost use Rattle.solve_defs.specs.Bounds.{Bounds as BoundsDef};
ghost use Rattle.solve_defs.specs.Certificates.{is_in_range, is_whole_if_asked};
ghost use Rattle.solve_defs.specs.Kinds.{are_continuous, domain_of, is_continuous};

use crate::bounds::Bounds;
use crate::values::is_whole;
use frac128::Frac;
use model_data::{Var, VarKind};

/// Whether the value is in a range that a variable of this kind allows, which has these bounds.
pub(crate) fn is_in_range(kind: VarKind, bounds: &Bounds, x: &Frac) -> bool
    ensures { result ≡ is_in_range (domain_of kind bounds.now) x.now }
{
    match kind {
        VarKind::Continuous => bounds.has(x),
        VarKind::Integer => bounds.has(x),
        VarKind::Binary => bounds.has(x),
    }
}

/// Whether the value is whole where a variable of this kind asks for that.
pub(crate) fn is_whole_if_asked(kind: VarKind, x: &Frac) -> bool
    ensures { (bounds : BoundsDef) → result ≡ is_whole_if_asked (domain_of kind bounds) x.now }
{
    match kind {
        VarKind::Continuous => true,
        VarKind::Integer => is_whole(x),
        VarKind::Binary => is_whole(x),
    }
}

/// Whether each variable is continuous.
pub(crate) fn are_continuous(vars: &[Var]) -> bool
    ensures { result ≡ are_continuous vars.now }
{
    vars.iter().all(|var| is_continuous(var.kind))
}

fn is_continuous(kind: VarKind) -> bool
    ensures { result ≡ is_continuous kind }
{
    match kind {
        VarKind::Continuous => true,
        VarKind::Integer | VarKind::Binary => false,
    }
}

/// Whether a variable of this kind may be split.
pub(crate) fn is_integer(kind: VarKind) -> bool
    ensures { result ≡ is_integer kind }
{
    match kind {
        VarKind::Continuous => false,
        VarKind::Integer | VarKind::Binary => true,
    }
}
