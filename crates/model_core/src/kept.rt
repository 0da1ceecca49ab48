//! What holds of the numbers of each change in memory.
ghost use Rattle.std.specs.Prelude.{All, IfSome};
ghost use Rattle.frac128.specs.Lowest.{IsKept};
ghost use Rattle.model_data.specs.Kept.{IsKeptVar};
ghost use Rattle.model_core.specs.Asked.{HasKeptNumbersOf};

use crate::change::{Change, NamedTerm};
use frac128::Frac;
use model_data::Var;

/// Does nothing, and tells a proof that the numbers of the change are in lowest terms and fit. It goes over them once.
pub(crate) fn kept_change(change: &Change)
    ensures { HasKeptNumbersOf change.now }
{
    match change {
        Change::AddVar(var) => kept_var(var),
        Change::AddConstr(_, _, rhs, terms) => {
            rhs.kept();
            kept_terms(terms.as_slice());
        }
        Change::ChgCoeff(_, _, coef) => coef.kept(),
        Change::SetLb(_, bound) | Change::SetUb(_, bound) => kept_bound(bound),
        Change::SetObj(_, coef) => coef.kept(),
        Change::SetRhs(_, rhs) => rhs.kept(),
        Change::SetSense(..)
        | Change::SetKind(..)
        | Change::SetTag(..)
        | Change::DelVar(_)
        | Change::DelConstr(_) => {}
    }
}

fn kept_var(var: &Var)
    ensures { IsKeptVar var.now }
{
    kept_bound(&var.lower);
    kept_bound(&var.upper);
    var.obj.kept();
}

fn kept_bound(bound: &Option<Frac>)
    ensures { IfSome bound.now IsKept }
{
    if let Some(value) = bound {
        value.kept();
    }
}

fn kept_terms(terms: &[NamedTerm])
    ensures { All (λ t. IsKept t.coef) terms.now }
{
    for term in terms {
        term.coef.kept();
    }
}
