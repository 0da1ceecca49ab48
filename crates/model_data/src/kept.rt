//! What holds of the numbers of each model in memory.
ghost use Rattle.std.specs.Prelude.{All, IfSome};
ghost use Rattle.frac128.specs.Lowest.{IsKept};
ghost use Rattle.model_data.specs.Kept.{HasKeptNumbers, IsKeptRow, IsKeptVar};

use crate::model::{Model, Row, Term, Var};
use frac128::Frac;

/// Does nothing, and tells a proof that the numbers of the model are in lowest terms and fit. It goes over them once.
pub fn kept_numbers(model: &Model)
    ensures { HasKeptNumbers model.now }
{
    model.constant.kept();
    kept_vars(model.vars.as_slice());
    kept_rows(model.rows.as_slice());
}

fn kept_vars(vars: &[Var])
    ensures { All IsKeptVar vars.now }
{
    for var in vars {
        kept_var(var);
    }
}

fn kept_var(var: &Var)
    ensures { IsKeptVar var.now }
{
    kept_bound(&var.lower);
    kept_bound(&var.upper);
    var.obj.kept();
}

fn kept_bound(bound: &Option<Frac>)
    ensures { IfSome bound.now IsKept }
{
    if let Some(value) = bound {
        value.kept();
    }
}

fn kept_rows(rows: &[Row])
    ensures { All IsKeptRow rows.now }
{
    for row in rows {
        kept_row(row);
    }
}

fn kept_row(row: &Row)
    ensures { IsKeptRow row.now }
{
    row.rhs.kept();
    kept_terms(row.terms.as_slice());
}

fn kept_terms(terms: &[Term])
    ensures { All (λ t. IsKept t.coef) terms.now }
{
    for term in terms {
        term.coef.kept();
    }
}
