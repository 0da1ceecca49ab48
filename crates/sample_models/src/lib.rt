//! Models for tests, from tables of plain numbers and texts.
#![tactic(auto)]

use base_names::{Name, NoMemory, Seq};
use frac128::Frac;
use model_data::{Direction, Model, Row, Sense, Term, Var, VarKind};
use std::alloc::Global;
use std::test::Fail;

/// A fraction by its numerator and its denominator.
pub type Ratio = (i128, i128);

/// A variable without a tag: its name, its bounds, its coefficient in the objective and its kind.
pub type VarOf<'a> = (&'a str, Option<Ratio>, Option<Ratio>, Ratio, VarKind);

/// A row: its name, its terms, its sense and its right side.
pub type RowOf<'a> = (&'a str, &'a [(u32, Ratio)], Sense, Ratio);

/// The fraction. It fails where the denominator is 0 or the fraction doesn't fit.
pub fn frac((num, den): Ratio) -> Result<Frac, Fail> {
    Ok(Frac::make(num, den).ok_or("no fraction")?)
}

/// The model of these parts, which need not be lawful. It fails as [`frac`] does, and for want of memory.
pub fn model(
    alloc: Global,
    direction: Direction,
    constant: Ratio,
    vars: &[VarOf],
    rows: &[RowOf],
) -> Result<Model, Fail> {
    Ok(Model {
        direction,
        constant: frac(constant)?,
        vars: sample_vars(alloc, vars)?,
        rows: sample_rows(alloc, rows)?,
    })
}

/// The variables of a model.
pub fn sample_vars(alloc: Global, wanted: &[VarOf]) -> Result<Seq<Var>, Fail> {
    let mut vars = Vec::new(alloc);
    for (text, lower, upper, obj, kind) in wanted {
        vars.push(Var {
            name: name(alloc, text)?,
            lower: bound(*lower)?,
            upper: bound(*upper)?,
            obj: frac(*obj)?,
            kind: *kind,
            tag: None,
        })?;
    }
    Ok(Seq::of(vars))
}

/// The rows of a model.
pub fn sample_rows(alloc: Global, wanted: &[RowOf]) -> Result<Seq<Row>, Fail> {
    let mut rows = Vec::new(alloc);
    for (text, terms, sense, rhs) in wanted {
        rows.push(Row {
            name: name(alloc, text)?,
            sense: *sense,
            rhs: frac(*rhs)?,
            terms: sample_terms(alloc, terms)?,
        })?;
    }
    Ok(Seq::of(rows))
}

fn sample_terms(alloc: Global, wanted: &[(u32, Ratio)]) -> Result<Seq<Term>, Fail> {
    let mut terms = Vec::new(alloc);
    for (var, coef) in wanted {
        terms.push(Term {
            var: *var,
            coef: frac(*coef)?,
        })?;
    }
    Ok(Seq::of(terms))
}

/// The name, whatever the text.
pub fn name(alloc: Global, text: &str) -> Result<Name, NoMemory> {
    Ok(Name::of(text.as_bytes().to_vec(alloc)?))
}

fn bound(wanted: Option<Ratio>) -> Result<Option<Frac>, Fail> {
    match wanted {
        Some(ratio) => Ok(Some(frac(ratio)?)),
        None => Ok(None),
    }
}
