//! Whether a model is lawful whose names, tags and numbers are.
ghost use Rattle.std.specs.Prelude.{◌≡◌, IfOk, Some};
ghost use Rattle.std.specs.List.{list_all};
ghost use Rattle.rec_format.specs.Orderly as defs;

use crate::distinct::has_distinct_names;
use base_names::NoMemory;
use frac128::Frac;
use model_data::{BOUND_SIZE, BatchRecord, MAX_ROWS, MAX_TERMS, MAX_VARS, Model, Row, Term, Var};
use std::alloc::Global;

/// Whether the record has no model, or one that is in order.
pub(crate) fn is_orderly_record(alloc: Global, r: &BatchRecord) -> Result<bool, NoMemory>
    ensures { IfOk result (λ yes. yes ≡ defs.is_orderly_record r.now) }
{
    match r {
        BatchRecord::Create(_, _, body) => is_orderly(alloc, &body.model),
        _ => Ok(true),
    }
}

fn is_orderly(alloc: Global, model: &Model) -> Result<bool, NoMemory>
    ensures { IfOk result (λ yes. yes ≡ defs.is_orderly model.now) }
{
    if !has_orderly_parts(model) {
        return Ok(false);
    }
    has_distinct_names(alloc, model)
}

fn has_orderly_parts(model: &Model) -> bool
    ensures { result ≡ defs.has_orderly_parts model.now }
{
    is_in_limits(model)
        && (have_near_bounds(model.vars.as_slice())
            && are_orderly_rows(model.rows.as_slice(), model.vars.len()))
}

fn is_in_limits(model: &Model) -> bool
    ensures { result ≡ defs.is_in_limits model.now }
{
    (model.vars.len() <= MAX_VARS && model.rows.len() <= MAX_ROWS)
        && are_terms_within(model.rows.as_slice(), MAX_TERMS)
}

/// Whether the rows have together at most so many terms.
fn are_terms_within(rows: &[Row], most: usize) -> bool
    ensures { result ≡ defs.are_terms_within most rows.now }
{
    let mut left = most;
    for row in rows {
        let terms = row.terms.len();
        if terms > left {
            return false;
        }
        left -= terms;
    }
    true
}

fn have_near_bounds(vars: &[Var]) -> bool
    ensures { result ≡ list_all defs.has_near_bounds vars.now }
{
    vars.iter().all(|var| has_near_bounds(var))
}

fn has_near_bounds(var: &Var) -> bool
    ensures { result ≡ defs.has_near_bounds var.now }
{
    is_near(&var.lower) && is_near(&var.upper)
}

/// Whether the bound is infinite, or below 10^20 in size.
fn is_near(bound: &Option<Frac>) -> bool
    ensures { result ≡ defs.is_near bound.now }
{
    match bound {
        Some(value) => is_below_bound_size(value),
        None => true,
    }
}

fn is_below_bound_size(value: &Frac) -> bool
    ensures { result ≡ defs.is_near (Some value.now) }
{
    match BOUND_SIZE.checked_mul(value.den().unsigned_abs()) {
        Some(bound) => value.num().unsigned_abs() < bound,
        None => true,
    }
}

fn are_orderly_rows(rows: &[Row], vars: usize) -> bool
    ensures { result ≡ list_all (λ r. defs.are_rising 0 vars r.terms) rows.now }
{
    rows.iter()
        .all(|row| are_rising(row.terms.as_slice(), vars))
}

/// Whether the terms rise by variable, have variables of so many, and no coefficient of 0.
fn are_rising(terms: &[Term], vars: usize) -> bool
    ensures { result ≡ defs.are_rising 0 vars terms.now }
{
    let mut least = 0;
    for term in terms {
        if !is_next(term, least, vars) {
            return false;
        }
        least = term.var as usize + 1;
    }
    true
}

/// Whether the term's variable is this one or a later one, of so many, and its coefficient isn't 0.
fn is_next(term: &Term, least: usize, vars: usize) -> bool
    ensures { result ≡ defs.is_next least vars term.now }
{
    let place = term.var as usize;
    (least <= place && place < vars) && !is_zero(&term.coef)
}

fn is_zero(value: &Frac) -> bool
    ensures { result ≡ defs.is_zero value.now }
{
    value.num().unsigned_abs() == 0
}
