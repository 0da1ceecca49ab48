//! What comes next, by passes over columns and rows.
ghost use Rattle.std.specs.Prelude.{◌≡◌, ◌<◌, ◌≤◌, IfSome, length};
ghost use Rattle.std.specs.List.{list_any};
ghost use Rattle.dictionary.specs.Dictionary.{entry, is_negative};
ghost use Rattle.dictionary.specs.Rule.{entering_column, is_positive, least_row};
ghost use Rattle.solve_defs.specs.Path.{awaits_artificial, coming, entry_count, is_bounded};
ghost use Rattle.bland_rule.specs.Comes.{coming_of, work_of};
ghost use Rattle.bland_rule.specs.Scans.{best_with, column_at, leaving, nearest_with, smaller_variable};

use crate::entering::{Coming, Entering};
use crate::scans::{
    Column, Ratio, RowAhead, column_at, is_negative, is_positive, lower, nearer, row_ahead, smaller,
};
use dictionary::Tableau;
use frac128::Wide;
use solve_defs::LpEnd;

/// What comes next: a pivot with its entering variable, or an end.
#[tactic(auto, using(crate::proofs::Nexts::comes_first, crate::proofs::Nexts::comes_bounded, crate::proofs::Nexts::comes_unbounded, crate::proofs::Nexts::comes_pointless, crate::proofs::Nexts::comes_best))]
pub fn coming<T: Tableau>(t: &T) -> Coming
    ensures { coming_of result ≡ coming (T.meaning t.now) }
{
    if awaits_artificial(t) {
        return Coming::Pivot(Entering::Artificial);
    }
    match entering_column(t) {
        Some(column) => if is_bounded(t, column) {
            Coming::Pivot(Entering::ByRule(column))
        } else {
            Coming::End(LpEnd::Unbounded)
        },
        None => if t.in_phase_one() {
            Coming::End(LpEnd::NoPoint)
        } else {
            Coming::End(LpEnd::Best)
        },
    }
}

/// The column of the entering variable, which has the smallest index among those whose rise makes the maximized row greater.
pub fn entering_column<T: Tableau>(t: &T) -> Option<u32>
    ensures value { result ≡ entering_column (T.meaning t.now) }
    ensures within { IfSome result (λ c. (0 < c) × (c ≤ length (T.meaning t.now).nonbasic)) }
{
    let mut best = None;
    for place in 0..t.cols() {
        best = risen(t, best, place + 1);
    }
    match best {
        Some(column) => Some(column.column),
        None => None,
    }
}

/// The better of this column and the best so far.
fn risen<T: Tableau>(t: &T, best: Option<Column>, column: u32) -> Option<Column>
    requires above { 0 < column }
    requires within { column ≤ length (T.meaning t.now).nonbasic }
    ensures { result ≡ best_with (λ x. is_positive x.coefficient) smaller_variable best (column_at (T.meaning t.now) column) }
{
    let next = column_at(t, column);
    if is_positive(&next.coefficient) {
        Some(smaller(best, next))
    } else {
        best
    }
}

/// Whether some row's constant is below 0 in phase one.
pub fn awaits_artificial<T: Tableau>(t: &T) -> bool
    ensures { result ≡ awaits_artificial (T.meaning t.now) }
{
    t.in_phase_one() && has_negative_constant(t)
}

#[tactic(auto, using(crate::proofs::Passes::any_on, crate::proofs::Passes::any_found, crate::proofs::Passes::any_end))]
fn has_negative_constant<T: Tableau>(t: &T) -> bool
    ensures { result ≡ list_any (λ row. is_negative (entry row 0)) (T.meaning t.now).rows }
{
    for place in 0..t.rows() {
        if is_negative(&t.entry(place + 1, 0)) {
            return true;
        }
    }
    false
}

/// Whether some row bounds the rise of the column's variable.
#[tactic(auto, using(crate::proofs::Passes::any_on, crate::proofs::Passes::any_found, crate::proofs::Passes::any_end))]
fn is_bounded<T: Tableau>(t: &T, column: u32) -> bool
    requires { column ≤ length (T.meaning t.now).nonbasic }
    ensures { result ≡ is_bounded (T.meaning t.now) column }
{
    for place in 0..t.rows() {
        if is_positive(&t.entry(place + 1, column)) {
            return true;
        }
    }
    false
}

/// The row with the least constant, the first of these.
pub fn least_row<T: Tableau>(t: &T) -> Option<u32>
    ensures { result ≡ least_row (T.meaning t.now) }
{
    let mut best = None;
    for place in 0..t.rows() {
        best = Some(lower(best, row_ahead(t, 0, place + 1)));
    }
    match best {
        Some(row) => Some(row.row),
        None => None,
    }
}

/// The row of the leaving variable, where some row bounds the rise of the column's, or the first ratio that doesn't fit.
pub fn leaving_row<T: Tableau>(t: &T, column: u32) -> Result<Option<u32>, Wide>
    requires { column ≤ length (T.meaning t.now).nonbasic }
    ensures { result ≡ leaving (T.meaning t.now) column }
{
    let mut best = None;
    for place in 0..t.rows() {
        best = nearest(best, row_ahead(t, column, place + 1))?;
    }
    match best {
        Some(ratio) => Ok(Some(ratio.row)),
        None => Ok(None),
    }
}

/// The better of this row's ratio, where it bounds the rise, and the best so far.
fn nearest(best: Option<Ratio>, next: RowAhead) -> Result<Option<Ratio>, Wide>
    ensures { result ≡ nearest_with best next }
{
    if !is_positive(&next.entry) {
        return Ok(best);
    }
    let value = next.constant.checked_div(&next.entry)?;
    let ratio = Ratio {
        row: next.row,
        variable: next.variable,
        value,
    };
    Ok(Some(nearer(best, ratio)))
}

/// The work of the pivot that comes next, where one comes.
pub fn next_work<T: Tableau>(t: &T) -> Option<u64>
    ensures { result ≡ work_of (coming (T.meaning t.now)) (T.meaning t.now) }
{
    match coming(t) {
        Coming::Pivot(_) => Some(work(t)),
        Coming::End(_) => None,
    }
}

/// The work of a pivot: how many entries the dictionary has.
pub fn work<T: Tableau>(t: &T) -> u64
    ensures { result ≡ entry_count (T.meaning t.now) }
{
    let lines = if t.in_phase_one() {
        t.rows() + 2
    } else {
        t.rows() + 1
    };
    u64::from(lines) * (u64::from(t.cols()) + 1)
}
