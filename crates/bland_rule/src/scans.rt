//! Columns and rows as the rule looks at them, and the better of two.
ghost use Rattle.std.specs.Prelude.{◌≡◌, ◌<◌, ◌≤◌, length};
ghost use Rattle.dictionary.specs.Dictionary.{entry, is_negative};
ghost use Rattle.dictionary.specs.Rule.{is_positive, leaves_before, maximized_row, side_before};
ghost use Rattle.bland_rule.specs.Scans.{column_at, kept_best, row_ahead, smaller_variable};

use dictionary::Tableau;
use frac128::Frac;
use std::cmp::Ordering;
use std::marker::Model;

/// A column by number, with its variable and its coefficient in the row that is maximized.
#[derive(Clone, Copy, Debug)]
pub(crate) struct Column {
    pub(crate) column: u32,
    pub(crate) variable: u32,
    pub(crate) coefficient: Frac,
}

impl Model for Column {
    ghost use Rattle.dictionary.specs.Rule.{Column};

    ghost Value = { Column };

    ghost view = { λ x. record { column = x.column; variable = x.variable; coefficient = x.coefficient } };

    ghost inverse = { λ v. record { column = v.column; variable = v.variable; coefficient = v.coefficient } };
}

/// A row by number, with its basic variable, its constant and its entry in a column.
#[derive(Clone, Copy, Debug)]
pub(crate) struct RowAhead {
    pub(crate) row: u32,
    pub(crate) variable: u32,
    pub(crate) constant: Frac,
    pub(crate) entry: Frac,
}

impl Model for RowAhead {
    ghost use Rattle.dictionary.specs.Rule.{RowAhead};

    ghost Value = { RowAhead };

    ghost view = { λ x. record { row = x.row; variable = x.variable; constant = x.constant; entry = x.entry } };

    ghost inverse = { λ v. record { row = v.row; variable = v.variable; constant = v.constant; entry = v.entry } };
}

/// How far a row lets the variable of a column rise.
#[derive(Clone, Copy, Debug)]
pub(crate) struct Ratio {
    pub(crate) row: u32,
    pub(crate) variable: u32,
    pub(crate) value: Frac,
}

impl Model for Ratio {
    ghost use Rattle.dictionary.specs.Rule.{Ratio};

    ghost Value = { Ratio };

    ghost view = { λ x. record { row = x.row; variable = x.variable; value = x.value } };

    ghost inverse = { λ v. record { row = v.row; variable = v.variable; value = v.value } };
}

pub(crate) fn is_positive(x: &Frac) -> bool
    ensures { result ≡ is_positive x.now }
{
    x.num() > 0
}

pub(crate) fn is_negative(x: &Frac) -> bool
    ensures { result ≡ is_negative x.now }
{
    x.num() < 0
}

/// The column of the smaller variable.
pub(crate) fn smaller(best: Option<Column>, next: Column) -> Column
    ensures { result ≡ kept_best smaller_variable best next }
{
    match best {
        Some(best) if best.variable <= next.variable => best,
        _ => next,
    }
}

/// The row with the smaller constant.
pub(crate) fn lower(best: Option<RowAhead>, next: RowAhead) -> RowAhead
    ensures { result ≡ kept_best side_before best next }
{
    match best {
        Some(best) if next.constant.cmp(&best.constant) != Ordering::Less => best,
        _ => next,
    }
}

/// The ratio that leaves before the other.
pub(crate) fn nearer(best: Option<Ratio>, next: Ratio) -> Ratio
    ensures { result ≡ kept_best leaves_before best next }
{
    match best {
        None => next,
        Some(best) => match next.value.cmp(&best.value) {
            Ordering::Less => next,
            Ordering::Equal if next.variable < best.variable => next,
            _ => best,
        },
    }
}

/// The column of a tableau, with its coefficient in the row that is maximized.
pub(crate) fn column_at<T: Tableau>(t: &T, column: u32) -> Column
    requires above { 0 < column }
    requires within { column ≤ length (T.meaning t.now).nonbasic }
    ensures { result ≡ column_at (T.meaning t.now) column }
{
    Column {
        column,
        variable: t.nonbasic(column),
        coefficient: maximized(t, column),
    }
}

/// The entry of the row that is maximized.
fn maximized<T: Tableau>(t: &T, column: u32) -> Frac
    requires { column ≤ length (T.meaning t.now).nonbasic }
    ensures { result ≡ entry (maximized_row (T.meaning t.now)) column }
{
    if t.in_phase_one() {
        t.entry(t.rows() + 2, column)
    } else {
        t.entry(t.rows() + 1, column)
    }
}

/// The row of a tableau, with its entry in this column.
pub(crate) fn row_ahead<T: Tableau>(t: &T, column: u32, row: u32) -> RowAhead
    requires column { column ≤ length (T.meaning t.now).nonbasic }
    requires above { 0 < row }
    requires within { row ≤ length (T.meaning t.now).basic }
    ensures { result ≡ row_ahead (T.meaning t.now) column row }
{
    RowAhead {
        row,
        variable: t.basic(row),
        constant: t.entry(row, 0),
        entry: t.entry(row, column),
    }
}
