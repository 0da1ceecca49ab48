//! The steps of a pivot on rows of entries.
//!
//! A row that could not be changed to its end holds anything, but as many entries as before.
ghost use Rattle.std.specs.Prelude.{◌≡◌, ◌≢◌, ◌-◌, ◌*◌, ◌+◌, ◌<◌, ◌≤◌, is_some, length, option_map, pos};
ghost use Rattle.std.specs.Option.{ForSome};
ghost use Rattle.frac128.specs.Checked.{checked_quotient, less_product, plus_product};
ghost use Rattle.dictionary.specs.Dictionary.{each, each_option, each_pair, eliminated_basic, eliminated_entries, eliminated_objective, entry, pivoted_rows, row_at, solved_row, with_value};
ghost use Rattle.dictionary.specs.Cells.{rows_of};

use frac128::{Frac, Wide};

/// Solves row `row`, from 1 on, for the variable of column `column`, and takes this variable out of the others. There are
/// `count` rows of `width` cells.
#[tactic(auto, unfolding(crate::specs::Dictionary::pivoted_rows))]
pub fn pivot_rows(
    cells: &mut [Frac],
    count: usize,
    width: usize,
    row: usize,
    column: usize,
) -> Result<(), Wide>
    requires cells { length cells.old ≡ count * width }
    requires row_above { 0 < row }
    requires row_within { row ≤ count }
    requires column_above { 0 < column }
    requires column_within { column < width }
    requires not_zero { (entry (row_at (rows_of width count cells.old) row) column).num ≢ pos 0 }
    ensures { with_value result (rows_of width count cells.new) ≡ pivoted_rows row column (rows_of width count cells.old) }
{
    let (above, rest) = cells.split_at_mut((row - 1) * width);
    let (solved, below) = rest.split_at_mut(width);
    solve_row(solved, column)?;
    eliminate_rows(above, row - 1, solved, column)?;
    eliminate_rows(below, count - row, solved, column)
}

/// Takes the variable of column `column` out of `count` rows, which are as wide as the solved one.
fn eliminate_rows(
    cells: &mut [Frac],
    count: usize,
    solved: &[Frac],
    column: usize,
) -> Result<(), Wide>
    requires cells { length cells.old ≡ count * length solved.now }
    requires above { 0 < column }
    requires within { column < length solved.now }
    ensures { with_value result (rows_of (length solved.now) count cells.new)
        ≡ each (eliminated_basic column solved.now) (rows_of (length solved.now) count cells.old) }
{
    let width = solved.len();
    for row in 0..count {
        let start = row * width;
        eliminate_basic(&mut cells[start..start + width], solved, column)?;
    }
    Ok(())
}

/// Solves a row for the variable of column `column`.
#[tactic(auto, using(crate::proofs::Parts::parts), unfolding(crate::specs::Dictionary::solved_row))]
fn solve_row(row: &mut [Frac], column: usize) -> Result<(), Wide>
    requires within { column < length row.old }
    requires not_zero { (entry row.old column).num ≢ pos 0 }
    ensures { with_value result row.new ≡ solved_row column row.old }
{
    let divisor = row[column];
    let (before, rest) = row.split_at_mut(column);
    let (own, behind) = rest.split_at_mut(1);
    divide_all(before, &divisor)?;
    divide_all(behind, &divisor)?;
    own[0] = Frac::one().checked_div(&divisor)?;
    Ok(())
}

/// Takes the variable of column `column` out of a basic variable's row. One that has none of it stays as it is.
#[tactic(auto, using(crate::proofs::Zeros::basic_zero))]
fn eliminate_basic(row: &mut [Frac], solved: &[Frac], column: usize) -> Result<(), Wide>
    requires widths { length row.old ≡ length solved.now }
    requires above { 0 < column }
    requires within { column < length row.old }
    ensures { with_value result row.new ≡ eliminated_basic column solved.now row.old }
{
    if row[column].is_zero() {
        Frac::are_kept(row);
        return Ok(());
    }
    combine_basic(row, solved, column)
}

/// As `eliminate_basic`, whatever the row has of the variable.
#[tactic(auto, unfolding(crate::specs::Dictionary::eliminated_basic))]
fn combine_basic(row: &mut [Frac], solved: &[Frac], column: usize) -> Result<(), Wide>
    requires widths { length row.old ≡ length solved.now }
    requires above { 0 < column }
    requires within { column < length row.old }
    ensures { with_value result row.new ≡ eliminated_basic column solved.now row.old }
{
    let factor = row[column];
    let (constant, entries) = row.split_at_mut(1);
    constant[0] = less_product(&constant[0], &factor, &solved[0])?;
    eliminate_entries(entries, &solved[1..], column - 1, &factor)
}

/// Takes the variable of column `column` out of an objective. One that has none of it stays as it is.
#[tactic(auto, using(crate::proofs::Zeros::objective_zero))]
pub fn eliminate_objective(row: &mut [Frac], solved: &[Frac], column: usize) -> Result<(), Wide>
    requires widths { length row.old ≡ length solved.now }
    requires above { 0 < column }
    requires within { column < length row.old }
    ensures { with_value result row.new ≡ eliminated_objective column solved.now row.old }
{
    if row[column].is_zero() {
        Frac::are_kept(row);
        return Ok(());
    }
    combine_objective(row, solved, column)
}

/// As `eliminate_objective`, whatever the row has of the variable.
#[tactic(auto, unfolding(crate::specs::Dictionary::eliminated_objective))]
fn combine_objective(row: &mut [Frac], solved: &[Frac], column: usize) -> Result<(), Wide>
    requires widths { length row.old ≡ length solved.now }
    requires above { 0 < column }
    requires within { column < length row.old }
    ensures { with_value result row.new ≡ eliminated_objective column solved.now row.old }
{
    let factor = row[column];
    let (constant, entries) = row.split_at_mut(1);
    constant[0] = plus_product(&constant[0], &factor, &solved[0])?;
    eliminate_entries(entries, &solved[1..], column - 1, &factor)
}

/// Takes the variable of column `column` out of the auxiliary objective, where there is one.
pub fn eliminate_auxiliary(
    row: &mut Option<Vec<Frac>>,
    solved: &[Frac],
    column: usize,
) -> Result<(), Wide>
    requires widths { ForSome row.old (λ w. length w.items ≡ length solved.now) }
    requires above { 0 < column }
    requires within { column < length solved.now }
    ensures value { with_value result (option_map (λ w. w.items) row.new)
        ≡ each_option (eliminated_objective column solved.now) (option_map (λ w. w.items) row.old) }
    ensures widths { ForSome row.new (λ w. length w.items ≡ length solved.now) }
    ensures presence { is_some row.new ≡ is_some row.old }
{
    match row {
        Some(entries) => eliminate_objective(entries.as_mut_slice(), solved, column),
        None => Ok(()),
    }
}

/// The entries from column 1 on, where `factor` stood at the place.
#[tactic(auto, using(crate::proofs::Parts::parts), unfolding(crate::specs::Dictionary::eliminated_entries))]
fn eliminate_entries(
    entries: &mut [Frac],
    solved: &[Frac],
    place: usize,
    factor: &Frac,
) -> Result<(), Wide>
    requires widths { length entries.old ≡ length solved.now }
    requires within { place < length entries.old }
    ensures { with_value result entries.new ≡ eliminated_entries place factor.now solved.now entries.old }
{
    let (before, rest) = entries.split_at_mut(place);
    let (own, behind) = rest.split_at_mut(1);
    subtract_products(before, factor, &solved[..place])?;
    subtract_products(behind, factor, &solved[place + 1..])?;
    own[0] = factor.checked_mul(&solved[place])?.neg();
    Ok(())
}

fn divide_all(entries: &mut [Frac], divisor: &Frac) -> Result<(), Wide>
    requires { divisor.now.num ≢ pos 0 }
    ensures { with_value result entries.new ≡ each (λ x. checked_quotient x divisor.now) entries.old }
{
    for entry in entries.iter_mut() {
        *entry = entry.checked_div(divisor)?;
    }
    Ok(())
}

fn subtract_products(entries: &mut [Frac], factor: &Frac, solved: &[Frac]) -> Result<(), Wide>
    requires { length entries.old ≡ length solved.now }
    ensures { with_value result entries.new ≡ each_pair (less_product factor.now) entries.old solved.now }
{
    for place in 0..entries.len() {
        entries[place] = less_product(&entries[place], factor, &solved[place])?;
    }
    Ok(())
}

/// `x - factor * y`.
fn less_product(x: &Frac, factor: &Frac, y: &Frac) -> Result<Frac, Wide>
    ensures { result ≡ less_product factor.now x.now y.now }
{
    x.checked_sub(&factor.checked_mul(y)?)
}

/// `x + factor * y`.
fn plus_product(x: &Frac, factor: &Frac, y: &Frac) -> Result<Frac, Wide>
    ensures { result ≡ plus_product factor.now x.now y.now }
{
    x.checked_add(&factor.checked_mul(y)?)
}
