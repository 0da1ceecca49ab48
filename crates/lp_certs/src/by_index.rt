//! Values of variables by their indices, from those of columns and of rows.
ghost use Rattle.std.specs.Prelude.{◌≡◌, ◌+◌, ◌<◌, ◌≤◌, ℕ, IfOk, length, map};
ghost use Rattle.frac128.specs.Fraction.{Fraction};
ghost use Rattle.dictionary.specs.Dictionary.{IsInShape, entry, line_count, numbers_from};
ghost use Rattle.solve_defs.specs.Ends.{basic_row, structural_count, weight_of};
ghost use Rattle.lp_certs.specs.ByIndex.{entry_in, line_at, replaced};

use base_names::NoMemory;
use dictionary::Tableau;
use frac128::Frac;
use std::alloc::Global;

/// How many columns the standard form has.
pub(crate) fn structural_count<T: Tableau>(t: &T) -> u32
    ensures count { result ≡ structural_count (T.meaning t.now) }
    ensures shape { IsInShape (T.meaning t.now) }
{
    if t.in_phase_one() {
        t.cols().saturating_sub(1)
    } else {
        t.cols()
    }
}

/// Writes the value of the variable of this index, where it is one of those from 1 on that have a place here.
pub(crate) fn put(values: &mut Vec<Frac>, variable: u32, value: Frac)
    ensures { (count : ℕ) (f : ℕ → Fraction) → values.old.items ≡ map f (numbers_from 1 count)
        → values.new.items ≡ map (replaced variable value f) (numbers_from 1 count) }
{
    if variable == 0 || values.len() < variable as usize {
        return;
    }
    values[variable as usize - 1] = value;
}

/// The weights of the structural variables and the slacks by an objective's line.
pub(crate) fn weights<T: Tableau>(alloc: Global, t: &T, line: u32) -> Result<Vec<Frac>, NoMemory>
    requires above { length (T.meaning t.now).basic < line }
    requires within { line ≤ line_count (T.meaning t.now) }
    ensures { IfOk result (λ weights. weights.items
        ≡ map (weight_of (T.meaning t.now) (line_at (T.meaning t.now) line)) (numbers_from 1 (structural_count (T.meaning t.now) + length (T.meaning t.now).basic))) }
{
    let count = structural_count(t) as usize + t.rows() as usize;
    let mut weights = vec![in alloc; Frac::zero(); count]?;
    for place in 0..t.cols() {
        let column = t.cols() - place;
        put(
            &mut weights,
            t.nonbasic(column),
            line_entry(t, line, column).neg(),
        );
    }
    Ok(weights)
}

/// The entry of an objective's line.
fn line_entry<T: Tableau>(t: &T, line: u32, column: u32) -> Frac
    requires above { length (T.meaning t.now).basic < line }
    requires within { line ≤ line_count (T.meaning t.now) }
    requires column { column ≤ length (T.meaning t.now).nonbasic }
    ensures { result ≡ entry (line_at (T.meaning t.now) line) column }
{
    t.entry(line, column)
}

/// The entries in one column of the structural variables' rows, 0 for a nonbasic one.
pub(crate) fn basic_entries<T: Tableau>(
    alloc: Global,
    t: &T,
    column: u32,
) -> Result<Vec<Frac>, NoMemory>
    requires { column ≤ length (T.meaning t.now).nonbasic }
    ensures { IfOk result (λ entries. entries.items
        ≡ map (λ v. entry_in (T.meaning t.now) column (basic_row (T.meaning t.now) v)) (numbers_from 1 (structural_count (T.meaning t.now)))) }
{
    let mut entries = vec![in alloc; Frac::zero(); structural_count(t) as usize]?;
    for place in 0..t.rows() {
        let row = t.rows() - place;
        put(&mut entries, t.basic(row), t.entry(row, column));
    }
    Ok(entries)
}
