//! The parts of the dictionary that a standard form opens with.
ghost use Rattle.std.specs.Prelude.{◌≡◌, ◌+◌, ◌*◌, ◌^◌, ◌<◌, ◌≤◌, [], ◌++◌, ◌∷◌, All, IfOk, OnOk, Option, Some, None, if◌then◌else◌, length, map, option_to_list, replicate};
ghost use Rattle.frac128.specs.Fraction.{negation, one_value, zero_value};
ghost use Rattle.dictionary.specs.Cells.{opening_row, rows_of};
ghost use Rattle.dictionary.specs.Dictionary.{needs_phase_one, numbers_from};

use crate::standard::{Std, StdRow};
use base_names::NoMemory;
use frac128::Frac;
use std::alloc::Global;

/// Whether some right side is below 0.
pub fn needs_phase_one(s: &Std) -> bool
    ensures { result ≡ needs_phase_one s.now }
{
    s.rows.as_slice().iter().any(|row| row.rhs.num() < 0)
}

/// `count` numbers, from `first` on.
pub fn numbers_from(alloc: Global, first: u32, count: u32) -> Result<Vec<u32>, NoMemory>
    requires { first + count < 2 ^ 32 }
    ensures { IfOk result (λ numbers. numbers.items ≡ numbers_from first count) }
{
    let mut numbers = Vec::with_capacity(alloc, count as usize)?;
    for number in first..first + count {
        numbers.push(number)?;
    }
    Ok(numbers)
}

/// The rows of the basic variables, one behind the other, with an entry for the artificial variable where there is one.
pub fn opening_cells(
    alloc: Global,
    rows: &[StdRow],
    artificial: &Option<Frac>,
    width: usize,
) -> Result<Vec<Frac>, NoMemory>
    requires widths { All (λ row. length (opening_row artificial.now row) ≡ width) rows.now }
    requires limit { length rows.now * width < 2 ^ 63 }
    ensures rows { IfOk result (λ cells. rows_of width (length rows.now) cells.items ≡ map (opening_row artificial.now) rows.now) }
    ensures count { IfOk result (λ cells. length cells.items ≡ length rows.now * width) }
{
    let mut cells = Vec::with_capacity(alloc, rows.len() * width)?;
    for row in rows {
        push_row(&mut cells, row.rhs, row.coefs.as_slice(), artificial)?;
    }
    Ok(cells)
}

/// The same of rows that nobody wants behind it: each one is freed once its entries stand among the cells.
pub fn cells_from(
    alloc: Global,
    rows: Vec<StdRow>,
    artificial: &Option<Frac>,
    width: usize,
) -> Result<Vec<Frac>, NoMemory>
    requires widths { All (λ row. length (opening_row artificial.now row) ≡ width) rows.items }
    requires limit { length rows.items * width < 2 ^ 63 }
    ensures rows { IfOk result (λ cells. rows_of width (length rows.items) cells.items ≡ map (opening_row artificial.now) rows.items) }
    ensures count { IfOk result (λ cells. length cells.items ≡ length rows.items * width) }
{
    let mut cells = Vec::with_capacity(alloc, rows.len() * width)?;
    for row in rows {
        push_row(&mut cells, row.rhs, row.coefs.as_slice(), artificial)?;
    }
    Ok(cells)
}

/// A constant and an entry for each column, and one for the artificial variable where there is one.
pub fn push_row(
    cells: &mut Vec<Frac>,
    constant: Frac,
    entries: &[Frac],
    artificial: &Option<Frac>,
) -> Result<(), NoMemory>
    ensures { OnOk result (cells.new.items ≡ cells.old.items ++ (constant ∷ (entries.now ++ option_to_list artificial.now))) }
{
    cells.push(constant)?;
    cells.extend_from_slice(entries)?;
    if let Some(entry) = artificial {
        cells.push(*entry)?;
    }
    Ok(())
}

/// The objective, with an entry for the artificial variable where there is one.
pub fn objective_row(
    alloc: Global,
    constant: Frac,
    obj: &[Frac],
    artificial: &Option<Frac>,
) -> Result<Vec<Frac>, NoMemory>
    requires { length obj.now < 2 ^ 31 }
    ensures { IfOk result (λ row. row.items ≡ constant ∷ (obj.now ++ option_to_list artificial.now)) }
{
    let mut row = Vec::with_capacity(alloc, obj.len() + 2)?;
    push_row(&mut row, constant, obj, artificial)?;
    Ok(row)
}

/// The auxiliary objective, for so many columns without the artificial variable's.
pub fn auxiliary_row(alloc: Global, columns: usize) -> Result<Vec<Frac>, NoMemory>
    requires { columns ≤ 2 ^ 31 }
    ensures { IfOk result (λ row. row.items ≡ replicate (columns + 1) zero_value ++ negation one_value ∷ []) }
{
    let mut row = Vec::with_capacity(alloc, columns + 2)?;
    row.resize(columns + 1, Frac::zero())?;
    row.push(Frac::one().neg())?;
    Ok(row)
}
