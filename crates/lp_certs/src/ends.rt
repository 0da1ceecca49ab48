//! Points, weights and directions at an end.
ghost use Rattle.std.specs.Prelude.{◌≡◌, ◌<◌, ◌≤◌, IfOk, length, map};
ghost use Rattle.frac128.specs.Fraction.{negation};
ghost use Rattle.dictionary.specs.Dictionary.{line_count, numbers_from};
ghost use Rattle.solve_defs.specs.Ends.{dual_of, duals, farkas_of, point_of, ray_of, rise_of, structural_count};
ghost use Rattle.solve_defs.specs.Path.{an_end, coming};
ghost use Rattle.solve_defs.specs.declared.solving.LpEnd.TheVariants.{NoPoint, Unbounded};
ghost use Rattle.lp_certs.specs.ByIndex.{line_at};

use crate::by_index::{basic_entries, put, structural_count, weights};
use base_names::{NoMemory, Seq};
use bland_rule::entering_column;
use dictionary::Tableau;
use frac128::Frac;
use solve_defs::{Duals, StdRay};
use std::alloc::Global;

/// The columns' values: a nonbasic variable is 0, a basic one its row's constant.
pub fn point_of<T: Tableau>(alloc: Global, t: &T) -> Result<Vec<Frac>, NoMemory>
    ensures { IfOk result (λ point. point.items ≡ point_of (T.meaning t.now)) }
{
    basic_entries(alloc, t, 0)
}

/// The weights of the standard form's rows and columns by z. At the best point they show that no point is better.
pub fn dual_of<T: Tableau>(alloc: Global, t: &T) -> Result<Duals, NoMemory>
    ensures { IfOk result (λ duals. duals ≡ dual_of (T.meaning t.now)) }
{
    duals(alloc, t, t.rows() + 1)
}

/// The weights by w on a tableau that ended without a point, which show that there is none.
pub fn farkas_of<T: Tableau>(alloc: Global, t: &T) -> Result<Duals, NoMemory>
    requires { coming (T.meaning t.now) ≡ an_end NoPoint }
    ensures { IfOk result (λ duals. duals ≡ farkas_of (T.meaning t.now)) }
{
    duals(alloc, t, t.rows() + 2)
}

/// The weights by an objective's line.
fn duals<T: Tableau>(alloc: Global, t: &T, line: u32) -> Result<Duals, NoMemory>
    requires above { length (T.meaning t.now).basic < line }
    requires within { line ≤ line_count (T.meaning t.now) }
    ensures { IfOk result (λ own. own ≡ duals (T.meaning t.now) (line_at (T.meaning t.now) line)) }
{
    let mut reduced = weights(alloc, t, line)?;
    let ys = reduced.split_off(structural_count(t) as usize)?;
    Ok(Duals {
        ys: Seq::of(ys),
        reduced: Seq::of(reduced),
    })
}

/// The point of a tableau that ended unbounded, and the direction in which its objective rises.
pub fn ray_of<T: Tableau>(alloc: Global, t: &T) -> Result<StdRay, NoMemory>
    requires { coming (T.meaning t.now) ≡ an_end Unbounded }
    ensures { IfOk result (λ ray. ray ≡ ray_of (T.meaning t.now)) }
{
    let column = entering_column(t).unwrap();
    let point = point_of(alloc, t)?;
    let ray = rises(alloc, t, column)?;
    Ok(StdRay {
        point: Seq::of(point),
        ray: Seq::of(ray),
    })
}

/// How the columns' variables change where that of one column rises by 1: a basic one by its entry there, negated.
fn rises<T: Tableau>(alloc: Global, t: &T, column: u32) -> Result<Vec<Frac>, NoMemory>
    requires above { 0 < column }
    requires within { column ≤ length (T.meaning t.now).nonbasic }
    ensures { IfOk result (λ rises. rises.items
        ≡ map (rise_of (T.meaning t.now) column) (numbers_from 1 (structural_count (T.meaning t.now)))) }
{
    let entries = basic_entries(alloc, t, column)?;
    let mut rises = negations(alloc, entries.as_slice())?;
    put(&mut rises, t.nonbasic(column), Frac::one());
    Ok(rises)
}

fn negations(alloc: Global, values: &[Frac]) -> Result<Vec<Frac>, NoMemory>
    ensures { IfOk result (λ opposites. opposites.items ≡ map negation values.now) }
{
    Ok(values.iter().map(|value| value.neg()).collect(alloc)?)
}
