//! The weights of a model's rows and bounds from those of its standard form.
ghost use Rattle.std.specs.Prelude.{◌≡◌, ◌+◌, ◌<◌, ◌≤◌, ◌^◌, All, Err, IfOk, Ok, OnOk, length, suc, sum_by};
ghost use Rattle.base_names.specs.declared.memory.OrMemory.TheVariants.{Fault};
ghost use Rattle.frac128.specs.declared.operations.Wide.{Wide as Refused};
ghost use Rattle.model_data.specs.Lawful.{IsLawful};
ghost use Rattle.model_data.specs.Size.{rows_of_sense};
ghost use Rattle.solve_defs.specs.StandardForm.{low_weight, low_weights, numbered, row_weight, row_weights, shapes_of, spans_of, up_weight, up_weights, weights_back};
ghost use Rattle.solve_defs.specs.Values.{value_at};
ghost use Rattle.std_form.specs.Cuts.{IsCutOf};
ghost use Rattle.std_form.specs.Outcome.{Meets, with_weight};
ghost use Rattle.std_form.specs.Shapes.{shape_of};
ghost use Rattle.std_form.specs.declared.fault.StdFault.TheVariants.{Wide as WideFault};

use crate::columns::{Columns, Placed};
use crate::fault::StdFault;
use crate::shape::Shape;
use base_names::{NoMemory, OrMemory, Seq};
use frac128::{Frac, Wide};
use model_data::{Model, Row, Sense, Weight, Weights};
use solve_defs::Cut;
use std::alloc::Global;

/// The model's weights from those of the rows and the columns of its standard form where these cuts hold, or the first
/// operation that doesn't fit. Rows and variables are numbered from 1, and one of weight 0 is left out.
///
/// The cuts name variables of the model, and their bounds are below 2^127 in size. A weight that isn't given counts as 0.
pub fn dual_back(
    alloc: Global,
    m: &Model,
    cuts: &Vec<Cut>,
    ys: &Vec<Frac>,
    reduced: &Vec<Frac>,
) -> Result<Weights, OrMemory<StdFault>>
    requires lawful { IsLawful m.now }
    requires cuts { All (IsCutOf (length m.now.vars)) cuts.now.items }
    ensures ok { IfOk result (λ weights. weights_back m.now (shapes_of m.now cuts.now.items) ys.now.items reduced.now.items ≡ Ok weights) }
    ensures fault { (wide : Refused) → result ≡ Err (Fault (WideFault wide))
        → weights_back m.now (shapes_of m.now cuts.now.items) ys.now.items reduced.now.items ≡ Err wide }
{
    let columns = Columns::of(alloc, m, cuts.as_slice())?;
    let rows = row_weights(alloc, m.rows.as_slice(), ys.as_slice())?;
    let lows = columns.low_weights(alloc, reduced.as_slice())?;
    let first = rows_of_all(m.rows.as_slice());
    let ups = columns.up_weights(alloc, first, ys.as_slice(), reduced.as_slice())?;
    let rows = numbered(alloc, rows.as_slice())?;
    let lows = numbered(alloc, lows.as_slice())?;
    let ups = numbered(alloc, ups.as_slice())?;
    Ok(Weights {
        rows: Seq::of(rows),
        lows: Seq::of(lows),
        ups: Seq::of(ups),
    })
}

/// The rows' weights from those in standard form.
fn row_weights(alloc: Global, rows: &[Row], ys: &[Frac]) -> Result<Vec<Frac>, OrMemory<StdFault>>
    requires { length rows.now < 2 ^ 31 }
    ensures { Meets result (λ weights. weights.items) (row_weights 0 rows.now ys.now) }
{
    let mut weights = Vec::with_capacity(alloc, rows.len())?;
    let mut place = 0;
    for row in rows {
        weights.push(row_weight(row.sense, ys, place).map_err(StdFault::Wide)?)?;
        place += rows_of_sense(row.sense);
    }
    Ok(weights)
}

/// A row's weight from those of its first and its second row in standard form.
fn row_weight(sense: Sense, ys: &[Frac], place: usize) -> Result<Frac, Wide>
    requires { place < 2 ^ 32 }
    ensures { result ≡ row_weight sense (value_at ys.now place) (value_at ys.now (suc place)) }
{
    match sense {
        Sense::Less => Ok(value_at(ys, place)),
        Sense::Greater => Ok(value_at(ys, place).neg()),
        Sense::Equal => value_at(ys, place).checked_sub(&value_at(ys, place + 1)),
    }
}

fn value_at(xs: &[Frac], place: usize) -> Frac
    ensures { result ≡ value_at xs.now place }
{
    match xs.get(place) {
        Some(x) => *x,
        None => Frac::zero(),
    }
}

/// So many rows of a standard form stand before those of the variables.
fn rows_of_all(rows: &[Row]) -> usize
    requires { length rows.now < 2 ^ 31 }
    ensures value { result ≡ sum_by (λ row. rows_of_sense row.sense) rows.now }
    ensures bound { result < 2 ^ 32 }
{
    let mut count = 0;
    for row in rows {
        count += rows_of_sense(row.sense);
    }
    count
}

fn rows_of_sense(sense: Sense) -> usize
    ensures value { result ≡ rows_of_sense sense }
    ensures bound { result ≤ 2 }
{
    match sense {
        Sense::Less | Sense::Greater => 1,
        Sense::Equal => 2,
    }
}

impl Columns {
    /// The lower bounds' weights from those of the columns.
    fn low_weights(&self, alloc: Global, reduced: &[Frac]) -> Result<Vec<Frac>, NoMemory>
        ensures { IfOk result (λ lows. lows.items ≡ low_weights 0 self.now reduced.now) }
    {
        let mut lows = Vec::with_capacity(alloc, self.placed.len())?;
        for placed in &self.placed {
            lows.push(placed.low_weight(reduced))?;
        }
        Ok(lows)
    }

    /// The upper bounds' weights from those of the columns and of the variables' own rows, of which the first has this place.
    fn up_weights(
        &self,
        alloc: Global,
        first: usize,
        ys: &[Frac],
        reduced: &[Frac],
    ) -> Result<Vec<Frac>, NoMemory>
        requires first { first < 2 ^ 32 }
        requires count { length self.now < 2 ^ 31 }
        ensures { IfOk result (λ ups. ups.items ≡ up_weights first 0 self.now ys.now reduced.now) }
    {
        let mut ups = Vec::with_capacity(alloc, self.placed.len())?;
        let mut place = first;
        for placed in &self.placed {
            ups.push(placed.up_weight(&value_at(ys, place), reduced))?;
            place += placed.spans();
        }
        Ok(ups)
    }
}

impl Placed {
    fn low_weight(&self, reduced: &[Frac]) -> Frac
        ensures { result ≡ low_weight (shape_of self.now.shape) (value_at reduced.now self.now.column) }
    {
        match self.shape {
            Shape::Shifted { .. } => value_at(reduced, self.column),
            Shape::Mirrored { .. } | Shape::Free => Frac::zero(),
        }
    }

    /// The upper bound's weight, where the variable's own row has this one.
    fn up_weight(&self, own: &Frac, reduced: &[Frac]) -> Frac
        ensures { result ≡ up_weight (shape_of self.now.shape) (value_at reduced.now self.now.column) own.now }
    {
        match self.shape {
            Shape::Shifted { upper: Some(_), .. } => *own,
            Shape::Mirrored { .. } => value_at(reduced, self.column),
            Shape::Shifted { upper: None, .. } | Shape::Free => Frac::zero(),
        }
    }

    /// So many rows of its own.
    fn spans(&self) -> usize
        ensures value { result ≡ spans_of (shape_of self.now.shape) }
        ensures bound { result ≤ 1 }
    {
        match self.shape {
            Shape::Shifted { upper: Some(_), .. } => 1,
            Shape::Shifted { upper: None, .. } | Shape::Mirrored { .. } | Shape::Free => 0,
        }
    }
}

/// The weights that aren't 0, with their numbers.
fn numbered(alloc: Global, weights: &[Frac]) -> Result<Vec<Weight>, NoMemory>
    requires { length weights.now < 2 ^ 31 }
    ensures { IfOk result (λ all. all.items ≡ numbered 1 weights.now) }
{
    let mut all = Vec::new(alloc);
    for (place, weight) in weights.iter().enumerate() {
        push_weight(&mut all, place as u32 + 1, weight)?;
    }
    Ok(all)
}

#[tactic(auto, using(crate::proofs::Weighed::left_out, crate::proofs::Weighed::put_in))]
fn push_weight(all: &mut Vec<Weight>, number: u32, weight: &Frac) -> Result<(), NoMemory>
    ensures { OnOk result (all.new.items ≡ with_weight all.old.items number weight.now) }
{
    if weight.is_zero() {
        return Ok(());
    }
    all.push(Weight {
        place: number,
        weight: *weight,
    })?;
    Ok(())
}
