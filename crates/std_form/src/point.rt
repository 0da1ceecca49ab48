//! The values of a model's variables from those of its standard form's columns.
ghost use Rattle.std.specs.Prelude.{◌≡◌, ◌+◌, ◌≤◌, All, Err, IfOk, Ok, length, suc};
ghost use Rattle.base_names.specs.declared.memory.OrMemory.TheVariants.{Fault};
ghost use Rattle.frac128.specs.declared.operations.Wide.{Wide as Refused};
ghost use Rattle.solve_defs.specs.StandardForm.{column_count, point_back, point_value, ray_back, ray_value, shapes_of, values_from, width};
ghost use Rattle.solve_defs.specs.Values.{value_at};
ghost use Rattle.std_form.specs.Cuts.{IsCutOf};
ghost use Rattle.std_form.specs.Outcome.{Meets};
ghost use Rattle.std_form.specs.Shapes.{shape_of};
ghost use Rattle.std_form.specs.Ways.{value_by};
ghost use Rattle.std_form.specs.declared.fault.StdFault.TheVariants.{Wide as WideFault};

use crate::columns::{Columns, Placed};
use crate::fault::StdFault;
use crate::shape::Shape;
use base_names::OrMemory;
use frac128::{Frac, Wide};
use model_data::Model;
use solve_defs::Cut;
use std::alloc::Global;

/// What is carried back.
#[derive(Clone, Copy, Debug)]
enum Way {
    Point,
    /// A direction, to which no offset belongs.
    Ray,
}

/// The values of the model's variables from those of the columns of its standard form where these cuts hold, or the first
/// operation that doesn't fit.
///
/// The cuts name variables of the model, and their bounds are below 2^127 in size. There is a value for each column.
pub fn point_back(
    alloc: Global,
    m: &Model,
    cuts: &Vec<Cut>,
    xs: &Vec<Frac>,
) -> Result<Vec<Frac>, OrMemory<StdFault>>
    requires cuts { All (IsCutOf (length m.now.vars)) cuts.now.items }
    requires columns { length xs.now.items ≡ column_count (shapes_of m.now cuts.now.items) }
    ensures ok { IfOk result (λ point. point_back (shapes_of m.now cuts.now.items) xs.now.items ≡ Ok point.items) }
    ensures fault { (wide : Refused) → result ≡ Err (Fault (WideFault wide))
        → point_back (shapes_of m.now cuts.now.items) xs.now.items ≡ Err wide }
{
    let columns = Columns::of(alloc, m, cuts.as_slice())?;
    columns.values(alloc, Way::Point, xs.as_slice())
}

/// How the model's variables change from how the columns do, or the first operation that doesn't fit.
///
/// The same is asked as of [`point_back`].
pub fn ray_back(
    alloc: Global,
    m: &Model,
    cuts: &Vec<Cut>,
    ds: &Vec<Frac>,
) -> Result<Vec<Frac>, OrMemory<StdFault>>
    requires cuts { All (IsCutOf (length m.now.vars)) cuts.now.items }
    requires columns { length ds.now.items ≡ column_count (shapes_of m.now cuts.now.items) }
    ensures ok { IfOk result (λ ray. ray_back (shapes_of m.now cuts.now.items) ds.now.items ≡ Ok ray.items) }
    ensures fault { (wide : Refused) → result ≡ Err (Fault (WideFault wide))
        → ray_back (shapes_of m.now cuts.now.items) ds.now.items ≡ Err wide }
{
    let columns = Columns::of(alloc, m, cuts.as_slice())?;
    columns.values(alloc, Way::Ray, ds.as_slice())
}

impl Columns {
    fn values(&self, alloc: Global, way: Way, xs: &[Frac]) -> Result<Vec<Frac>, OrMemory<StdFault>>
        requires { length xs.now ≡ column_count self.now }
        ensures { Meets result (λ values. values.items) (values_from (value_by way) 0 self.now xs.now) }
    {
        let mut values = Vec::with_capacity(alloc, self.placed.len())?;
        for placed in &self.placed {
            values.push(placed.value(way, xs).map_err(StdFault::Wide)?)?;
        }
        Ok(values)
    }
}

impl Placed {
    /// The variable's value from those of the columns.
    fn value(&self, way: Way, xs: &[Frac]) -> Result<Frac, Wide>
        requires { self.now.column + width (shape_of self.now.shape) ≤ length xs.now }
        ensures { result ≡ value_by way (shape_of self.now.shape) (value_at xs.now self.now.column) (value_at xs.now (suc self.now.column)) }
    {
        match way {
            Way::Point => self.at_point(xs),
            Way::Ray => self.along_ray(xs),
        }
    }

    fn at_point(&self, xs: &[Frac]) -> Result<Frac, Wide>
        requires { self.now.column + width (shape_of self.now.shape) ≤ length xs.now }
        ensures { result ≡ point_value (shape_of self.now.shape) (value_at xs.now self.now.column) (value_at xs.now (suc self.now.column)) }
    {
        match self.shape {
            Shape::Shifted { lower, .. } => lower.checked_add(&xs[self.column]),
            Shape::Mirrored { upper } => upper.checked_sub(&xs[self.column]),
            Shape::Free => xs[self.column].checked_sub(&xs[self.column + 1]),
        }
    }

    fn along_ray(&self, xs: &[Frac]) -> Result<Frac, Wide>
        requires { self.now.column + width (shape_of self.now.shape) ≤ length xs.now }
        ensures { result ≡ ray_value (shape_of self.now.shape) (value_at xs.now self.now.column) (value_at xs.now (suc self.now.column)) }
    {
        match self.shape {
            Shape::Shifted { .. } => Ok(xs[self.column]),
            Shape::Mirrored { .. } => Ok(xs[self.column].neg()),
            Shape::Free => xs[self.column].checked_sub(&xs[self.column + 1]),
        }
    }
}
