//! A point that is kept.
ghost use Rattle.std.specs.Prelude.{◌≡◌, ◌<◌, ◌≤◌, ◌^◌, [], ◌∷◌, All, length, map, zip};
ghost use Rattle.std.specs.List.{enumerate_from};
ghost use Rattle.model_data.specs.Lawful.{IsLawful};
ghost use Rattle.solve_defs.specs.Certificates.{point_bound, point_integer, point_looks, point_row, point_value};
ghost use Rattle.solve_defs.specs.Looks.{verdict_of};
ghost use Rattle.cert_check.specs.Found.{verdict_by};

use crate::bounds::Bounds;
use crate::failure::{Failure, look};
use crate::kinds::{is_in_range, is_whole_if_asked};
use crate::values::{compares, is_same, objective_sum, row_sum};
use frac128::Frac;
use model_data::{Model, Point, Row, Var};
use solve_defs::Place;

/// Each row, each bound, each integer variable, and the value.
pub(crate) fn point_looks(m: &Model, point: &Point) -> Result<(), Failure>
    requires lawful { IsLawful m.now }
    requires values { length point.now.xs ≡ length m.now.vars }
    ensures { verdict_by result ≡ verdict_of (point_looks m.now (Some point.now)) }
{
    let vars = m.vars.as_slice();
    let xs = point.xs.as_slice();
    rows(m.rows.as_slice(), xs)?;
    each_bound(vars, xs)?;
    integers(vars, xs)?;
    value(m, point)
}

fn rows(rows: &[Row], xs: &[Frac]) -> Result<(), Failure>
    requires few { length rows.now < 2 ^ 32 }
    requires places { All (λ row. All (λ t. t.var < length xs.now) row.terms) rows.now }
    ensures { verdict_by result ≡ verdict_of (map (point_row xs.now) (enumerate_from 1 rows.now)) }
{
    for (place, row) in rows.iter().enumerate() {
        row_look(place as u32 + 1, row, xs)?;
    }
    Ok(())
}

fn row_look(number: u32, row: &Row, xs: &[Frac]) -> Result<(), Failure>
    requires { All (λ t. t.var < length xs.now) row.now.terms }
    ensures { verdict_by result ≡ verdict_of (point_row xs.now (number, row.now) ∷ []) }
{
    let sum = row_sum(row.terms.as_slice(), xs)?;
    look(Place::PointRow(number), compares(row.sense, &sum, &row.rhs))
}

fn each_bound(vars: &[Var], xs: &[Frac]) -> Result<(), Failure>
    requires few { length xs.now < 2 ^ 32 }
    requires sizes { length vars.now ≡ length xs.now }
    ensures { verdict_by result ≡ verdict_of (map point_bound (enumerate_from 1 (zip vars.now xs.now))) }
{
    for (place, x) in xs.iter().enumerate() {
        let var = &vars[place];
        look(
            Place::PointBound(place as u32 + 1),
            is_in_range(var.kind, &Bounds::of_var(var), x),
        )?;
    }
    Ok(())
}

fn integers(vars: &[Var], xs: &[Frac]) -> Result<(), Failure>
    requires few { length xs.now < 2 ^ 32 }
    requires sizes { length vars.now ≡ length xs.now }
    ensures { verdict_by result ≡ verdict_of (map point_integer (enumerate_from 1 (zip vars.now xs.now))) }
{
    for (place, x) in xs.iter().enumerate() {
        look(
            Place::PointInteger(place as u32 + 1),
            is_whole_if_asked(vars[place].kind, x),
        )?;
    }
    Ok(())
}

fn value(m: &Model, point: &Point) -> Result<(), Failure>
    requires { length point.now.xs ≡ length m.now.vars }
    ensures { verdict_by result ≡ verdict_of (point_value m.now point.now ∷ []) }
{
    let sum = objective_sum(m.vars.as_slice(), &m.constant, point.xs.as_slice())?;
    look(Place::PointValue, is_same(&sum, &point.value))
}
