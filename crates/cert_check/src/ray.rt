//! A direction in which nothing bounds the objective.
ghost use Rattle.std.specs.Prelude.{◌≡◌, ◌<◌, ◌^◌, [], ◌∷◌, All, flat_map, length, map, zip};
ghost use Rattle.std.specs.List.{enumerate_from};
ghost use Rattle.model_data.specs.Lawful.{IsLawful};
ghost use Rattle.solve_defs.specs.Bounds.{effective_bounds};
ghost use Rattle.solve_defs.specs.Certificates.{gains, keeps_along, ray_bound, ray_gain, ray_looks, ray_row};
ghost use Rattle.solve_defs.specs.Looks.{verdict_of};
ghost use Rattle.cert_check.specs.Found.{verdict_by};

use crate::bounds::Bounds;
use crate::failure::{Failure, look};
use crate::values::{
    compares, is_below, is_negative_or_zero, is_positive_or_zero, is_same, objective_sum, row_sum,
};
use frac128::Frac;
use model_data::{Direction, Model, Row, Sense};
use solve_defs::Place;

/// Each row at the point and along the direction, each bound, and the gain.
pub(crate) fn ray_looks(
    m: &Model,
    bounds: &[Bounds],
    point: &[Frac],
    ray: &[Frac],
) -> Result<(), Failure>
    requires lawful { IsLawful m.now }
    requires point { length point.now ≡ length m.now.vars }
    requires ray { length ray.now ≡ length m.now.vars }
    requires bounds { bounds.now ≡ effective_bounds m.now [] }
    ensures { verdict_by result ≡ verdict_of (ray_looks m.now point.now ray.now) }
{
    rows(m.rows.as_slice(), point, ray)?;
    each_bound(bounds, point, ray)?;
    gain(m, ray)
}

fn rows(rows: &[Row], point: &[Frac], ray: &[Frac]) -> Result<(), Failure>
    requires few { length rows.now < 2 ^ 32 }
    requires at_point { All (λ row. All (λ t. t.var < length point.now) row.terms) rows.now }
    requires along { All (λ row. All (λ t. t.var < length ray.now) row.terms) rows.now }
    ensures { verdict_by result ≡ verdict_of (flat_map (ray_row point.now ray.now) (enumerate_from 1 rows.now)) }
{
    for (place, row) in rows.iter().enumerate() {
        row_looks(place as u32 + 1, row, point, ray)?;
    }
    Ok(())
}

/// A row at the point, and then along the direction.
fn row_looks(number: u32, row: &Row, point: &[Frac], ray: &[Frac]) -> Result<(), Failure>
    requires at_point { All (λ t. t.var < length point.now) row.now.terms }
    requires along { All (λ t. t.var < length ray.now) row.now.terms }
    ensures { verdict_by result ≡ verdict_of (ray_row point.now ray.now (number, row.now)) }
{
    let sum = row_sum(row.terms.as_slice(), point)?;
    look(Place::RayRow(number), compares(row.sense, &sum, &row.rhs))?;
    let change = row_sum(row.terms.as_slice(), ray)?;
    look(Place::RayRow(number), keeps_along(row.sense, &change))
}

fn each_bound(bounds: &[Bounds], point: &[Frac], ray: &[Frac]) -> Result<(), Failure>
    requires few { length ray.now < 2 ^ 32 }
    requires points { length point.now ≡ length ray.now }
    requires sizes { length bounds.now ≡ length ray.now }
    ensures { verdict_by result ≡ verdict_of (map ray_bound (enumerate_from 1 (zip bounds.now (zip point.now ray.now)))) }
{
    for (place, x) in ray.iter().enumerate() {
        let own = &bounds[place];
        look(
            Place::RayBound(place as u32 + 1),
            own.has(&point[place]) && own.are_kept_along(x),
        )?;
    }
    Ok(())
}

/// The objective along the direction.
fn gain(m: &Model, ray: &[Frac]) -> Result<(), Failure>
    requires { length ray.now ≡ length m.now.vars }
    ensures { verdict_by result ≡ verdict_of (ray_gain m.now ray.now ∷ []) }
{
    let sum = objective_sum(m.vars.as_slice(), &Frac::zero(), ray)?;
    look(Place::RayGain, gains(m.direction, &sum))
}

fn keeps_along(sense: Sense, x: &Frac) -> bool
    ensures { result ≡ keeps_along sense x.now }
{
    match sense {
        Sense::Less => is_negative_or_zero(x),
        Sense::Greater => is_positive_or_zero(x),
        Sense::Equal => is_same(x, &Frac::zero()),
    }
}

fn gains(direction: Direction, x: &Frac) -> bool
    ensures { result ≡ gains direction x.now }
{
    match direction {
        Direction::Minimize => is_below(x, &Frac::zero()),
        Direction::Maximize => is_below(&Frac::zero(), x),
    }
}
