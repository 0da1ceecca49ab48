//! The signs of a leaf's weights.
ghost use Rattle.std.specs.Prelude.{◌≡◌, length};
ghost use Rattle.solve_defs.specs.Certificates.{may_weigh_bound, may_weigh_sense, sign_looks};
ghost use Rattle.solve_defs.specs.Looks.{verdict_of};
ghost use Rattle.cert_check.specs.Found.{verdict_by};
ghost use Rattle.cert_check.specs.Leaves.{Fit, low_signs, row_signs, up_signs};
ghost use Rattle.cert_check.specs.Sums.{AreNumbered};

use crate::bounds::Bounds;
use crate::failure::{Failure, look};
use crate::items::item;
use crate::values::{is_negative_or_zero, is_positive_or_zero};
use frac128::Frac;
use model_data::{Model, Row, Sense, Weight, Weights};
use solve_defs::Place;

/// The signs of the rows' weights, then those of the lower bounds', and then of the upper ones'.
pub(crate) fn signs(
    m: &Model,
    bounds: &[Bounds],
    leaf: u32,
    weights: &Weights,
) -> Result<(), Failure>
    requires bounds { length bounds.now ≡ length m.now.vars }
    requires weights { Fit m.now weights.now }
    ensures { verdict_by result ≡ verdict_of (sign_looks m.now bounds.now leaf weights.now) }
{
    row_signs(m.rows.as_slice(), leaf, weights.rows.as_slice())?;
    low_signs(bounds, leaf, weights.lows.as_slice())?;
    up_signs(bounds, leaf, weights.ups.as_slice())
}

fn row_signs(rows: &[Row], leaf: u32, weights: &[Weight]) -> Result<(), Failure>
    requires { AreNumbered (length rows.now) weights.now }
    ensures { verdict_by result ≡ verdict_of (row_signs rows.now leaf weights.now) }
{
    for w in weights {
        look(
            Place::LeafSign(leaf, 0, w.place),
            may_weigh_sense(item(rows, w.place).sense, &w.weight),
        )?;
    }
    Ok(())
}

fn low_signs(bounds: &[Bounds], leaf: u32, weights: &[Weight]) -> Result<(), Failure>
    requires { AreNumbered (length bounds.now) weights.now }
    ensures { verdict_by result ≡ verdict_of (low_signs bounds.now leaf weights.now) }
{
    for w in weights {
        look(
            Place::LeafSign(leaf, 1, w.place),
            may_weigh_bound(&item(bounds, w.place).lower(), &w.weight),
        )?;
    }
    Ok(())
}

fn up_signs(bounds: &[Bounds], leaf: u32, weights: &[Weight]) -> Result<(), Failure>
    requires { AreNumbered (length bounds.now) weights.now }
    ensures { verdict_by result ≡ verdict_of (up_signs bounds.now leaf weights.now) }
{
    for w in weights {
        look(
            Place::LeafSign(leaf, 2, w.place),
            may_weigh_bound(&item(bounds, w.place).upper(), &w.weight),
        )?;
    }
    Ok(())
}

/// A weight may not turn a row about.
fn may_weigh_sense(sense: Sense, x: &Frac) -> bool
    ensures { result ≡ may_weigh_sense sense x.now }
{
    match sense {
        Sense::Less => is_positive_or_zero(x),
        Sense::Greater => is_negative_or_zero(x),
        Sense::Equal => true,
    }
}

/// A bound's weight isn't below 0, and the bound is there.
fn may_weigh_bound(bound: &Option<Frac>, x: &Frac) -> bool
    ensures { result ≡ may_weigh_bound bound.now x.now }
{
    bound.is_some() && is_positive_or_zero(x)
}
