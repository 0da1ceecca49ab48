//! The side of a leaf's combination.
ghost use Rattle.std.specs.Prelude.{◌≡◌, [], length, option_map};
ghost use Rattle.std.specs.List.{cons_option};
ghost use Rattle.solve_defs.specs.Certificates.{side_steps};
ghost use Rattle.solve_defs.specs.Looks.{formed, minus_times, plus_times};
ghost use Rattle.cert_check.specs.Leaves.{Fit, claim_by, low_sides, row_sides, up_sides};
ghost use Rattle.cert_check.specs.Sums.{AreNumbered};

use crate::bounds::Bounds;
use crate::claim::Claim;
use crate::items::item;
use crate::values::{less_product, plus_product};
use frac128::{Frac, Wide};
use model_data::{Model, Row, Weight, Weights};

/// The right sides of the rows and the bounds with their weights, behind what the claim begins with.
pub(crate) fn side(
    m: &Model,
    bounds: &[Bounds],
    claim: &Claim,
    weights: &Weights,
) -> Result<Frac, Wide>
    requires bounds { length bounds.now ≡ length m.now.vars }
    requires weights { Fit m.now weights.now }
    ensures { result ≡ formed (claim_by m.now claim.now).constant (side_steps m.now bounds.now weights.now) }
{
    let rows = with_rows(
        &claim.constant(m),
        m.rows.as_slice(),
        weights.rows.as_slice(),
    )?;
    let lows = less_lows(&rows, bounds, weights.lows.as_slice())?;
    with_ups(&lows, bounds, weights.ups.as_slice())
}

fn with_rows(total: &Frac, rows: &[Row], weights: &[Weight]) -> Result<Frac, Wide>
    requires { AreNumbered (length rows.now) weights.now }
    ensures { result ≡ formed total.now (row_sides rows.now weights.now) }
{
    let mut side = *total;
    for w in weights {
        side = plus_product(&w.weight, &side, &item(rows, w.place).rhs)?;
    }
    Ok(side)
}

fn less_lows(total: &Frac, bounds: &[Bounds], weights: &[Weight]) -> Result<Frac, Wide>
    requires { AreNumbered (length bounds.now) weights.now }
    ensures { result ≡ formed total.now (low_sides bounds.now weights.now) }
{
    let mut side = *total;
    for w in weights {
        side = less_low(&side, &w.weight, &item(bounds, w.place).lower())?;
    }
    Ok(side)
}

fn with_ups(total: &Frac, bounds: &[Bounds], weights: &[Weight]) -> Result<Frac, Wide>
    requires { AreNumbered (length bounds.now) weights.now }
    ensures { result ≡ formed total.now (up_sides bounds.now weights.now) }
{
    let mut side = *total;
    for w in weights {
        side = with_up(&side, &w.weight, &item(bounds, w.place).upper())?;
    }
    Ok(side)
}

/// A bound that isn't there has no share.
fn less_low(side: &Frac, weight: &Frac, lower: &Option<Frac>) -> Result<Frac, Wide>
    ensures { result ≡ formed side.now (cons_option (option_map (minus_times weight.now) lower.now) []) }
{
    match lower {
        Some(lower) => less_product(weight, side, lower),
        None => Ok(*side),
    }
}

fn with_up(side: &Frac, weight: &Frac, upper: &Option<Frac>) -> Result<Frac, Wide>
    ensures { result ≡ formed side.now (cons_option (option_map (plus_times weight.now) upper.now) []) }
{
    match upper {
        Some(upper) => plus_product(weight, side, upper),
        None => Ok(*side),
    }
}
