//! A leaf of the tree of cases.
ghost use Rattle.std.specs.Prelude.{◌≡◌, ◌<◌, ◌^◌, [], ◌∷◌, length, map, OnOk, replicate};
ghost use Rattle.model_data.specs.Lawful.{IsLawful};
ghost use Rattle.solve_defs.specs.Looks.{verdict_of};
ghost use Rattle.cert_check.specs.Found.{verdict_by};
ghost use Rattle.cert_check.specs.Leaves.{Fit, claim_by, coef_by, compared, looks_within, side_look};
ghost use Rattle.cert_check.specs.Sums.{no_sum};

use crate::bounds::Bounds;
use crate::claim::Claim;
use crate::failure::{Failure, look};
use crate::side::side;
use crate::signs::signs;
use crate::sums::Sums;
use crate::values::is_same;
use model_data::{Model, Weights};
use solve_defs::Place;

/// Its signs, its sums and its side, where these are the bounds of the variables. The sums are 0 before, and again where it passes.
pub(crate) fn leaf_looks(
    m: &Model,
    bounds: &[Bounds],
    sums: &mut Sums,
    leaf: u32,
    claim: &Claim,
    weights: &Weights,
) -> Result<(), Failure>
    requires lawful { IsLawful m.now }
    requires bounds { length bounds.now ≡ length m.now.vars }
    requires weights { Fit m.now weights.now }
    requires sums { sums.old ≡ replicate (length m.now.vars) no_sum }
    ensures looks { verdict_by result ≡ verdict_of (looks_within m.now bounds.now leaf (claim_by m.now claim.now) weights.now) }
    ensures again { OnOk result (sums.new ≡ replicate (length m.now.vars) no_sum) }
{
    signs(m, bounds, leaf, weights)?;
    sums.add(m, weights);
    sum_looks(m, sums, leaf, claim)?;
    side_look(m, bounds, leaf, claim, weights)
}

/// Each sum is held against the coefficient that it has to be, and is 0 from then on.
fn sum_looks(m: &Model, sums: &mut Sums, leaf: u32, claim: &Claim) -> Result<(), Failure>
    requires few { length m.now.vars < 2 ^ 32 }
    requires sizes { length sums.old ≡ length m.now.vars }
    ensures looks { verdict_by result ≡ compared leaf 0 sums.old (map (coef_by m.now claim.now) m.now.vars) }
    ensures again { OnOk result (sums.new ≡ replicate (length m.now.vars) no_sum) }
{
    for (place, var) in m.vars.as_slice().iter().enumerate() {
        let sum = sums.take(place)?;
        look(
            Place::LeafSum(leaf, place as u32 + 1),
            is_same(&sum, &claim.coef(m, var)),
        )?;
    }
    Ok(())
}

fn side_look(
    m: &Model,
    bounds: &[Bounds],
    leaf: u32,
    claim: &Claim,
    weights: &Weights,
) -> Result<(), Failure>
    requires bounds { length bounds.now ≡ length m.now.vars }
    requires weights { Fit m.now weights.now }
    ensures { verdict_by result ≡ verdict_of (side_look m.now bounds.now leaf (claim_by m.now claim.now) weights.now ∷ []) }
{
    let side = side(m, bounds, claim, weights)?;
    look(Place::LeafSide(leaf), claim.is_shown_by(m, &side))
}
