//! Numbers under a sign, as values and as bounds.
ghost use Rattle.std.specs.Prelude.{◌≡◌, Some};
ghost use Rattle.frac128.specs.Fraction.{Fraction};
ghost use Rattle.lp_defs.specs.Quantity as defs;
ghost use Rattle.lp_defs.specs.Symbols as seen;
ghost use Rattle.lp_parse.specs.Meaning.{limit_of, quantity_of, spot_of};
ghost use Rattle.lp_parse.specs.Outcome.{Meets};
ghost use Rattle.base_names.specs.declared.refusal.FaultWord.TheVariants.{Number as bad_number};

use crate::symbol::{Quantity, Spot};
use base_names::{FaultWord, OrMemory};
use frac128::Frac;
use lp_defs::ModelFault;
use model_data::{BOUND_SIZE, Sense};

/// What a bound is set to. The number of a finite one stands elsewhere.
#[derive(Clone, Copy, Debug, PartialEq, Eq)]
pub(crate) enum Limit {
    Limited,
    Unlimited { below: bool },
}

impl<'v> Quantity<'v> {
    /// Reads the finite value of the number at the spot, with a sign in front of it.
    pub(crate) fn signed_value(
        &self,
        negative: bool,
        spot: Spot,
        number: &mut Frac,
    ) -> Result<(), OrMemory<ModelFault>>
        ensures { Meets result (λ _. number.new) (seen.or_fault (spot_of spot) bad_number (defs.value_of (defs.under_sign negative (quantity_of self.now)))) }
    {
        match self {
            Quantity::Finite(value) => {
                *number = under_sign(*value, negative);
                Ok(())
            }
            Quantity::TooWide { .. } | Quantity::Infinite { .. } => Err(spot.fault(
                FaultWord::Number,
            )),
        }
    }

    /// Reads the bound that the number at the spot sets, with a sign in front of it.
    pub(crate) fn signed_limit(
        &self,
        negative: bool,
        spot: Spot,
        number: &mut Frac,
    ) -> Result<Limit, OrMemory<ModelFault>>
        ensures { Meets result (λ limit. limit_of limit number.new)
            (seen.or_fault (spot_of spot) bad_number (defs.limit_of (defs.under_sign negative (quantity_of self.now)))) }
    {
        match self {
            Quantity::Finite(value) => {
                *number = under_sign(*value, negative);
                Ok(Limit::of_number(number))
            }
            Quantity::Infinite { negative: below }
            | Quantity::TooWide {
                negative: below,
                huge: true,
            } => Ok(Limit::Unlimited {
                below: *below != negative,
            }),
            Quantity::TooWide { huge: false, .. } => Err(spot.fault(FaultWord::Number)),
        }
    }
}

impl Limit {
    /// The limit that a finite number sets. One of 10^20 in size is none.
    fn of_number(number: &Frac) -> Limit
        ensures { Some (limit_of result number.now) ≡ defs.limit_of (seen.finite number.now) }
    {
        if is_far(number) {
            Limit::Unlimited {
                below: number.num() < 0,
            }
        } else {
            Limit::Limited
        }
    }

    /// Whether a variable may be at most, at least or equal to it.
    pub(crate) fn may_bound(self, sense: Sense) -> bool
        ensures { (x : Fraction) → result ≡ defs.may_bound sense (limit_of self x) }
    {
        match self {
            Limit::Limited => true,
            Limit::Unlimited { below } => match sense {
                Sense::Less => !below,
                Sense::Greater => below,
                Sense::Equal => false,
            },
        }
    }

    pub(crate) fn bound(self, number: &Frac) -> Option<Frac>
        ensures { result ≡ defs.bound_of (limit_of self number.now) }
    {
        match self {
            Limit::Limited => Some(*number),
            Limit::Unlimited { .. } => None,
        }
    }
}

/// The number with a sign in front of it.
fn under_sign(value: &Frac, negative: bool) -> Frac
    ensures { seen.finite result ≡ defs.under_sign negative (seen.finite value.now) }
{
    if negative { value.neg() } else { *value }
}

/// Whether it is at least 10^20 in size.
fn is_far(value: &Frac) -> bool
    ensures { result ≡ defs.is_far value.now }
{
    let den = value.den().unsigned_abs();
    match BOUND_SIZE.checked_mul(den) {
        Some(bound) => bound <= value.num().unsigned_abs(),
        None => false,
    }
}

/// The sense that holds with the sides exchanged.
pub(crate) fn turned(sense: Sense) -> Sense
    ensures { result ≡ defs.turned sense }
{
    match sense {
        Sense::Less => Sense::Greater,
        Sense::Greater => Sense::Less,
        Sense::Equal => Sense::Equal,
    }
}

/// One with a sign.
pub(crate) fn unit(negative: bool) -> Frac
    ensures { result ≡ defs.unit negative }
{
    if negative {
        Frac::one().neg()
    } else {
        Frac::one()
    }
}
