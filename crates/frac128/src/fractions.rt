//! The type of a fraction, and its operations.
ghost use Rattle.std.specs.Prelude.{◌≡◌, ◌≢◌, ◌↔◌, ◌<◌, All, IsTrue, pos, unsigned_abs};
ghost use Rattle.std.specs.Option.{SomeIff};
ghost use Rattle.frac128.specs.Fits.{FitsDifference, FitsProduct, FitsQuotient, FitsReduced, FitsSum};
ghost use Rattle.frac128.specs.Fraction.{den, exact_difference, exact_product, exact_quotient, exact_sum, fraction, inverse, lowest, negation, one_value, quotient, zero_value};
ghost use Rattle.frac128.specs.Lowest.{IsKept, IsLowest};
ghost use Rattle.frac128.specs.Order.{IsCeil, IsFloor, order_of};
ghost use Rattle.frac128.specs.Numbers.{limit, signed};

use crate::divisor::gcd;
use crate::euclid::cmp_rests;
use crate::limits::LIMIT;
use crate::parts::{divided, product_in, reduced_parts, scaled_sum, signed, whole_and_rest};
use std::cmp::Ordering;
use std::marker::Model;

/// A fraction in lowest terms, with a denominator above 0 and both parts below 2^127 in size.
///
/// Equal values have equal parts, so `==` compares values.
#[derive(Clone, Copy, PartialEq, Eq, Debug)]
pub struct Frac {
    num: i128,
    den: u128,
}

impl Model for Frac {
    ghost use Rattle.std.specs.Prelude.{suc};
    ghost use Rattle.frac128.specs.Fraction.{Fraction, fraction};
    ghost use Rattle.frac128.specs.Lowest.{IsLowest};

    ghost Value = { Fraction };

    ghost view = { λ f. fraction f.num f.den };

    ghost invariant = { λ f. IsLowest f.num f.den };

    ghost inverse = { λ x. record { num = x.num; den = suc x.below } };
}

impl Frac {
    /// `num / den` in lowest terms; None exactly where `den` is 0 or a reduced part is at or past 2^127 in size.
    pub fn make(num: i128, den: i128) -> Option<Frac>
        ensures { SomeIff result ((den ≢ pos 0)
            × FitsReduced (unsigned_abs num) (unsigned_abs den)) (quotient num den) }
    {
        if den == 0 {
            return None;
        }
        let (size, den_size) = reduced_parts(num.unsigned_abs(), den.unsigned_abs());
        if size >= LIMIT || den_size >= LIMIT {
            return None;
        }
        Some(Frac::from_parts((num < 0) != (den < 0), size, den_size))
    }

    /// `size / den` with this sign, in lowest terms.
    pub fn reduced(is_negative: bool, size: u128, den: u128) -> Frac
        requires size_fits { size < limit }
        requires den_fits { den < limit }
        requires den_above_zero { 0 < den }
        ensures { result ≡ lowest (signed is_negative size) den }
    {
        let (size, den) = reduced_parts(size, den);
        Frac::from_parts(is_negative, size, den)
    }

    pub fn zero() -> Frac
        ensures { result ≡ zero_value }
    {
        Frac { num: 0, den: 1 }
    }

    pub fn one() -> Frac
        ensures { result ≡ one_value }
    {
        Frac { num: 1, den: 1 }
    }

    /// The numerator, which has the sign.
    pub fn num(&self) -> i128
        ensures value { result ≡ self.now.num }
        ensures kept { IsKept self.now }
    {
        self.num
    }

    /// The denominator, which is above 0.
    pub fn den(&self) -> i128
        ensures value { result ≡ pos (den self.now) }
        ensures kept { IsKept self.now }
    {
        self.den as i128
    }

    /// Does nothing, and tells a proof what holds of each `Frac`.
    pub fn kept(&self)
        ensures { IsKept self.now }
    {
        let _ = &self.num;
    }

    /// As `kept`, for each of these.
    pub fn are_kept(values: &[Frac])
        ensures { All IsKept values.now }
    {
        for value in values {
            value.kept();
        }
    }

    pub fn is_zero(&self) -> bool
        ensures { IsTrue result ↔ (self.now.num ≡ pos 0) }
    {
        self.num == 0
    }

    pub fn neg(&self) -> Frac
        ensures { result ≡ negation self.now }
    {
        Frac {
            num: -self.num,
            den: self.den,
        }
    }

    /// The greatest whole number that is at most this value.
    pub fn floor(&self) -> i128
        ensures { IsFloor self.now result }
    {
        let (whole, _) = whole_and_rest(self.num, self.den);
        whole
    }

    /// The least whole number that is at least this value.
    pub fn ceil(&self) -> i128
        ensures { IsCeil self.now result }
    {
        let (whole, rest) = whole_and_rest(self.num, self.den);
        if rest == 0 { whole } else { whole + 1 }
    }

    /// The order by value. It forms no product, so that nothing can overflow.
    pub fn cmp(&self, other: &Frac) -> Ordering
        ensures { result ≡ order_of self.now other.now }
    {
        let (whole, rest) = whole_and_rest(self.num, self.den);
        let (other_whole, other_rest) = whole_and_rest(other.num, other.den);
        if whole != other_whole {
            return whole.cmp(&other_whole);
        }
        cmp_rests(rest, self.den, other_rest, other.den)
    }

    /// The sum; None exactly where a part that is formed on the way is at or past 2^127 in size.
    pub fn add(&self, other: &Frac) -> Option<Frac>
        ensures { SomeIff result (FitsSum self.now other.now) (exact_sum self.now other.now) }
    {
        let divisor = gcd(self.den, other.den);
        let own = divided(self.den, divisor);
        let others = divided(other.den, divisor);
        let num = scaled_sum(self.num, others, other.num, own)?;
        let den = product_in(own, other.den)?;
        // What the sum and its denominator have in common divides what the denominators have in common.
        let common = gcd(num.unsigned_abs(), divisor);
        Some(Frac::from_parts(
            num < 0,
            divided(num.unsigned_abs(), common),
            divided(den, common),
        ))
    }

    /// The sum with `-other`.
    pub fn sub(&self, other: &Frac) -> Option<Frac>
        ensures { SomeIff result (FitsDifference self.now other.now) (exact_difference self.now other.now) }
    {
        self.add(&other.neg())
    }

    /// The product; None exactly where a part of it is at or past 2^127 in size in lowest terms.
    pub fn mul(&self, other: &Frac) -> Option<Frac>
        ensures { SomeIff result (FitsProduct self.now other.now) (exact_product self.now other.now) }
    {
        let (left, other_den) = reduced_parts(self.num.unsigned_abs(), other.den);
        let (right, own_den) = reduced_parts(other.num.unsigned_abs(), self.den);
        let size = product_in(left, right)?;
        let den = product_in(own_den, other_den)?;
        Some(Frac::from_parts((self.num < 0) != (other.num < 0), size, den))
    }

    /// The product with the inverse of `other`.
    pub fn div(&self, other: &Frac) -> Option<Frac>
        requires { other.now.num ≢ pos 0 }
        ensures { SomeIff result (FitsQuotient self.now other.now) (exact_quotient self.now other.now) }
    {
        self.mul(&other.inverse())
    }

    fn inverse(&self) -> Frac
        requires { self.now.num ≢ pos 0 }
        ensures { result ≡ inverse self.now }
    {
        Frac::from_parts(self.num < 0, self.den, self.num.unsigned_abs())
    }

    fn from_parts(is_negative: bool, size: u128, den: u128) -> Frac
        requires { IsLowest (pos size) den }
        ensures { result ≡ fraction (signed is_negative size) den }
    {
        Frac {
            num: signed(is_negative, size),
            den,
        }
    }
}
