//! What the parts of a number text are worth: its value, or that it is too wide.
ghost use Rattle.std.specs.Prelude.{◌≡◌, ◌+◌, ◌*◌, ◌<◌, ◌≤◌, ◌↔◌, ◌++◌, IsTrue, length, pos, ◌+ℤ◌, ◌-ℤ◌, ◌<ℤ◌};
ghost use Rattle.std.specs.Option.{SomeIff};
ghost use Rattle.frac128.specs.Numbers.{limit};
ghost use Rattle.frac128.specs.declared.limits.TheConstants.{HUGE, HUGE_TENS};
ghost use Rattle.frac_text.specs.Digits.{number};
ghost use Rattle.frac_text.specs.Grammar.{AreDigits, max_len};
ghost use Rattle.frac_text.specs.Number.{IsInExponents, IsInTens, decimal, outcome_of, parts_of, ratio, tens_over, tens_under, with_tens};

use crate::digits::{
    is_zero, joined_number, number_after, significant_len, with_zeros, without_first_zeros,
    without_last_zeros,
};
use crate::fault::NumFault;
use frac128::{Frac, HUGE_TENS};

/// The value of the digits before and behind a point, with an exponent.
pub(crate) fn decimal_value(
    negative: bool,
    whole: &[u8],
    behind: &[u8],
    exponent: i64,
) -> Result<Frac, NumFault>
    requires whole_digits { AreDigits whole.now }
    requires behind_digits { AreDigits behind.now }
    requires not_long { length whole.now + length behind.now ≤ max_len }
    requires exponent_fits { IsInExponents exponent }
    ensures { result ≡ outcome_of (parts_of (decimal negative whole.now behind.now exponent)) }
{
    let kept = without_last_zeros(behind);
    scaled_value(negative, whole, kept, lowered(exponent, kept.len()))
}

/// The exponent of a number without its point, behind which so many digits stand.
fn lowered(exponent: i64, len: usize) -> i64
    requires not_long { len ≤ max_len }
    requires exponent_fits { IsInExponents exponent }
    ensures value { result ≡ exponent -ℤ pos len }
    ensures range { IsInTens result }
{
    exponent - len as i64
}

/// The value of the two runs of digits as one, times 10 to the power of `tens`.
fn scaled_value(negative: bool, whole: &[u8], behind: &[u8], tens: i64) -> Result<Frac, NumFault>
    requires whole_digits { AreDigits whole.now }
    requires behind_digits { AreDigits behind.now }
    requires not_long { length whole.now + length behind.now ≤ max_len }
    requires tens_fit { IsInTens tens }
    ensures { result ≡ outcome_of (with_tens negative (number (whole.now ++ behind.now)) tens) }
{
    let len = significant_len(whole, behind);
    if len == 0 {
        return Ok(Frac::zero());
    }
    match decimal_parts(whole, behind, tens) {
        Some((over, under)) => Ok(Frac::reduced(negative, over, under)),
        None => Err(NumFault::TooWide {
            negative,
            huge: is_huge_decimal(len, tens),
        }),
    }
}

/// The parts of the number of both runs of digits, where they are below the limit.
fn decimal_parts(whole: &[u8], behind: &[u8], tens: i64) -> Option<(u128, u128)>
    requires whole_digits { AreDigits whole.now }
    requires behind_digits { AreDigits behind.now }
    requires above_zero { 0 < number (whole.now ++ behind.now) }
    requires tens_fit { IsInTens tens }
    ensures { let n = number (whole.now ++ behind.now) in SomeIff result ((tens_over n tens < limit) × (tens_under tens < limit)) (tens_over n tens, tens_under tens) }
{
    let number = joined_number(whole, behind)?;
    with_tens(number, tens)
}

/// Whether a number of `len` digits, the first of which isn't 0, is huge with so many tens.
fn is_huge_decimal(len: usize, tens: i64) -> bool
    requires not_long { len ≤ max_len }
    requires tens_fit { IsInTens tens }
    ensures { IsTrue result ↔ (pos HUGE_TENS <ℤ (pos len +ℤ tens)) }
{
    len as i64 + tens > HUGE_TENS as i64
}

/// The parts of `number * 10^tens`, where both are below the limit.
fn with_tens(number: u128, tens: i64) -> Option<(u128, u128)>
    requires fits { number < limit }
    requires above_zero { 0 < number }
    requires tens_fit { IsInTens tens }
    ensures { SomeIff result ((tens_over number tens < limit) × (tens_under tens < limit)) (tens_over number tens, tens_under tens) }
{
    let zeros = tens.unsigned_abs() as usize;
    if tens >= 0 {
        Some((with_zeros(number, zeros)?, 1))
    } else {
        Some((number, with_zeros(1, zeros)?))
    }
}

/// The value of the digits before and behind a slash, where those behind it aren't all 0.
pub(crate) fn ratio_value(negative: bool, over: &[u8], under: &[u8]) -> Result<Frac, NumFault>
    requires over_digits { AreDigits over.now }
    requires under_digits { AreDigits under.now }
    requires under_above_zero { 0 < number under.now }
    requires not_long { length over.now + length under.now ≤ max_len }
    ensures { result ≡ outcome_of (parts_of (ratio negative over.now under.now)) }
{
    if is_zero(over) {
        return Ok(Frac::zero());
    }
    match ratio_parts(over, under) {
        Some((over, under)) => Ok(Frac::reduced(negative, over, under)),
        None => Err(NumFault::TooWide {
            negative,
            huge: is_huge_ratio(over, under),
        }),
    }
}

/// Both numbers, where they are below the limit.
fn ratio_parts(over: &[u8], under: &[u8]) -> Option<(u128, u128)>
    requires over_digits { AreDigits over.now }
    requires under_digits { AreDigits under.now }
    ensures { SomeIff result ((number over.now < limit) × (number under.now < limit)) (number over.now, number under.now) }
{
    Some((number_after(0, over)?, number_after(0, under)?))
}

/// Whether the number of the first digits is at least 10^20 times that of the others, by the digits alone.
fn is_huge_ratio(over: &[u8], under: &[u8]) -> bool
    requires over_digits { AreDigits over.now }
    requires under_digits { AreDigits under.now }
    requires over_above_zero { 0 < number over.now }
    requires under_above_zero { 0 < number under.now }
    requires not_long { length over.now + length under.now ≤ max_len }
    ensures { IsTrue result ↔ (number under.now * HUGE ≤ number over.now) }
{
    let over = without_first_zeros(over);
    let under = without_first_zeros(under);
    let len = under.len() + HUGE_TENS;
    over.len() > len || over.len() == len && is_at_least(&over[..under.len()], under)
}

/// Whether the first of two numbers of as many digits is at least the second.
fn is_at_least(left: &[u8], right: &[u8]) -> bool
    requires left_digits { AreDigits left.now }
    requires right_digits { AreDigits right.now }
    requires same_len { length left.now ≡ length right.now }
    ensures { IsTrue result ↔ (number right.now ≤ number left.now) }
{
    left.cmp(right).is_ge()
}
