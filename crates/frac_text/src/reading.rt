//! Number texts, read from the left.
ghost use Rattle.std.specs.Prelude.{◌≡◌, ◌+◌, ◌^◌, ◌<◌, ◌≤◌, Err, IfSome, length};
ghost use Rattle.frac_text.specs.Digits.{number};
ghost use Rattle.frac_text.specs.Grammar.{AreDigits, Spells, max_exponent_len, max_len};
ghost use Rattle.frac_text.specs.Reading.{behind_sign, decimal_of, digits_of_exponent, exponent_of, is_negative, outcome_or_fault, ratio_of, reading, unsigned_number};
ghost use Rattle.frac_text.specs.Number.{IsInExponents, Number, outcome_of, parts_of};
ghost use Rattle.frac128.specs.Numbers.{signed};

use crate::digits::{are_digits, is_zero, number_after, split_digits};
use crate::fault::NumFault;
use crate::parts::{decimal_value, ratio_value};
use frac128::Frac;

/// The longest number text.
const MAX_LEN: usize = 255;

/// The most digits of an exponent.
const MAX_EXPONENT_LEN: usize = 4;

/// The value of a number text.
///
/// `NotNumber` comes exactly where the text is none, and `TooWide` exactly where a part of it, as it is written, reaches
/// 2^127 and its value isn't 0.
pub fn read(text: &[u8]) -> Result<Frac, NumFault>
    ensures computed { result ≡ reading text.now }
    ensures spelled { (n : Number) → Spells text.now n → result ≡ outcome_of (parts_of n) }
    ensures unspelled { ((n : Number) → Spells text.now n → ⊥) → result ≡ Err NumFault.NotNumber }
{
    if text.len() > MAX_LEN {
        return Err(NumFault::NotNumber);
    }
    let (negative, body) = split_sign(text);
    read_unsigned(negative, body)
}

/// The value with this sign of a number text that has no sign in front.
fn read_unsigned(negative: bool, body: &[u8]) -> Result<Frac, NumFault>
    requires { length body.now ≤ max_len }
    ensures { result ≡ outcome_or_fault (unsigned_number negative body.now) }
{
    let (digits, rest) = split_digits(body);
    match rest {
        [b'/', under @ ..] => read_ratio(negative, digits, under),
        [b'.', rest @ ..] => {
            let (behind, rest) = split_digits(rest);
            read_decimal(negative, digits, behind, rest)
        }
        _ => read_decimal(negative, digits, &[], rest),
    }
}

/// Whether a minus stands in front, and the bytes without a sign in front.
fn split_sign(bytes: &[u8]) -> (bool, &[u8])
    ensures negative { result.0 ≡ is_negative bytes.now }
    ensures behind { result.1.now ≡ behind_sign bytes.now }
    ensures len { length result.1.now ≤ length bytes.now }
{
    match bytes {
        [b'+', rest @ ..] => (false, rest),
        [b'-', rest @ ..] => (true, rest),
        _ => (false, bytes),
    }
}

fn read_ratio(negative: bool, over: &[u8], under: &[u8]) -> Result<Frac, NumFault>
    requires over_digits { AreDigits over.now }
    requires not_long { length over.now + length under.now ≤ max_len }
    ensures { result ≡ outcome_or_fault (ratio_of negative over.now under.now) }
{
    if over.is_empty() || !are_digits(under) || is_zero(under) {
        return Err(NumFault::NotNumber);
    }
    ratio_value(negative, over, under)
}

fn read_decimal(negative: bool, whole: &[u8], behind: &[u8], rest: &[u8]) -> Result<Frac, NumFault>
    requires whole_digits { AreDigits whole.now }
    requires behind_digits { AreDigits behind.now }
    requires not_long { length whole.now + length behind.now ≤ max_len }
    ensures { result ≡ outcome_or_fault (decimal_of negative whole.now behind.now rest.now) }
{
    if whole.is_empty() && behind.is_empty() {
        return Err(NumFault::NotNumber);
    }
    match read_exponent(rest) {
        Some(exponent) => decimal_value(negative, whole, behind, exponent),
        None => Err(NumFault::NotNumber),
    }
}

/// The exponent behind the digits, 0 where nothing stands there.
fn read_exponent(bytes: &[u8]) -> Option<i64>
    ensures value { result ≡ exponent_of bytes.now }
    ensures range { IfSome result IsInExponents }
{
    match bytes {
        [] => Some(0),
        [b'e' | b'E', rest @ ..] => {
            let (negative, digits) = split_sign(rest);
            exponent_value(negative, digits)
        }
        _ => None,
    }
}

fn exponent_value(negative: bool, digits: &[u8]) -> Option<i64>
    ensures value { result ≡ digits_of_exponent negative digits.now }
    ensures range { IfSome result IsInExponents }
{
    if !are_digits(digits) || digits.is_empty() || digits.len() > MAX_EXPONENT_LEN {
        return None;
    }
    let size = number_after(0, digits)?;
    Some(signed_exponent(negative, size))
}

fn signed_exponent(negative: bool, size: u128) -> i64
    requires { size < 10 ^ max_exponent_len }
    ensures value { result ≡ signed negative size }
    ensures range { IsInExponents result }
{
    let exponent = size as i64;
    if negative { -exponent } else { exponent }
}
