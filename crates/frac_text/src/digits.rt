//! Runs of decimal digits, as slices.
ghost use Rattle.std.specs.Prelude.{◌≡◌, ◌+◌, ◌-◌, ◌*◌, ◌^◌, ◌<◌, ◌≤◌, ◌↔◌, ◌++◌, IsTrue, length};
ghost use Rattle.std.specs.Option.{SomeIff};
ghost use Rattle.frac128.specs.Numbers.{limit};
ghost use Rattle.frac_text.specs.Digits.{behind_digits, front_digits, number, number_after, without_first_zeros, without_last_zeros};
ghost use Rattle.frac_text.specs.Grammar.{AreDigits};

use frac128::LIMIT;

/// The digits at the front, and the bytes behind them.
pub(crate) fn split_digits(bytes: &[u8]) -> (&[u8], &[u8])
    ensures front { result.0.now ≡ front_digits bytes.now }
    ensures behind { result.1.now ≡ behind_digits bytes.now }
    ensures are_digits { AreDigits result.0.now }
    ensures same_len { length result.0.now + length result.1.now ≡ length bytes.now }
{
    let mut len = 0;
    while len < bytes.len() && bytes[len].is_ascii_digit() {
        len += 1;
    }
    bytes.split_at(len)
}

/// Whether each byte is a digit.
pub(crate) fn are_digits(bytes: &[u8]) -> bool
    ensures { IsTrue result ↔ AreDigits bytes.now }
{
    bytes.iter().all(|byte| byte.is_ascii_digit())
}

/// The digits without the zeros at their end.
pub(crate) fn without_last_zeros(digits: &[u8]) -> &[u8]
    ensures { result.now ≡ without_last_zeros digits.now }
{
    let mut len = digits.len();
    while len > 0 && digits[len - 1] == b'0' {
        len -= 1;
    }
    &digits[..len]
}

/// The number that the digits spell behind those of `front`, where it is below the limit.
pub(crate) fn number_after(front: u128, digits: &[u8]) -> Option<u128>
    requires front_fits { front < limit }
    requires are_digits { AreDigits digits.now }
    ensures { SomeIff result (number_after front digits.now < limit) (number_after front digits.now) }
{
    let mut number = front;
    for digit in digits {
        number = with_digit(number, *digit)?;
    }
    Some(number)
}

/// The number that the one run of digits spells with the other behind it, where it is below the limit.
pub(crate) fn joined_number(whole: &[u8], behind: &[u8]) -> Option<u128>
    requires whole_digits { AreDigits whole.now }
    requires behind_digits { AreDigits behind.now }
    ensures { SomeIff result (number (whole.now ++ behind.now) < limit) (number (whole.now ++ behind.now)) }
{
    let front = number_after(0, whole)?;
    number_after(front, behind)
}

/// The number with one more digit behind it, where it is below the limit.
fn with_digit(number: u128, digit: u8) -> Option<u128>
    requires number_fits { number < limit }
    requires at_least_zero { 48 ≤ digit }
    requires at_most_nine { digit ≤ 57 }
    ensures { SomeIff result (number * 10 + (digit - 48) < limit) (number * 10 + (digit - 48)) }
{
    match number
        .checked_mul(10)?
        .checked_add(u128::from(digit - b'0'))
    {
        Some(longer) if longer < LIMIT => Some(longer),
        _ => None,
    }
}

/// `number * 10^tens`, where it is below the limit.
pub(crate) fn with_zeros(number: u128, tens: usize) -> Option<u128>
    requires fits { number < limit }
    requires above_zero { 0 < number }
    ensures { SomeIff result (number * 10 ^ tens < limit) (number * 10 ^ tens) }
{
    let mut longer = number;
    for _ in 0..tens {
        longer = with_digit(longer, b'0')?;
    }
    Some(longer)
}

/// The digits without the zeros in front.
pub(crate) fn without_first_zeros(digits: &[u8]) -> &[u8]
    ensures { result.now ≡ without_first_zeros digits.now }
{
    let mut zeros = 0;
    while zeros < digits.len() && digits[zeros] == b'0' {
        zeros += 1;
    }
    &digits[zeros..]
}

/// Whether the digits spell 0.
pub(crate) fn is_zero(digits: &[u8]) -> bool
    requires { AreDigits digits.now }
    ensures { IsTrue result ↔ (number digits.now ≡ 0) }
{
    without_first_zeros(digits).is_empty()
}

/// How many digits there are from the first that isn't 0 on, in the one run behind the other.
pub(crate) fn significant_len(whole: &[u8], behind: &[u8]) -> usize
    requires { length whole.now + length behind.now < 2 ^ 64 }
    ensures { result ≡ length (without_first_zeros (whole.now ++ behind.now)) }
{
    let significant = without_first_zeros(whole);
    if significant.is_empty() {
        without_first_zeros(behind).len()
    } else {
        significant.len() + behind.len()
    }
}
