//! Steps on the parts of fractions, as plain numbers.
ghost use Rattle.std.specs.Prelude.{◌≡◌, ◌+◌, ◌*◌, ◌/◌, ◌%◌, ◌<◌, pos, ◌+ℤ◌, ◌*ℤ◌, unsigned_abs};
ghost use Rattle.std.specs.Option.{SomeIff};
ghost use Rattle.frac128.specs.Numbers.{gcd, limit, signed};
ghost use Rattle.frac128.specs.Parts.{FitsScaledSum};

use crate::divisor::{NARROW, gcd};
use crate::limits::LIMIT;

/// The number with this sign and size.
pub(crate) fn signed(is_negative: bool, size: u128) -> i128
    requires { size < limit }
    ensures value { result ≡ signed is_negative size }
    ensures same_size { unsigned_abs result ≡ size }
{
    let n = size as i128;
    if is_negative { -n } else { n }
}

/// The product, where it is below the limit.
pub(crate) fn product_in(a: u128, b: u128) -> Option<u128>
    ensures { SomeIff result (a * b < limit) (a * b) }
{
    match a.checked_mul(b) {
        Some(product) if product < LIMIT => Some(product),
        _ => None,
    }
}

/// The product, where it is below the limit in size.
pub(crate) fn scaled(n: i128, by: u128) -> Option<i128>
    ensures { SomeIff result (unsigned_abs n * by < limit) (n *ℤ pos by) }
{
    let size = product_in(n.unsigned_abs(), by)?;
    Some(signed(n < 0, size))
}

/// `a * by + b * other_by`, where both products and the sum are below the limit in size.
pub(crate) fn scaled_sum(a: i128, by: u128, b: i128, other_by: u128) -> Option<i128>
    ensures { SomeIff result (FitsScaledSum a by b other_by) (a *ℤ pos by +ℤ b *ℤ pos other_by) }
{
    let left = scaled(a, by)?;
    let right = scaled(b, other_by)?;
    match left.checked_add(right) {
        Some(sum) if sum != i128::MIN => Some(sum),
        _ => None,
    }
}

/// Both numbers without their greatest common divisor.
pub(crate) fn reduced_parts(num: u128, den: u128) -> (u128, u128)
    requires { 0 < den }
    ensures num { result.0 ≡ num / gcd num den }
    ensures den { result.1 ≡ den / gcd num den }
{
    let divisor = gcd(num, den);
    (divided(num, divisor), divided(den, divisor))
}

/// `n / divisor`, with no division where the divisor is 1.
pub(crate) fn divided(n: u128, divisor: u128) -> u128
    requires { 0 < divisor }
    ensures { result ≡ n / divisor }
{
    if divisor == 1 {
        n
    } else {
        div_rem(n, divisor).0
    }
}

/// The quotient and the rest, in 64 bits where the numbers allow it.
pub(crate) fn div_rem(n: u128, divisor: u128) -> (u128, u128)
    requires { 0 < divisor }
    ensures quotient { result.0 ≡ n / divisor }
    ensures rest { result.1 ≡ n % divisor }
    ensures whole { result.0 * divisor + result.1 ≡ n }
    ensures below { result.1 < divisor }
{
    if n <= NARROW && divisor <= NARROW {
        let (n, divisor) = (n as u64, divisor as u64);
        return ((n / divisor) as u128, (n % divisor) as u128);
    }
    (n / divisor, n % divisor)
}

/// The greatest whole number that is at most num / den, and what is left of `num`.
pub(crate) fn whole_and_rest(num: i128, den: u128) -> (i128, u128)
    requires num_fits { unsigned_abs num < limit }
    requires den_above_zero { 0 < den }
    ensures parts { result.0 *ℤ pos den +ℤ pos result.1 ≡ num }
    ensures rest { result.1 < den }
    ensures fits { unsigned_abs result.0 < limit }
{
    let (whole, rest) = div_rem(num.unsigned_abs(), den);
    if num >= 0 {
        (whole as i128, rest)
    } else if rest == 0 {
        (-(whole as i128), 0)
    } else {
        (-(whole as i128) - 1, den - rest)
    }
}
