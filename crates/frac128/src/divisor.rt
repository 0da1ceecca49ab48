//! The greatest common divisor, in 64 bits as soon as the numbers allow it.
//!
//! Two odd numbers keep their divisor where the lesser one is taken from the greater one and the rest loses its factors
//! of 2, so no step divides.
ghost use Rattle.std.specs.Prelude.{◌≡◌, ◌*◌, ◌%◌, ◌^◌, ◌<◌};
ghost use Rattle.frac128.specs.Numbers.{gcd};

/// The greatest number of 64 bits.
pub(crate) const NARROW: u128 = u64::MAX as u128;

/// The greatest common divisor, which is 0 where both numbers are.
pub(crate) fn gcd(a: u128, b: u128) -> u128
    ensures { result ≡ gcd a b }
{
    if a == 1 || b == 1 {
        return 1;
    }
    if a <= NARROW && b <= NARROW {
        return narrow_gcd(a as u64, b as u64) as u128;
    }
    if a == 0 || b == 0 {
        return a.max(b);
    }
    if a <= NARROW {
        return narrow_gcd(a as u64, (b % a) as u64) as u128;
    }
    if b <= NARROW {
        return narrow_gcd(b as u64, (a % b) as u64) as u128;
    }
    wide_gcd(a, b)
}

fn wide_gcd(a: u128, b: u128) -> u128
    requires a_above_zero { 0 < a }
    requires b_above_zero { 0 < b }
    ensures { result ≡ gcd a b }
{
    let (odd, twos) = without_twos(a);
    let (other_odd, other_twos) = without_twos(b);
    odd_gcd(odd, other_odd) << twos.min(other_twos)
}

fn narrow_gcd(a: u64, b: u64) -> u64
    ensures { result ≡ gcd a b }
{
    if a == 0 || b == 0 {
        return a.max(b);
    }
    let (odd, twos) = narrow_without_twos(a);
    let (other_odd, other_twos) = narrow_without_twos(b);
    narrow_odd_gcd(odd, other_odd) << twos.min(other_twos)
}

fn odd_gcd(a: u128, b: u128) -> u128
    requires a_odd { a % 2 ≡ 1 }
    requires b_odd { b % 2 ≡ 1 }
    ensures { result ≡ gcd a b }
{
    let mut a = a;
    let mut b = b;
    while a != b {
        if a <= NARROW && b <= NARROW {
            return narrow_odd_gcd(a as u64, b as u64) as u128;
        }
        let least = a.min(b);
        let (rest, _) = without_twos(a.abs_diff(b));
        a = rest;
        b = least;
    }
    a
}

fn narrow_odd_gcd(a: u64, b: u64) -> u64
    requires a_odd { a % 2 ≡ 1 }
    requires b_odd { b % 2 ≡ 1 }
    ensures { result ≡ gcd a b }
{
    let mut a = a;
    let mut b = b;
    while a != b {
        let least = a.min(b);
        let (rest, _) = narrow_without_twos(a.abs_diff(b));
        a = rest;
        b = least;
    }
    a
}

/// The odd part, and how many factors of 2 stand beside it.
fn without_twos(n: u128) -> (u128, u32)
    requires { 0 < n }
    ensures bound { result.1 < 128 }
    ensures odd { result.0 % 2 ≡ 1 }
    ensures whole { result.0 * 2 ^ result.1 ≡ n }
{
    let twos = n.trailing_zeros();
    (n >> twos, twos)
}

/// As `without_twos`.
fn narrow_without_twos(n: u64) -> (u64, u32)
    requires { 0 < n }
    ensures bound { result.1 < 64 }
    ensures odd { result.0 % 2 ≡ 1 }
    ensures whole { result.0 * 2 ^ result.1 ≡ n }
{
    let twos = n.trailing_zeros();
    (n >> twos, twos)
}
