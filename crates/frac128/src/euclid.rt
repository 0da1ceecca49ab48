//! The order of fractions below 1, by Euclid's algorithm.
ghost use Rattle.std.specs.Prelude.{◌≡◌, ◌*◌, ◌<◌};
ghost use Rattle.std.specs.Ordering.{nat_cmp};

use crate::parts::div_rem;
use std::cmp::Ordering;

/// How a/b compares with c/d, both of which are below 1: by the whole parts of their inverses, and where these are equal by
/// what is left, so that no product is formed.
pub(crate) fn cmp_rests(a: u128, b: u128, c: u128, d: u128) -> Ordering
    requires a_below_b { a < b }
    requires c_below_d { c < d }
    ensures { result ≡ nat_cmp (a * d) (c * b) }
{
    if a == 0 || c == 0 {
        return a.cmp(&c);
    }
    let (whole, rest) = div_rem(d, c);
    let (other_whole, other_rest) = div_rem(b, a);
    if whole != other_whole {
        return whole.cmp(&other_whole);
    }
    cmp_rests(rest, c, other_rest, a)
}
