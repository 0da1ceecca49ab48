//! How many pivots one relaxation takes at most.
ghost use Rattle.std.specs.Prelude.{◌≡◌, ◌+◌, ◌*◌, ◌≤◌, ◌^◌};
ghost use Rattle.model_data.specs.declared.limits.TheConstants.{MAX_ITERATIONS};
ghost use Rattle.limit_defs.specs.Counts.{choose, pivots_within};
ghost use Rattle.enough_limits.specs.Bounds.{limited};

use model_data::MAX_ITERATIONS;

/// Twice the ways to choose `m` of `n + m + 1`: what a relaxation with `n` columns and `m` rows takes at most. None exactly where that is
/// above [`MAX_ITERATIONS`]. It takes at most `m` steps.
pub fn pivot_bound(n: u32, m: u32) -> Option<u64>
    ensures { result ≡ limited MAX_ITERATIONS (pivots_within n m) }
{
    let others = u64::from(n) + 1;
    let rows = u64::from(m);
    if rows <= others {
        twice_the_ways(others, rows)
    } else {
        twice_the_ways(rows, others)
    }
}

/// Twice the ways to choose `few` of `many + few`, or None where that is above [`MAX_ITERATIONS`]. After each step it is that of
/// `many + step`, which only rises.
fn twice_the_ways(many: u64, few: u64) -> Option<u64>
    requires many { many ≤ 2 ^ 32 }
    requires few { few ≤ 2 ^ 32 }
    ensures { result ≡ limited MAX_ITERATIONS (2 * choose (many + few) few) }
{
    let mut twice = 2;
    for step in 0..few {
        twice = twice * (many + step + 1) / (step + 1);
        if twice > MAX_ITERATIONS {
            return None;
        }
    }
    Some(twice)
}
