//! How many nodes the tree of a solve has at most.
ghost use Rattle.std.specs.Prelude.{◌≡◌, ◌*◌, ◌<◌, ◌≤◌, ℕ, IfSome};
ghost use Rattle.limit_defs.specs.Limits.{iterations_of};
ghost use Rattle.model_data.specs.declared.limits.TheConstants.{MAX_ITERATIONS};
ghost use Rattle.enough_limits.specs.Bounds.{limited, node_bound};

use crate::variable::range;
use model_data::{MAX_NODES, Model};

/// The most leaves of a tree whose nodes are within the limit.
const MOST_LEAVES: u64 = MAX_NODES / 2;

/// What bounds the nodes of a tree.
#[derive(Clone, Copy, Debug, PartialEq, Eq)]
pub enum Nodes {
    /// There are at most so many.
    Bound(u64),
    /// The bound is above [`MAX_NODES`].
    Over,
    /// A variable that takes whole numbers alone lacks a bound.
    Open,
}

/// One less than twice the product, over the variables that take whole numbers alone, of how many of these lie between their bounds.
/// It goes over the variables once. Where it is over its limit, so are the pivots of all nodes.
pub fn node_bound(m: &Model) -> Nodes
    ensures value { result ≡ node_bound m.now }
    ensures over { result ≡ Nodes.Over → MAX_ITERATIONS < iterations_of m.now }
{
    let mut leaves = Some(1);
    for var in m.vars.as_slice() {
        let Some(range) = range(var) else {
            return Nodes::Open;
        };
        leaves = times(leaves, range);
    }
    match leaves {
        Some(leaves) => Nodes::Bound(2 * leaves - 1),
        None => Nodes::Over,
    }
}

/// The product, or None where it is above [`MOST_LEAVES`].
fn times(leaves: Option<u64>, range: u128) -> Option<u64>
    requires { IfSome leaves (λ n. n ≤ MOST_LEAVES) }
    ensures value { (x : ℕ) → 1 ≤ x → 1 ≤ range → leaves ≡ limited MOST_LEAVES x → result ≡ limited MOST_LEAVES (x * range) }
    ensures most { IfSome result (λ n. n ≤ MOST_LEAVES) }
{
    let leaves = leaves?;
    if range > u128::from(MOST_LEAVES) {
        return None;
    }
    let product = leaves * range as u64;
    if product <= MOST_LEAVES {
        Some(product)
    } else {
        None
    }
}
