//! How many pivots a whole solve takes at most.
ghost use Rattle.std.specs.Prelude.{◌≡◌, ◌≤◌};
ghost use Rattle.model_data.specs.Lawful.{IsLawful};
ghost use Rattle.model_data.specs.declared.limits.TheConstants.{MAX_ITERATIONS, MAX_NODES};
ghost use Rattle.limit_defs.specs.Limits.{iterations_of, nodes_of};
ghost use Rattle.enough_limits.specs.Bounds.{limited};

use crate::pivots::pivot_bound;
use crate::root::{root_columns, root_rows};
use model_data::{MAX_ITERATIONS, Model};

/// What one relaxation of the model takes at most, in each of so many nodes. None exactly where that is above [`MAX_ITERATIONS`].
pub fn iteration_bound(m: &Model, nodes: u64) -> Option<u64>
    requires lawful { IsLawful m.now }
    requires own { nodes ≡ nodes_of m.now }
    requires most { nodes ≤ MAX_NODES }
    ensures { result ≡ limited MAX_ITERATIONS (iterations_of m.now) }
{
    let pivots = pivot_bound(root_columns(m), root_rows(m))?;
    let product = pivots * nodes;
    if product <= MAX_ITERATIONS {
        Some(product)
    } else {
        None
    }
}
