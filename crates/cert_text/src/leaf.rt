//! Nodes of a tree, as far as their lines have come.

ghost use Rattle.std.specs.Prelude.{◌≡◌, ◌++◌, ◌∷◌, [], IfOk};
ghost use Rattle.cert_text.specs.Stages.{last_place, may_follow, node_begun, weights_with, with_weight};

use crate::entry::{Claim, Entry, Side};
use base_names::{NoMemory, Seq};
use model_data::{CertNode, Weight, Weights};
use std::alloc::Global;

/// The list with one more item behind it.
pub(crate) fn more<T: Drop>(items: Seq<T>, item: T) -> Result<Seq<T>, NoMemory>
    ensures { IfOk result (λ longer. longer ≡ items ++ item ∷ []) }
{
    let mut items = items.into_vec();
    items.push(item)?;
    Ok(Seq::of(items))
}

/// The node that begins with the line, if one does.
pub(crate) fn node_begun(alloc: Global, entry: Entry) -> Option<CertNode>
    ensures { result ≡ node_begun entry }
{
    match entry {
        Entry::Split(var, at) => Some(CertNode::Split(var, at)),
        Entry::Leaf(Claim::Bound) => Some(CertNode::Bound(no_weights(alloc))),
        Entry::Leaf(Claim::Farkas) => Some(CertNode::Farkas(no_weights(alloc))),
        _ => None,
    }
}

fn no_weights(alloc: Global) -> Weights
    ensures { result ≡ record { rows = []; lows = []; ups = [] } }
{
    Weights {
        rows: Seq::of(Vec::new(alloc)),
        lows: Seq::of(Vec::new(alloc)),
        ups: Seq::of(Vec::new(alloc)),
    }
}

/// The node with one more weight. `None`: the weight can't stand there.
pub(crate) fn with_weight(
    node: CertNode,
    side: Side,
    weight: Weight,
) -> Result<Option<CertNode>, NoMemory>
    ensures { IfOk result (λ node'. node' ≡ with_weight node side weight) }
{
    match node {
        CertNode::Split(_, _) => Ok(None),
        CertNode::Bound(weights) => Ok(weights_with(weights, side, weight)?.map(CertNode::Bound)),
        CertNode::Farkas(weights) => Ok(weights_with(weights, side, weight)?.map(CertNode::Farkas)),
    }
}

/// Rows come before lower bounds, and these before upper ones. The numbers of each rise.
fn weights_with(weights: Weights, side: Side, weight: Weight) -> Result<Option<Weights>, NoMemory>
    ensures { IfOk result (λ longer. longer ≡ weights_with weights side weight) }
{
    let Weights { rows, lows, ups } = weights;
    match side {
        Side::Row if lows.is_empty() && ups.is_empty() && may_follow(&rows, &weight) => {
            Ok(Some(Weights {
                rows: more(rows, weight)?,
                lows,
                ups,
            }))
        }
        Side::Lower if ups.is_empty() && may_follow(&lows, &weight) => Ok(Some(Weights {
            rows,
            lows: more(lows, weight)?,
            ups,
        })),
        Side::Upper if may_follow(&ups, &weight) => Ok(Some(Weights {
            rows,
            lows,
            ups: more(ups, weight)?,
        })),
        _ => Ok(None),
    }
}

/// Whether a weight isn't 0 and has a number above the last one's, and above 0.
fn may_follow(weights: &Seq<Weight>, weight: &Weight) -> bool
    ensures { result ≡ may_follow weights.now weight.now }
{
    last_place(weights.as_slice()) < weight.place && !weight.weight.is_zero()
}

fn last_place(weights: &[Weight]) -> u32
    ensures { result ≡ last_place weights.now }
{
    match weights.last() {
        Some(weight) => weight.place,
        None => 0,
    }
}
