//! Trees, as far as their lines have come.

ghost use Rattle.std.specs.Prelude.{◌≡◌, ◌^◌, ◌<◌, ◌≤◌, IfOk};
ghost use Rattle.cert_text.specs.Stages.{begun_tree, behind_tree, missing_behind};

use crate::entry::Entry;
use crate::leaf::{more, node_begun, with_weight};
use crate::proof::Proof;
use crate::stage::Stage;
use base_names::{NoMemory, Seq};
use model_data::{Cert, CertNode, Outcome};
use std::alloc::Global;

/// The first node.
pub(crate) fn begun_tree(alloc: Global, outcome: Outcome, entry: Entry) -> Option<Stage>
    ensures { result ≡ begun_tree outcome entry }
{
    let node = node_begun(alloc, entry)?;
    let missing = missing_behind(1, &node);
    Some(Stage::Tree(outcome, missing, Seq::of(Vec::new(alloc)), node))
}

/// A weight belongs to the last node. Another node comes only where a subtree is to come, and the end only where none is.
pub(crate) fn behind_tree(
    alloc: Global,
    outcome: Outcome,
    missing: u64,
    nodes: Seq<CertNode>,
    last: CertNode,
    entry: Entry,
) -> Result<Option<Stage>, NoMemory>
    requires { missing < 2 ^ 32 }
    ensures { IfOk result (λ stage. stage ≡ behind_tree outcome missing nodes last entry) }
{
    match entry {
        Entry::Weight(side, weight) => {
            let last = with_weight(last, side, weight)?;
            Ok(last.map(|last| Stage::Tree(outcome, missing, nodes, last)))
        }
        Entry::End if missing == 0 => Ok(Some(Stage::Whole(Proof {
            outcome,
            cert: Cert::Tree(more(nodes, last)?),
        }))),
        Entry::End => Ok(None),
        _ if missing == 0 => Ok(None),
        _ => match node_begun(alloc, entry) {
            Some(node) => {
                let missing = missing_behind(missing, &node);
                Ok(Some(Stage::Tree(outcome, missing, more(nodes, last)?, node)))
            }
            None => Ok(None),
        },
    }
}

/// How many subtrees are to come behind a node.
fn missing_behind(missing: u64, node: &CertNode) -> u64
    requires some { 0 < missing }
    requires fits { missing < 2 ^ 32 }
    ensures { result ≡ missing_behind missing node.now }
{
    match node {
        CertNode::Split(_, _) => missing + 1,
        CertNode::Bound(_) | CertNode::Farkas(_) => missing - 1,
    }
}
