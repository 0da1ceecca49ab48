//! Trees that are one long path, down which nothing may go by calls.

use crate::runs::{cut, solved};
use model_data::{Cert, CertNode, Params};
use std::process::Abort;
use std::test::Fail;

/// Whole numbers that are a half apart. The lower part of each split is split again, until x is below its bound, and each upper
/// part has no point.
const DOWN: &str = "Maximize\n x\nSubject To\n 2 x - 2 y = 1\n x <= 5000\nGenerals\n x y\nEnd\n";

fn is_split(node: &CertNode) -> bool {
    match node {
        CertNode::Split(_, _) => true,
        CertNode::Bound(_) | CertNode::Farkas(_) => false,
    }
}

/// Ten thousand splits, one below the other, and a leaf more behind them.
#[test]
fn a_path_of_ten_thousand_splits(rt: HostRuntime) -> Result<(), Fail> {
    let alloc = rt.alloc();
    let params = Params {
        nodes: 30_000,
        ..Params::usual()
    };
    let (found, cert) = solved(&rt, alloc, DOWN, params)?;
    assert_eq!(rt; (found.status, found.nodes), (3, 20_001));
    let Cert::Tree(nodes) = &cert else {
        return Err("no tree")?;
    };
    let nodes = nodes.as_slice();
    assert_eq!(rt; nodes.len(), 20_001);
    assert_eq!(rt; nodes.iter().position(|node| !is_split(node)), Some(10_000));
    Ok(())
}

/// Cut in the depth of the path: thousands of nodes still wait.
#[test]
fn a_cut_far_down(rt: HostRuntime) -> Result<(), Fail> {
    let alloc = rt.alloc();
    let (found, cert) = cut(&rt, alloc, DOWN, 24_000)?;
    assert_eq!(rt; found.status, 11);
    assert_eq!(rt; found.pivots.checked_add(found.nodes), Some(24_000));
    assert_eq!(rt; cert, Cert::Nothing);
    Ok(())
}
