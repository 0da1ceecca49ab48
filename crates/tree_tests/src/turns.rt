//! What turns tell, and solves that limits or a cut end.

use crate::models::{TWO_ROWS, TWO_ROWS_WHOLE, outcome, point};
use crate::runs::{cut, solved, told};
use model_data::{Cert, Params};
use solve_defs::Events;
use std::process::Abort;
use std::test::Fail;

const SILENT: Events = Events {
    simplex: None,
    sol: None,
    node: None,
};

/// Nine pivots and five nodes; the third node has the best point, whose value is 2.
#[test]
fn each_turn_tells_what_it_made(rt: HostRuntime) -> Result<(), Fail> {
    let alloc = rt.alloc();
    let all = told(&rt, alloc, TWO_ROWS_WHOLE, Params::usual())?;
    let mut nodes = Vec::new(alloc);
    let mut sols = Vec::new(alloc);
    for events in &all {
        assert_eq!(rt; events.simplex, None);
        if let Some(node) = events.node {
            nodes.push((node.nodes, node.pivots))?;
        }
        if let Some(sol) = events.sol {
            sols.push((sol.value.num(), sol.value.den(), sol.nodes, sol.pivots))?;
        }
    }
    assert_eq!(rt; all.len(), 14);
    assert_eq!(rt;
        nodes.as_slice(),
        &[(1, 2), (2, 4), (3, 6), (4, 7), (5, 9)][..]
    );
    assert_eq!(rt; sols.as_slice(), &[(2, 1, 3, 6)][..]);
    Ok(())
}

#[test]
fn nothing_is_told_of_a_continuous_model(rt: HostRuntime) -> Result<(), Fail> {
    let alloc = rt.alloc();
    let all = told(&rt, alloc, TWO_ROWS, Params::usual())?;
    assert_eq!(rt; all.as_slice(), &[SILENT, SILENT, SILENT][..]);
    Ok(())
}

#[test]
fn a_limit_on_nodes_keeps_the_point(rt: HostRuntime) -> Result<(), Fail> {
    let alloc = rt.alloc();
    let params = Params {
        nodes: 3,
        ..Params::usual()
    };
    let (found, cert) = solved(&rt, alloc, TWO_ROWS_WHOLE, params)?;
    let best = point(alloc, &[(1, 1), (1, 1)], (2, 1))?;
    assert_eq!(rt; found, outcome(8, (6, 3, 72), best));
    assert_eq!(rt; cert, Cert::Nothing);
    Ok(())
}

/// A pivot's work passes the limit, or reaches it.
#[test]
fn a_limit_on_work(rt: HostRuntime) -> Result<(), Fail> {
    let alloc = rt.alloc();
    let params = Params {
        work: 17,
        ..Params::usual()
    };
    let (found, _cert) = solved(&rt, alloc, TWO_ROWS, params)?;
    assert_eq!(rt; found, outcome(16, (1, 0, 9), None));
    let params = Params {
        work: 18,
        ..Params::usual()
    };
    let (found, _cert) = solved(&rt, alloc, TWO_ROWS, params)?;
    assert_eq!(rt; (found.status, found.work), (2, 18));
    Ok(())
}

#[test]
fn a_cut_before_the_first_turn(rt: HostRuntime) -> Result<(), Fail> {
    let alloc = rt.alloc();
    let (found, cert) = cut(&rt, alloc, TWO_ROWS, 0)?;
    assert_eq!(rt; found, outcome(11, (0, 0, 0), None));
    assert_eq!(rt; cert, Cert::Nothing);
    Ok(())
}

/// Nine turns make six pivots and finish three nodes, the last of them with the best point.
#[test]
fn a_cut_keeps_the_best_point(rt: HostRuntime) -> Result<(), Fail> {
    let alloc = rt.alloc();
    let (found, cert) = cut(&rt, alloc, TWO_ROWS_WHOLE, 9)?;
    let best = point(alloc, &[(1, 1), (1, 1)], (2, 1))?;
    assert_eq!(rt; found, outcome(11, (6, 3, 72), best));
    assert_eq!(rt; cert, Cert::Nothing);
    Ok(())
}
