//! Models worked out by hand, solved to their outcome and their certificate.

use crate::runs::solved;
use base_names::Seq;
use frac128::{Frac, Op, Wide};
use model_data::{Cert, CertNode, Outcome, Params, Point, Weight, Weights, WideAt};
use std::alloc::Global;
use std::test::Fail;

fn frac(num: i128, den: i128) -> Result<Frac, Fail> {
    Ok(Frac::make(num, den).ok_or("no fraction")?)
}

type Ratio = (i128, i128);

fn fracs(alloc: Global, ratios: &[Ratio]) -> Result<Seq<Frac>, Fail> {
    let mut values = Vec::new(alloc);
    for (num, den) in ratios {
        values.push(frac(*num, *den)?)?;
    }
    Ok(Seq::of(values))
}

fn some_weights(alloc: Global, given: &[(u32, Ratio)]) -> Result<Seq<Weight>, Fail> {
    let mut weights = Vec::new(alloc);
    for (place, (num, den)) in given {
        weights.push(Weight {
            place: *place,
            weight: frac(*num, *den)?,
        })?;
    }
    Ok(Seq::of(weights))
}

type Placed<'a> = &'a [(u32, Ratio)];

fn weights(alloc: Global, rows: Placed, lows: Placed, ups: Placed) -> Result<Weights, Fail> {
    Ok(Weights {
        rows: some_weights(alloc, rows)?,
        lows: some_weights(alloc, lows)?,
        ups: some_weights(alloc, ups)?,
    })
}

/// An outcome with these counts of pivots, of nodes and of work.
pub(crate) fn outcome(
    status: u8,
    (pivots, nodes, work): (u64, u64, u64),
    point: Option<Point>,
) -> Outcome {
    Outcome {
        status,
        pivots,
        nodes,
        work,
        point,
        wide: None,
    }
}

pub(crate) fn point(alloc: Global, xs: &[Ratio], (num, den): Ratio) -> Result<Option<Point>, Fail> {
    let xs = fracs(alloc, xs)?;
    Ok(Some(Point {
        xs,
        value: frac(num, den)?,
    }))
}

pub(crate) const TWO_ROWS: &str =
    "Maximize\n x + y\nSubject To\n 2 x + y <= 4\n x + 3 y <= 6\nEnd\n";

pub(crate) const TWO_ROWS_WHOLE: &str =
    "Maximize\n x + y\nSubject To\n 2 x + y <= 4\n x + 3 y <= 6\nGenerals\n x y\nEnd\n";

#[test]
fn a_best_point_with_its_bound(rt: HostRuntime) -> Result<(), Fail> {
    let alloc = rt.alloc();
    let (found, cert) = solved(&rt, alloc, TWO_ROWS, Params::usual())?;
    let best = point(alloc, &[(6, 5), (8, 5)], (14, 5))?;
    assert_eq!(rt; found, outcome(2, (2, 1, 18), best));
    let mut tree = Vec::new(alloc);
    tree.push(CertNode::Bound(weights(alloc, &[(1, (2, 5)), (2, (1, 5))], &[], &[])?))?;
    assert_eq!(rt; cert, Cert::Tree(Seq::of(tree)));
    Ok(())
}

#[test]
fn two_splits_and_points_that_tie(rt: HostRuntime) -> Result<(), Fail> {
    let alloc = rt.alloc();
    let (found, cert) = solved(&rt, alloc, TWO_ROWS_WHOLE, Params::usual())?;
    let best = point(alloc, &[(1, 1), (1, 1)], (2, 1))?;
    assert_eq!(rt; found, outcome(2, (9, 5, 102), best));
    let mut tree = Vec::new(alloc);
    tree.push(CertNode::Split(1, 1))?;
    tree.push(CertNode::Split(2, 1))?;
    tree.push(CertNode::Bound(weights(alloc, &[], &[], &[(1, (1, 1)), (2, (1, 1))])?))?;
    tree.push(CertNode::Bound(weights(alloc, &[(2, (1, 1))], &[(2, (2, 1))], &[])?))?;
    tree.push(CertNode::Bound(weights(alloc, &[(1, (1, 1))], &[(1, (1, 1))], &[])?))?;
    assert_eq!(rt; cert, Cert::Tree(Seq::of(tree)));
    Ok(())
}

#[test]
fn a_binary_model_without_a_point(rt: HostRuntime) -> Result<(), Fail> {
    let alloc = rt.alloc();
    let text = "Minimize\n x\nSubject To\n 2 x = 1\nBinaries\n x\nEnd\n";
    let (found, cert) = solved(&rt, alloc, text, Params::usual())?;
    assert_eq!(rt; found, outcome(3, (5, 3, 75), None));
    let mut tree = Vec::new(alloc);
    tree.push(CertNode::Split(1, 0))?;
    tree.push(CertNode::Farkas(weights(alloc, &[(1, (-1, 3))], &[], &[(1, (2, 3))])?))?;
    tree.push(CertNode::Farkas(weights(alloc, &[(1, (1, 1))], &[(1, (2, 1))], &[])?))?;
    assert_eq!(rt; cert, Cert::Tree(Seq::of(tree)));
    Ok(())
}

#[test]
fn bounds_without_a_point(rt: HostRuntime) -> Result<(), Fail> {
    let alloc = rt.alloc();
    let text = "Minimize\n x\nSubject To\n x + y >= 3\nBounds\n x <= 1\n y <= 1\nEnd\n";
    let (found, cert) = solved(&rt, alloc, text, Params::usual())?;
    assert_eq!(rt; found, outcome(3, (3, 1, 60), None));
    let mut tree = Vec::new(alloc);
    tree.push(CertNode::Farkas(weights(
        alloc,
        &[(1, (-1, 3))],
        &[],
        &[(1, (1, 3)), (2, (1, 3))],
    )?))?;
    assert_eq!(rt; cert, Cert::Tree(Seq::of(tree)));
    Ok(())
}

#[test]
fn rises_without_bound(rt: HostRuntime) -> Result<(), Fail> {
    let alloc = rt.alloc();
    let text = "Maximize\n x\nSubject To\nEnd\n";
    let (found, cert) = solved(&rt, alloc, text, Params::usual())?;
    assert_eq!(rt; found, outcome(5, (0, 1, 0), None));
    let from = fracs(alloc, &[(0, 1)])?;
    assert_eq!(rt; cert, Cert::Ray(from, fracs(alloc, &[(1, 1)])?));
    let text = "Maximize\n x\nSubject To\nGenerals\n x\nEnd\n";
    let (found, cert) = solved(&rt, alloc, text, Params::usual())?;
    assert_eq!(rt; found, outcome(4, (0, 1, 0), None));
    assert_eq!(rt; cert, Cert::Nothing);
    Ok(())
}

#[test]
fn degenerate_pivots_come_to_an_end(rt: HostRuntime) -> Result<(), Fail> {
    let alloc = rt.alloc();
    let text =
        "Minimize\n -0.75 x1 + 20 x2 - 0.5 x3 + 6 x4\nSubject To\n c1: 0.25 x1 - 8 x2 - x3 + 9 x4 <= 0\n c2: 0.5 x1 - 12 x2 - 0.5 x3 + 3 x4 <= 0\n c3: x3 <= 1\nEnd\n";
    let (found, cert) = solved(&rt, alloc, text, Params::usual())?;
    let best = point(alloc, &[(1, 1), (0, 1), (1, 1), (0, 1)], (-5, 4))?;
    assert_eq!(rt; found, outcome(2, (6, 1, 120), best));
    let mut tree = Vec::new(alloc);
    tree.push(CertNode::Bound(weights(
        alloc,
        &[(2, (3, 2)), (3, (5, 4))],
        &[(2, (2, 1)), (4, (21, 2))],
        &[],
    )?))?;
    assert_eq!(rt; cert, Cert::Tree(Seq::of(tree)));
    Ok(())
}

#[test]
fn an_operation_that_does_not_fit(rt: HostRuntime) -> Result<(), Fail> {
    let alloc = rt.alloc();
    let text = "Maximize\n x + y\nSubject To\n 1e30 x + y <= 1\n x + 1e30 y <= 1\nEnd\n";
    let (found, cert) = solved(&rt, alloc, text, Params::usual())?;
    let large = 1_000_000_000_000_000_000_000_000_000_000;
    let wide = Wide {
        op: Op::Sub,
        left: frac(large, 1)?,
        right: frac(1, large)?,
    };
    let mut expected = outcome(12, (0, 0, 0), None);
    expected.wide = Some(WideAt { at: 1, wide });
    assert_eq!(rt; found, expected);
    assert_eq!(rt; cert, Cert::Nothing);
    Ok(())
}
