//! Relaxations pivot by pivot, with what is read off their ends, worked out by hand.
ghost use Rattle.std.specs.Prelude.{◌≡◌, IfOk, IsTrue};
ghost use Rattle.solve_defs.specs.Path.{an_end, coming};
ghost use Rattle.simplex_rule.specs.OnPath.{IsOnPath};

use crate::dictionaries::{Program, is_ratio, std_of};
use base_names::NoMemory;
use dictionary::Std;
use frac128::Frac;
use lp_certs::{dual_of, farkas_of, point_of, ray_of};
use sample_models::Ratio;
use simplex_rule::{Coming, LpRun};
use solve_defs::LpEnd;
use std::alloc::Global;
use std::process::Abort;
use std::test::Fail;

fn started(rt: &impl Abort, alloc: Global, s: Std) -> Result<LpRun, NoMemory>
    ensures { IfOk result IsOnPath }
{
    let columns = s.obj.len();
    assert!(rt; columns < 9 && s.rows.len() < 9);
    assert!(rt;
        s.rows
            .as_slice()
            .iter()
            .all(|row| row.coefs.len() == columns)
    );
    LpRun::start(alloc, s)
}

/// Whether a pivot of this work came next, and was made.
fn pivoted(run: &mut LpRun, work: u64) -> bool
    requires { IsOnPath run.old }
    ensures { IsTrue result → IsOnPath run.new }
{
    if run.next_work() != Some(work) {
        return false;
    }
    match run.coming() {
        Coming::Pivot(entering) => run.pivot(entering).is_ok(),
        Coming::End(_) => false,
    }
}

fn ended(run: &LpRun, end: LpEnd) -> bool
    ensures { IsTrue result → coming run.now ≡ an_end end }
{
    match run.coming() {
        Coming::Pivot(_) => false,
        Coming::End(own) => own == end,
    }
}

fn are_ratios(values: &[Frac], expected: &[Ratio]) -> bool {
    if values.len() != expected.len() {
        return false;
    }
    for (value, ratio) in values.iter().zip(expected) {
        if !is_ratio(value, *ratio) {
            return false;
        }
    }
    true
}

const ZEROS: &[Ratio] = &[(0, 1), (0, 1)];

/// Maximize x + y, where 2 x + y and x + 3 y are at most 4 and 6.
const BEST: Program = Program {
    rows: &[[(2, 1), (1, 1), (4, 1)], [(1, 1), (3, 1), (6, 1)]],
    obj: [(1, 1), (1, 1), (0, 1)],
};

/// Whether it is at a best end with this point and these weights of rows.
fn is_best(alloc: Global, run: &LpRun, xs: &[Ratio], ys: &[Ratio]) -> Result<bool, NoMemory>
    requires { IsOnPath run.now }
{
    if !ended(run, LpEnd::Best) {
        return Ok(false);
    }
    let point = point_of(alloc, run.tableau())?;
    let duals = dual_of(alloc, run.tableau())?;
    Ok(
        are_ratios(point.as_slice(), xs)
            && are_ratios(duals.ys.as_slice(), ys)
            && are_ratios(duals.reduced.as_slice(), ZEROS),
    )
}

#[test]
fn best(rt: HostRuntime) -> Result<(), Fail> {
    let mut run = started(&rt, rt.alloc(), std_of(rt.alloc(), &BEST)?)?;
    assert!(rt; pivoted(&mut run, 9));
    assert!(rt; pivoted(&mut run, 9));
    assert!(rt; is_best(rt.alloc(), &run, &[(6, 5), (8, 5)], &[(2, 5), (1, 5)])?);
    Ok(())
}

/// x + y is at most 1 and at least 3.
const NO_POINT: Program = Program {
    rows: &[[(1, 1), (1, 1), (1, 1)], [(-1, 1), (-1, 1), (-3, 1)]],
    obj: [(1, 1), (1, 1), (0, 1)],
};

fn has_no_point(alloc: Global, run: &LpRun, ys: &[Ratio]) -> Result<bool, NoMemory>
    requires { IsOnPath run.now }
{
    if !ended(run, LpEnd::NoPoint) {
        return Ok(false);
    }
    let duals = farkas_of(alloc, run.tableau())?;
    Ok(are_ratios(duals.ys.as_slice(), ys) && are_ratios(duals.reduced.as_slice(), ZEROS))
}

#[test]
fn no_point(rt: HostRuntime) -> Result<(), Fail> {
    let mut run = started(&rt, rt.alloc(), std_of(rt.alloc(), &NO_POINT)?)?;
    assert!(rt; pivoted(&mut run, 16));
    assert!(rt; pivoted(&mut run, 16));
    assert!(rt; has_no_point(rt.alloc(), &run, &[(1, 2), (1, 2)])?);
    Ok(())
}

/// Maximize x + y, where x less y is at most 1: from (1, 0) both rise alike.
const UNBOUNDED: Program = Program {
    rows: &[[(1, 1), (-1, 1), (1, 1)]],
    obj: [(1, 1), (1, 1), (0, 1)],
};

fn rises(alloc: Global, run: &LpRun, point: &[Ratio], ray: &[Ratio]) -> Result<bool, NoMemory>
    requires { IsOnPath run.now }
{
    if !ended(run, LpEnd::Unbounded) {
        return Ok(false);
    }
    let end = ray_of(alloc, run.tableau())?;
    Ok(are_ratios(end.point.as_slice(), point) && are_ratios(end.ray.as_slice(), ray))
}

#[test]
fn unbounded(rt: HostRuntime) -> Result<(), Fail> {
    let mut run = started(&rt, rt.alloc(), std_of(rt.alloc(), &UNBOUNDED)?)?;
    assert!(rt; pivoted(&mut run, 6));
    assert!(rt; rises(rt.alloc(), &run, &[(1, 1), (0, 1)], &[(1, 1), (1, 1)])?);
    Ok(())
}
