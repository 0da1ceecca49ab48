//! Worked models with certificates, and what is wrong in some that are changed, by the rules in `docs/SOLVER.md`.
ghost use Rattle.model_data.specs.Lawful.{IsLawful};

use base_names::NoMemory;
use cert_check::{Place, Verdict, check};
use cert_text::{Proof, read};
use frac128::{Frac, Op, Wide};
use lp_parse::parse;
use model_data::{Cert, Model};
use std::alloc::Global;
use std::process::Abort;
use std::test::Fail;

/// What is answered for a certificate of a model, both as texts.
fn verdict(rt: &impl Abort, alloc: Global, model: &str, proof: &str) -> Result<Verdict, Fail> {
    assert!(rt; model.len() < 10_000);
    assert!(rt; proof.len() < 10_000);
    let Ok(model) = parse(alloc, model.as_bytes()) else {
        return Err("the text is no model".into());
    };
    let Ok(proof) = read(alloc, proof.as_bytes()) else {
        return Err("the text is no certificate".into());
    };
    Ok(checked(rt, alloc, &model, &proof)?)
}

fn checked(
    rt: &impl Abort,
    alloc: Global,
    model: &Model,
    proof: &Proof,
) -> Result<Verdict, NoMemory>
    requires { IsLawful model.now }
{
    match &proof.cert {
        Cert::Tree(nodes) => {
            assert!(rt; nodes.len() < 10_000);
            check(alloc, model, &proof.outcome, &proof.cert)
        }
        Cert::Ray(_, _) | Cert::Nothing => check(alloc, model, &proof.outcome, &proof.cert),
    }
}

/// At least 3, of two variables of at most 1 each.
const TOO_FEW: &str = "Minimize\n x\nSubject To\n x + y >= 3\nBounds\n x <= 1\n y <= 1\nEnd\n";

/// The best whole point is (1, 1).
const PLAN: &str =
    "Maximize\n x + y\nSubject To\n 2 x + y <= 4\n x + 3 y <= 6\nGenerals\n x\n y\nEnd\n";

const FREE: &str = "Maximize\n x\nSubject To\nEnd\n";

const CYCLING: &str =
    "Minimize\n -0.75 x1 + 20 x2 - 0.5 x3 + 6 x4\nSubject To\n c1: 0.25 x1 - 8 x2 - x3 + 9 x4 <= 0\n c2: 0.5 x1 - 12 x2 - 0.5 x3 + 3 x4 <= 0\n c3: x3 <= 1\nEnd\n";

/// An integer variable that nothing depends on.
const IDLE: &str = "Minimize\n 0 x\nSubject To\nGenerals\n x\nEnd\n";

const WIDE_ROWS: &str = "Maximize\n x + y\nSubject To\n 1e30 x + y <= 1\n x + 1e30 y <= 1\nEnd\n";

static VALID: [(&str, &str); 8] = [
    (
        TOO_FEW,
        "OUTCOME 3 3 1 60\nFARKAS\nR 1 -1/3\nU 1 1/3\nU 2 1/3\nEND\n",
    ),
    (
        PLAN,
        "OUTCOME 2 9 5 102\nVALUE 2\nX 1\nX 1\nSPLIT 1 1\nSPLIT 2 1\nBOUND\nU 1 1\nU 2 1\nBOUND\nR 2 1\nL 2 2\nBOUND\nR 1 1\nL 1 1\nEND\n",
    ),
    (PLAN, "OUTCOME 8 0 0 0\nVALUE 1\nX 0\nX 1\nNONE\nEND\n"),
    (FREE, "OUTCOME 5 0 1 0\nRAY\nP 0\nD 1\nEND\n"),
    (
        CYCLING,
        "OUTCOME 2 6 1 120\nVALUE -5/4\nX 1\nX 0\nX 1\nX 0\nBOUND\nR 2 3/2\nR 3 5/4\nL 2 2\nL 4 21/2\nEND\n",
    ),
    (FREE, "OUTCOME 99 0 0 0\nNONE\nEND\n"),
    (
        IDLE,
        "OUTCOME 2 0 1 0\nVALUE 0\nX 0\nSPLIT 1 -3\nBOUND\nBOUND\nEND\n",
    ),
    (WIDE_ROWS, "OUTCOME 12 0 0 0\nWIDE 1 DIV 1 0\nNONE\nEND\n"),
];

static INVALID: [(&str, &str, Place); 22] = [
    // The shape.
    (FREE, "OUTCOME 5 0 1 0\nNONE\nEND\n", Place::Shape),
    (FREE, "OUTCOME 4 0 1 0\nRAY\nP 0\nD 1\nEND\n", Place::Shape),
    (
        FREE,
        "OUTCOME 7 0 1 0\nVALUE 0\nX 0\nX 0\nNONE\nEND\n",
        Place::Shape,
    ),
    (
        IDLE,
        "OUTCOME 2 0 1 0\nVALUE 0\nX 0\nSPLIT 0 1\nBOUND\nBOUND\nEND\n",
        Place::Shape,
    ),
    (
        IDLE,
        "OUTCOME 2 0 1 0\nVALUE 0\nX 0\nSPLIT 1 -170141183460469231731687303715884105728\nBOUND\nBOUND\nEND\n",
        Place::Shape,
    ),
    (
        TOO_FEW,
        "OUTCOME 3 3 1 60\nBOUND\nR 1 -1/3\nU 1 1/3\nU 2 1/3\nEND\n",
        Place::Shape,
    ),
    (
        TOO_FEW,
        "OUTCOME 3 3 1 60\nFARKAS\nR 2 -1/3\nEND\n",
        Place::Shape,
    ),
    // The point.
    (
        PLAN,
        "OUTCOME 7 0 0 0\nVALUE 3\nX 1\nX 2\nNONE\nEND\n",
        Place::PointRow(2),
    ),
    (
        TOO_FEW,
        "OUTCOME 7 0 0 0\nVALUE 2\nX 2\nX 1\nNONE\nEND\n",
        Place::PointBound(1),
    ),
    (
        PLAN,
        "OUTCOME 7 0 0 0\nVALUE 1/2\nX 0\nX 1/2\nNONE\nEND\n",
        Place::PointInteger(2),
    ),
    (
        PLAN,
        "OUTCOME 7 0 0 0\nVALUE 2\nX 0\nX 1\nNONE\nEND\n",
        Place::PointValue,
    ),
    // A leaf.
    (
        TOO_FEW,
        "OUTCOME 3 3 1 60\nFARKAS\nR 1 1/3\nU 1 1/3\nU 2 1/3\nEND\n",
        Place::LeafSign(1, 0, 1),
    ),
    (
        FREE,
        "OUTCOME 3 0 1 0\nFARKAS\nL 1 -1\nEND\n",
        Place::LeafSign(1, 1, 1),
    ),
    (
        FREE,
        "OUTCOME 3 0 1 0\nFARKAS\nU 1 1\nEND\n",
        Place::LeafSign(1, 2, 1),
    ),
    (
        TOO_FEW,
        "OUTCOME 3 3 1 60\nFARKAS\nR 1 -1/3\nU 1 1/3\nU 2 1/4\nEND\n",
        Place::LeafSum(1, 2),
    ),
    (
        PLAN,
        "OUTCOME 2 9 5 102\nVALUE 2\nX 1\nX 1\nSPLIT 1 1\nSPLIT 2 1\nBOUND\nU 1 1\nU 2 1\nBOUND\nR 2 1\nL 2 2\nBOUND\nR 1 2\nL 1 3\nEND\n",
        Place::LeafSum(3, 2),
    ),
    (
        TOO_FEW,
        "OUTCOME 3 3 1 60\nFARKAS\nEND\n",
        Place::LeafSide(1),
    ),
    // The upper part of a split begins at 2. At 1, the side would be 3.
    (
        PLAN,
        "OUTCOME 2 9 5 102\nVALUE 2\nX 1\nX 1\nSPLIT 1 0\nSPLIT 2 1\nBOUND\nU 1 1\nU 2 1\nBOUND\nR 2 1\nL 2 2\nBOUND\nR 1 1\nL 1 1\nEND\n",
        Place::LeafSide(3),
    ),
    // A sum that doesn't fit, behind one that doesn't hold.
    (
        "Maximize\n x\nSubject To\n c: x + 1e30 y <= 1\nEnd\n",
        "OUTCOME 3 0 1 0\nFARKAS\nR 1 1000000000000000000000000000000\nEND\n",
        Place::LeafSum(1, 1),
    ),
    // A ray.
    (
        "Maximize\n 1e30 x\nSubject To\n c: 1e30 x + y <= 1\nEnd\n",
        "OUTCOME 5 0 0 0\nRAY\nP 1\nP 0\nD 1000000000000000000000000000000\nD 0\nEND\n",
        Place::RayRow(1),
    ),
    (
        FREE,
        "OUTCOME 5 0 1 0\nRAY\nP 0\nD -1\nEND\n",
        Place::RayBound(1),
    ),
    (
        FREE,
        "OUTCOME 5 0 1 0\nRAY\nP 0\nD 0\nEND\n",
        Place::RayGain,
    ),
];

static TOO_WIDE: [(&str, &str, Op, i128, i128); 4] = [
    (
        WIDE_ROWS,
        "OUTCOME 7 0 0 0\nVALUE 0\nX 1000000000000000000000000000000\nX 0\nNONE\nEND\n",
        Op::Mul,
        1_000_000_000_000_000_000_000_000_000_000,
        1_000_000_000_000_000_000_000_000_000_000,
    ),
    // In a leaf the weight is the left factor.
    (
        "Maximize\n 0 x\nSubject To\n c: 1e30 y <= 1\nEnd\n",
        "OUTCOME 3 0 1 0\nFARKAS\nR 1 2000000000000000000000000000000\nEND\n",
        Op::Mul,
        2_000_000_000_000_000_000_000_000_000_000,
        1_000_000_000_000_000_000_000_000_000_000,
    ),
    // To enter an upper part 1 is added.
    (
        IDLE,
        "OUTCOME 2 0 1 0\nVALUE 0\nX 0\nSPLIT 1 170141183460469231731687303715884105727\nBOUND\nBOUND\nEND\n",
        Op::Add,
        170_141_183_460_469_231_731_687_303_715_884_105_727,
        1,
    ),
    // A lower weight is taken off.
    (
        "Minimize\n 0 x\nSubject To\n c: x <= 1\nBounds\n -10 <= x <= 10\nEnd\n",
        "OUTCOME 3 0 1 0\nFARKAS\nL 1 170141183460469231731687303715884105727\nU 1 170141183460469231731687303715884105727\nEND\n",
        Op::Mul,
        170_141_183_460_469_231_731_687_303_715_884_105_727,
        -10,
    ),
];

#[test]
fn worked_certificates_are_valid(rt: HostRuntime) -> Result<(), Fail> {
    for (model, proof) in VALID.iter() {
        let found = verdict(&rt, rt.alloc(), model, proof)?;
        assert_eq!(rt; found, Verdict::Valid, "{model} {proof}");
    }
    Ok(())
}

#[test]
fn the_first_failing_place_is_told(rt: HostRuntime) -> Result<(), Fail> {
    for (model, proof, place) in INVALID.iter() {
        let found = verdict(&rt, rt.alloc(), model, proof)?;
        assert_eq!(rt; found, Verdict::Invalid(*place), "{model} {proof}");
    }
    Ok(())
}

#[test]
fn the_first_refused_operation_is_told(rt: HostRuntime) -> Result<(), Fail> {
    for (model, proof, op, left, right) in TOO_WIDE.iter() {
        let wide = Wide {
            op: *op,
            left: Frac::make(*left, 1).ok_or("no fraction")?,
            right: Frac::make(*right, 1).ok_or("no fraction")?,
        };
        let found = verdict(&rt, rt.alloc(), model, proof)?;
        assert_eq!(rt; found, Verdict::TooWide(wide), "{model} {proof}");
    }
    Ok(())
}
