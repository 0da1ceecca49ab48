//! Worked certificates, read and written again, and texts with a bad line.
ghost use Rattle.std.specs.Prelude.{◌<◌, IfOk, length};
ghost use Rattle.cert_text.specs.Spelling.{IsWritable};

use base_names::OrMemory;
use cert_text::{CertFault, Proof, read, write};
use frac128::Frac;
use model_data::{Cert, CertNode};
use std::alloc::Global;
use std::process::Abort;
use std::test::Fail;

/// What a short text is read as.
fn proof(rt: &impl Abort, alloc: Global, text: &str) -> Result<Proof, OrMemory<CertFault>>
    ensures { IfOk result (λ found. IsWritable found.outcome found.cert) }
{
    assert!(rt; text.len() < 10_000);
    short_proof(alloc, text.as_bytes())
}

/// The same. What is read can be written.
fn short_proof(alloc: Global, text: &[u8]) -> Result<Proof, OrMemory<CertFault>>
    requires { length text.now < 10000 }
    ensures { IfOk result (λ found. IsWritable found.outcome found.cert) }
{
    read(alloc, text)
}

/// A two-row plan, its whole form with two splits, one without a point, an infeasible one, two unbounded ones, one of many
/// zeros, one that doesn't fit, one that was stopped, and the ends of the types.
static TEXTS: [&str; 12] = [
    "OUTCOME 2 2 1 18\nVALUE 14/5\nX 6/5\nX 8/5\nBOUND\nR 1 2/5\nR 2 1/5\nEND\n",
    "OUTCOME 2 9 5 102\nVALUE 2\nX 1\nX 1\nSPLIT 1 1\nSPLIT 2 1\nBOUND\nU 1 1\nU 2 1\nBOUND\nR 2 1\nL 2 2\nBOUND\nR 1 1\nL 1 1\nEND\n",
    "OUTCOME 3 5 3 75\nSPLIT 1 0\nFARKAS\nR 1 -1/3\nU 1 2/3\nFARKAS\nR 1 1\nL 1 2\nEND\n",
    "OUTCOME 3 3 1 60\nFARKAS\nR 1 -1/3\nU 1 1/3\nU 2 1/3\nEND\n",
    "OUTCOME 5 0 1 0\nRAY\nP 0\nD 1\nEND\n",
    "OUTCOME 4 0 1 0\nNONE\nEND\n",
    "OUTCOME 2 6 1 120\nVALUE -5/4\nX 1\nX 0\nX 1\nX 0\nBOUND\nR 2 3/2\nR 3 5/4\nL 2 2\nL 4 21/2\nEND\n",
    "OUTCOME 12 0 0 0\nWIDE 1 SUB 1000000000000000000000000000000 1/1000000000000000000000000000000\nNONE\nEND\n",
    "OUTCOME 7 0 0 0\nVALUE 0\nX 1000000000000000000000000000000\nX 0\nNONE\nEND\n",
    "OUTCOME 255 18446744073709551615 18446744073709551615 18446744073709551615\nVALUE 170141183460469231731687303715884105727\nNONE\nEND\n",
    "OUTCOME 0 0 0 0\nSPLIT 4294967295 -170141183460469231731687303715884105728\nBOUND\nFARKAS\nU 4294967295 -170141183460469231731687303715884105727\nEND\n",
    "OUTCOME 12 0 0 0\nWIDE 18446744073709551615 DIV 1 0\nRAY\nP 1\nP 2\nD 3\nEND\n",
];

/// Texts, each with its first bad line.
static REFUSED: [(&str, u32); 30] = [
    ("", 1),
    ("\n", 1),
    ("OUTCOME 7 0 0 0", 1),
    ("OUTCOME 7 0 0 0\nNONE\nEND", 3),
    ("OUTCOME 7 0 0 0\nNONE", 2),
    ("OUTCOME 7 0 0 0\nNONE\n", 3),
    ("OUTCOME 7 0 0 0\nNONE\nEND\n\n", 4),
    ("OUTCOME 7 0 0 0\nNONE\r\nEND\n", 2),
    ("OUTCOME 256 0 0 0\nNONE\nEND\n", 1),
    ("OUTCOME 7 0 0 18446744073709551616\nNONE\nEND\n", 1),
    ("OUTCOME 7 00 0 0\nNONE\nEND\n", 1),
    ("OUTCOME  7 0 0 0\nNONE\nEND\n", 1),
    ("OUTCOME 7 0 0 0 \nNONE\nEND\n", 1),
    ("OUTCOME 7 0 0 0\nX 1\nNONE\nEND\n", 2),
    ("OUTCOME 7 0 0 0\nVALUE 2/2\nNONE\nEND\n", 2),
    ("OUTCOME 7 0 0 0\nVALUE 0.5\nNONE\nEND\n", 2),
    ("OUTCOME 7 0 0 0\nVALUE -0\nNONE\nEND\n", 2),
    ("OUTCOME 12 0 0 0\nNONE\nEND\n", 2),
    ("OUTCOME 7 0 0 0\nWIDE 1 ADD 1 1\nNONE\nEND\n", 2),
    ("OUTCOME 12 0 0 0\nWIDE 1 NEG 1 1\nNONE\nEND\n", 2),
    ("OUTCOME 5 0 1 0\nRAY\nP 0\nD 1\nP 0\nEND\n", 5),
    ("OUTCOME 3 0 1 0\nSPLIT 1 0\nBOUND\nEND\n", 4),
    ("OUTCOME 3 0 1 0\nBOUND\nBOUND\nEND\n", 3),
    (
        "OUTCOME 3 0 1 0\nSPLIT 1 170141183460469231731687303715884105728\n",
        2,
    ),
    ("OUTCOME 3 3 1 54\nFARKAS\nR 1 -8/13\nR 2 0\nEND\n", 4),
    ("OUTCOME 3 3 1 54\nFARKAS\nR 0 1\nEND\n", 3),
    ("OUTCOME 3 3 1 54\nFARKAS\nR 2 1\nR 2 1\nEND\n", 4),
    ("OUTCOME 3 3 1 54\nFARKAS\nL 1 1\nR 2 1\nEND\n", 4),
    ("OUTCOME 3 3 1 54\nFARKAS\nR 4294967296 1\nEND\n", 3),
    ("OUTCOME 3 3 1 60\nFARKUS\nR 1 -1/3\nEND\n", 2),
];

#[test]
fn worked_texts_are_read_and_written_again(rt: HostRuntime) -> Result<(), Fail> {
    let alloc = rt.alloc();
    for text in TEXTS.iter() {
        let Ok(found) = proof(&rt, alloc, text) else {
            return Err("a worked text is refused".into());
        };
        let written = write(alloc, &found.outcome, &found.cert)?;
        assert_eq!(rt; written.as_bytes(), text.as_bytes());
    }
    Ok(())
}

#[test]
fn the_first_bad_line_is_told(rt: HostRuntime) -> Result<(), Fail> {
    let alloc = rt.alloc();
    for (text, line) in REFUSED.iter() {
        let found = match proof(&rt, alloc, text) {
            Err(OrMemory::Fault(fault)) => fault.line,
            _ => 0,
        };
        assert_eq!(rt; found, *line);
    }
    Ok(())
}

#[test]
fn values_are_as_written(rt: HostRuntime) -> Result<(), Fail> {
    let alloc = rt.alloc();
    let Ok(found) = proof(&rt, alloc, TEXTS[1]) else {
        return Err("a worked text is refused".into());
    };
    let Cert::Tree(nodes) = &found.cert else {
        return Err("no tree".into());
    };
    assert_eq!(rt; nodes.len(), 5);
    assert_eq!(rt; nodes.as_slice()[0], CertNode::Split(1, 1));
    assert_eq!(rt; found.outcome.status, 2);
    assert_eq!(rt; found.outcome.work, 102);
    let point = found.outcome.point.as_ref().ok_or("no point")?;
    assert_eq!(rt; point.value, Frac::make(2, 1).ok_or("no fraction")?);
    Ok(())
}
