//! What `solve` and `limits` tell.

use crate::running::{tells, writes};
use base_names::NoMemory;
use std::alloc::Global;

const SOLVE: &[&str] = &["cs_main", "solve"];

const LIMITS: &[&str] = &["cs_main", "limits"];

const TWO_ROWS: &[u8] = b"Maximize\n x + y\nSubject To\n 2 x + y <= 4\n x + 3 y <= 6\nEnd\n";

const WHOLE_TWO_ROWS: &[u8] =
    b"Maximize\n x + y\nSubject To\n 2 x + y <= 4\n x + 3 y <= 6\nGenerals\n x y\nEnd\n";

const WHOLE_HALF: &[u8] = b"Minimize\n x\nSubject To\n 2 x = 1\nBinaries\n x\nEnd\n";

const BEALE: &[u8] = b"Minimize
 -0.75 x1 + 20 x2 - 0.5 x3 + 6 x4
Subject To
 c1: 0.25 x1 - 8 x2 - x3 + 9 x4 <= 0
 c2: 0.5 x1 - 12 x2 - 0.5 x3 + 3 x4 <= 0
 c3: x3 <= 1
End
";

/// Texts, with their certificates.
const SOLVED: &[(&[u8], &[u8])] = &[
    (
        TWO_ROWS,
        b"OUTCOME 2 2 1 18\nVALUE 14/5\nX 6/5\nX 8/5\nBOUND\nR 1 2/5\nR 2 1/5\nEND\n",
    ),
    (
        WHOLE_TWO_ROWS,
        b"OUTCOME 2 9 5 102\nVALUE 2\nX 1\nX 1\nSPLIT 1 1\nSPLIT 2 1\nBOUND\nU 1 1\nU 2 1\nBOUND\nR 2 1\nL 2 2\nBOUND\nR 1 1\nL 1 1\nEND\n",
    ),
    (
        WHOLE_HALF,
        b"OUTCOME 3 5 3 75\nSPLIT 1 0\nFARKAS\nR 1 -1/3\nU 1 2/3\nFARKAS\nR 1 1\nL 1 2\nEND\n",
    ),
    (
        b"Minimize\n x\nSubject To\n x + y >= 3\nBounds\n x <= 1\n y <= 1\nEnd\n",
        b"OUTCOME 3 3 1 60\nFARKAS\nR 1 -1/3\nU 1 1/3\nU 2 1/3\nEND\n",
    ),
    (
        b"Maximize\n x\nSubject To\nEnd\n",
        b"OUTCOME 5 0 1 0\nRAY\nP 0\nD 1\nEND\n",
    ),
    (
        b"Maximize\n x\nSubject To\nGenerals\n x\nEnd\n",
        b"OUTCOME 4 0 1 0\nNONE\nEND\n",
    ),
    (
        BEALE,
        b"OUTCOME 2 6 1 120\nVALUE -5/4\nX 1\nX 0\nX 1\nX 0\nBOUND\nR 2 3/2\nR 3 5/4\nL 2 2\nL 4 21/2\nEND\n",
    ),
    (
        b"Maximize\n x + y\nSubject To\n 1e30 x + y <= 1\n x + 1e30 y <= 1\nEnd\n",
        b"OUTCOME 12 0 0 0\nWIDE 1 SUB 1000000000000000000000000000000 1/1000000000000000000000000000000\nNONE\nEND\n",
    ),
];

#[test]
fn solves_models(rt: HostRuntime) {
    for (text, certificate) in SOLVED {
        assert!(rt; writes(rt.alloc(), SOLVE, &[text], certificate) == Ok(true));
    }
}

const WITHIN_LIMITS: &[(&[&str], &[u8])] = &[
    (
        &["cs_main", "solve", "--nodes", "3"],
        b"OUTCOME 8 6 3 72\nVALUE 2\nX 1\nX 1\nNONE\nEND\n",
    ),
    (
        &["cs_main", "solve", "--iterations=0"],
        b"OUTCOME 7 0 0 0\nNONE\nEND\n",
    ),
    (
        &["cs_main", "solve", "--work=17", "--nodes=5"],
        b"OUTCOME 16 1 0 9\nNONE\nEND\n",
    ),
];

#[test]
fn solves_within_limits(rt: HostRuntime) {
    for (words, certificate) in WITHIN_LIMITS {
        assert!(rt; writes(rt.alloc(), words, &[WHOLE_TWO_ROWS], certificate) == Ok(true));
    }
}

/// Texts, with their limits.
const LIMITED: &[(&[u8], &[u8])] = &[
    (TWO_ROWS, b"ITERATIONS 20\nNODES 1\n"),
    (WHOLE_TWO_ROWS, b"ITERATIONS OPEN\nNODES OPEN\n"),
    (WHOLE_HALF, b"ITERATIONS 60\nNODES 3\n"),
    (
        b"Max x st Bounds x free Binaries x end",
        b"ITERATIONS 18\nNODES 3\n",
    ),
    // Up to the greatest number of nodes that a solve may be limited to.
    (
        b"Max x st Bounds x <= 499999999 Generals x end",
        b"ITERATIONS OVER\nNODES 999999999\n",
    ),
    (
        b"Max x st Bounds x <= 500000000 Generals x end",
        b"ITERATIONS OVER\nNODES OVER\n",
    ),
];

#[test]
fn tells_limits(rt: HostRuntime) {
    for (text, lines) in LIMITED {
        assert!(rt; writes(rt.alloc(), LIMITS, &[text], lines) == Ok(true));
    }
}

fn is_too_long(alloc: Global) -> Result<bool, NoMemory> {
    let long = vec![in alloc; b' '; 1_048_577]?;
    tells(alloc, SOLVE, &[long.as_slice()], 7, b"input too long\n")
}

const NO_NUMBER: &[u8] = b"Minimize\n x\nSubject To\n c: x+y >= 1\n d: 2x >= 1\nEnd\n";

const NO_NUMBER_IN_A_LINE: &[u8] = b"Max x+y st c: 2x <= 1 end";

#[test]
fn tells_why_a_text_is_not_solved(rt: HostRuntime) {
    let alloc = rt.alloc();
    assert!(rt;
        tells(
            alloc,
            SOLVE,
            &[NO_NUMBER],
            1,
            b"model: line 5 column 5 NUMBER\n"
        ) == Ok(true)
    );
    assert!(rt; is_too_long(alloc) == Ok(true));
    assert!(rt;
        tells(
            alloc,
            LIMITS,
            &[NO_NUMBER_IN_A_LINE],
            1,
            b"model: line 1 column 15 NUMBER\n"
        ) == Ok(true)
    );
}
