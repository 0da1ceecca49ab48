//! What `verify` tells.

use crate::running::{Left, leaves_over};
use base_names::NoMemory;
use std::alloc::Global;

const VERIFY: &[&str] = &["cs_main", "verify"];

/// A model without a point, whose certificate has one leaf.
const POINTLESS: &[u8] = b"Minimize\n x\nSubject To\n x + y >= 3\nBounds\n x <= 1\n y <= 1\nEnd\n";

const NOTHING: &[u8] = b"OUTCOME 8 0 0 0\nNONE\nEND\n";

/// Certificates of it behind their first line, with the status, the verdict, and the line that tells why.
const CERTIFICATES: &[(&[u8], u8, &[u8], &[u8])] = &[
    (
        b"FARKAS\nR 1 -1/3\nU 1 1/3\nU 2 1/3\nEND\n",
        0,
        b"VALID\n",
        b"",
    ),
    (
        b"FARKAS\nR 1 -1/3\nU 1 1/3\nU 2 1/4\nEND\n",
        8,
        b"INVALID LEAF 1 SUM 2\n",
        b"certificate invalid\n",
    ),
    (
        b"FARKAS\nR 1 1/3\nEND\n",
        8,
        b"INVALID LEAF 1 SIGN R 1\n",
        b"certificate invalid\n",
    ),
    (b"FARKUS\nR 1 -1/3\nEND\n", 9, b"", b"line 3 refused\n"),
];

fn is_verdict(
    alloc: Global,
    parts: &[&[u8]],
    status: u8,
    output: &[u8],
    errors: &[u8],
) -> Result<bool, NoMemory> {
    let left = Left {
        status,
        output,
        errors,
    };
    leaves_over(alloc, VERIFY, parts, &[], left)
}

fn is_judged(
    alloc: Global,
    lines: &[u8],
    status: u8,
    output: &[u8],
    errors: &[u8],
) -> Result<bool, NoMemory> {
    let parts = [
        b"MODEL 62\n".as_slice(),
        POINTLESS,
        b"OUTCOME 3 3 1 60\n",
        lines,
    ];
    is_verdict(alloc, &parts, status, output, errors)
}

#[test]
fn tells_whether_a_certificate_is_valid(rt: HostRuntime) {
    for (lines, status, output, errors) in CERTIFICATES {
        assert!(rt; is_judged(rt.alloc(), lines, *status, output, errors) == Ok(true));
    }
}

/// A model and a certificate of which an operation doesn't fit.
const WIDE: &[&[u8]] = &[
    b"MODEL 65\n",
    b"Maximize\n x + y\nSubject To\n 1e30 x + y <= 1\n x + 1e30 y <= 1\nEnd\n",
    b"OUTCOME 7 0 0 0\nVALUE 0\nX 1000000000000000000000000000000\nX 0\nNONE\nEND\n",
];

const TOO_WIDE: &[u8] =
    b"certificate too wide: MUL 1000000000000000000000000000000 1000000000000000000000000000000\n";

#[test]
fn tells_an_operation_that_does_not_fit(rt: HostRuntime) {
    assert!(rt; is_verdict(rt.alloc(), WIDE, 11, b"", TOO_WIDE) == Ok(true));
}

/// A first line before the model, what stands behind it, the status, the verdict, and the line that tells why.
const REFUSED_LINES: &[(&[u8], &[u8], u8, &[u8], &[u8])] = &[
    (
        b"MODEL 00000000000000000000000062\n",
        NOTHING,
        0,
        b"VALID\n",
        b"",
    ),
    (b"MODEL 62\n", b"", 9, b"", b"line 2 refused\n"),
    (b"MODEL 62\r\n", NOTHING, 9, b"", b"line 1 refused\n"),
    (b"MODEL  62\n", NOTHING, 9, b"", b"line 1 refused\n"),
    (b"MODEL +62\n", NOTHING, 9, b"", b"line 1 refused\n"),
    (b"MODEL \n", NOTHING, 9, b"", b"line 1 refused\n"),
    // One byte more than there are, and more than any number of the program.
    (b"MODEL 88\n", NOTHING, 9, b"", b"line 1 refused\n"),
    (
        b"MODEL 99999999999999999999999999999999999999999\n",
        NOTHING,
        9,
        b"",
        b"line 1 refused\n",
    ),
    (b"MODEL 61\n", NOTHING, 9, b"", b"line 2 refused\n"),
    (
        b"MODEL 52\n",
        NOTHING,
        1,
        b"",
        b"model: line 7 column 3 NOSECTION\n",
    ),
];

#[test]
fn tells_the_first_line_that_is_refused(rt: HostRuntime) {
    for (line, certificate, status, output, errors) in REFUSED_LINES {
        let parts = [*line, POINTLESS, *certificate];
        assert!(rt; is_verdict(rt.alloc(), &parts, *status, output, errors) == Ok(true));
    }
}

#[test]
fn tells_that_a_verdict_is_not_written(rt: HostRuntime) {
    let left = Left {
        status: 4,
        output: b"",
        errors: b"write fault\n",
    };
    let parts = [b"MODEL 62\n".as_slice(), POINTLESS, NOTHING];
    assert!(rt; leaves_over(rt.alloc(), VERIFY, &parts, &[1], left) == Ok(true));
}
