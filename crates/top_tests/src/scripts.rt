//! What `replay` writes, and how it ends.

use crate::running::{Left, leaves_over};
use base_names::NoMemory;
use std::alloc::Global;

const REPLAY: &[&str] = &["cs_main", "replay"];

/// Scripts, with the writes that fail, the status, what is written, and the line that tells why.
const SCRIPTS: &[(&[u8], &[u64], u8, &[u8], &[u8])] = &[
    (b"", &[], 0, b"", b""),
    (
        b"SEAT 1 ada STANDARD\nAT 1 FOO\nSTOP 0 OLD\nOPEN",
        &[],
        0,
        b"SEATED 1\nOUT 1 11\nERR 2 LINE\nSTOPPED\nOPENED 0\n",
        b"",
    ),
    (
        b"SEAT 1 ada STANDARD\nHANG 2\nHANG 1\n",
        &[],
        9,
        b"SEATED 1\n",
        b"line 2 refused\n",
    ),
    // a block isn't counted as lines, and one that is cut short is refused at its line
    (
        b"SEAT 1 ada STANDARD\nAT 1 READ 3\na\nbAT 1 READ 1",
        &[],
        9,
        b"SEATED 1\nOUT 1 26\nERR 4 MODEL 1 1 NOSECTION\n",
        b"line 3 refused\n",
    ),
    (
        b"SEAT 1 ada STANDARD\nHANG 1\n",
        &[2],
        4,
        b"SEATED 1\n",
        b"write fault\n",
    ),
];

fn ends_as_told(
    alloc: Global,
    script: &[u8],
    failing: &[u64],
    status: u8,
    output: &[u8],
    errors: &[u8],
) -> Result<bool, NoMemory> {
    let left = Left {
        status,
        output,
        errors,
    };
    leaves_over(alloc, REPLAY, &[script], failing, left)
}

#[test]
fn scripts_end_as_told(rt: HostRuntime) {
    for (script, failing, status, output, errors) in SCRIPTS {
        assert!(rt; ends_as_told(rt.alloc(), script, failing, *status, output, errors) == Ok(true));
    }
}
