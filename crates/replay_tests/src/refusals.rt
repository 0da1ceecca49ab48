//! Lines that are refused.

use crate::running::ends;
use base_names::NoMemory;
use replay_command::ReplayEnd;
use std::alloc::Global;

/// A script, the line that is refused, and what is written before.
const REFUSED: &[(&[u8], u64, &[u8])] = &[
    (b"\n", 1, b""),
    (b"TAKE 1\n", 1, b""),
    (b"AT 1 BYE\n", 1, b""),
    (b"HANG 1\n", 1, b""),
    (b"OPEN\n", 1, b""),
    (b"LIMITS 1 1 8\nLIMITS 1 1 8\n", 2, b""),
    (b"FAULT 1\nLIMITS 1 1 8\n", 2, b"ARMED\n"),
    (b"SEAT 1 ada STANDARD\nSEAT 1 ada ADMIN\n", 2, b"SEATED 1\n"),
    (
        b"SEAT 1 ada STANDARD\nAT 1 BYE\nAT 1 BYE\n",
        3,
        b"SEATED 1\nOUT 1 4\nBYE\n",
    ),
    (b"STOP 0 OLD\nSEAT 1 ada STANDARD\n", 2, b"STOPPED\n"),
    // a block isn't counted as lines, and one that is cut short is refused at its line
    (
        b"SEAT 1 ada STANDARD\nAT 1 READ 3\na\nbFOO\n",
        3,
        b"SEATED 1\nOUT 1 26\nERR 4 MODEL 1 1 NOSECTION\n",
    ),
    (b"SEAT 1 ada STANDARD\nAT 1 READ 3\na\n", 2, b"SEATED 1\n"),
    (b"SEAT 1 ada STANDARD\nAT 1 READ 3", 2, b"SEATED 1\n"),
];

fn refuses(alloc: Global, script: &[u8], line: u64, written: &[u8]) -> Result<bool, NoMemory> {
    ends(alloc, &[script], ReplayEnd::Refused(line), &[written])
}

#[test]
fn lines_are_refused_where_they_may_not_stand(rt: HostRuntime) {
    for (script, line, written) in REFUSED {
        assert!(rt;
            refuses(rt.alloc(), script, *line, written) == Ok(true),
            "{line}"
        );
    }
}

#[test]
fn an_empty_command_line_is_a_command_line(rt: HostRuntime) {
    let said = b"SEATED 1\nOUT 1 11\nERR 2 LINE\n";
    assert!(rt;
        ends(
            rt.alloc(),
            &[b"SEAT 01 ada STANDARD\nAT 1"],
            ReplayEnd::Done,
            &[said]
        ) == Ok(true)
    );
}
