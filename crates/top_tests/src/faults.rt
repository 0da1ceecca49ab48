//! Where lines are too long, and where reads and writes fail.

use crate::running::{Left, SESSION, leaves, leaves_over};
use crate::sessions::ROW_UP_TO_THE_TAG;
use base_io::{Got, Source};
use base_names::NoMemory;
use std::alloc::Global;

/// The longest line is answered, and the next one, which is longer by a byte, ends the session.
fn line_is_too_long(alloc: Global) -> Result<bool, NoMemory> {
    let longest = vec![in alloc; b'x'; 65_536]?;
    let left = Left {
        status: 7,
        output: b"ERR 2 LINE\nERR 2 LINE\n",
        errors: b"input too long\n",
    };
    let parts = [
        longest.as_slice(),
        b"\r\nFOO\n",
        longest.as_slice(),
        b"x\nFOO\n",
    ];
    leaves_over(alloc, SESSION, &parts, &[], left)
}

#[test]
fn tells_a_line_that_is_too_long(rt: HostRuntime) {
    assert!(rt; line_is_too_long(rt.alloc()) == Ok(true));
}

/// Gives a byte at a time, and fails at one call.
#[derive(Debug, Drop)]
struct Drops {
    bytes: Vec<u8>,
    at: usize,
    calls: u64,
    failing: u64,
    failed: u64,
}

impl Source for Drops {
    ghost use Rattle.std.specs.Prelude.{None};

    ghost name = { λ _. 0 };

    ghost left = { λ _. None };

    ghost faults = { λ d. d.failed };

    fn read(&mut self, buf: &mut [u8]) -> Got {
        self.calls = self.calls.saturating_add(1);
        if self.calls == self.failing {
            self.failed = self.failed.saturating_add(1);
            return Got::Failed;
        }
        if buf.is_empty() || self.at >= self.bytes.len() {
            return Got::Bytes(0);
        }
        buf[0] = self.bytes[self.at];
        self.at += 1;
        Got::Bytes(1)
    }
}

/// How many bytes have come when each answer is due, and what is written by then.
const DUE: &[(u64, &[u8])] = &[
    (4, b"ERR 2 LINE\n"),
    (14, b"ERR 2 LINE\nERR 4 MODEL 1 1 NOSECTION\n"),
    (15, b"ERR 2 LINE\nERR 4 MODEL 1 1 NOSECTION\nERR 2 LINE\n"),
];

/// What is written where this read fails.
fn due(failing: u64) -> &'static [u8] {
    let mut output: &[u8] = b"";
    for (came, text) in DUE {
        if *came < failing {
            output = text;
        }
    }
    output
}

fn read_fails(alloc: Global, failing: u64) -> Result<bool, NoMemory> {
    let mut source = Drops {
        bytes: b"FOO\nREAD 3\nabc\nFOO".to_vec(alloc)?,
        at: 0,
        calls: 0,
        failing,
        failed: 0,
    };
    let left = Left {
        status: 3,
        output: due(failing),
        errors: b"read fault\n",
    };
    leaves(alloc, SESSION, &mut source, &[], left)
}

#[test]
fn tells_each_read_that_fails(rt: HostRuntime) {
    for failing in 1..20 {
        assert!(rt; read_fails(rt.alloc(), failing) == Ok(true), "{failing}");
    }
}

/// A write that fails, and what is written before.
const FRONTS: &[(u64, &[u8])] = &[
    (1, b""),
    (2, b"OK\n"),
    (3, b"OK\nOK\n"),
    (4, b"OK\nOK\nBATCH ada.1\n"),
    (5, b"OK\nOK\nBATCH ada.1\nBSTATUS ada.1 2\n"),
];

fn write_fails(alloc: Global, failing: u64, output: &[u8]) -> Result<bool, NoMemory> {
    let left = Left {
        status: 4,
        output,
        errors: b"write fault\n",
    };
    let parts = [ROW_UP_TO_THE_TAG, b"BATCH\nBSTATUS ada.1\nBYE\n"];
    leaves_over(alloc, SESSION, &parts, &[failing], left)
}

#[test]
fn tells_each_write_that_fails(rt: HostRuntime) {
    for (failing, front) in FRONTS {
        assert!(rt;
            write_fails(rt.alloc(), *failing, front) == Ok(true),
            "{failing}"
        );
    }
}
