//! Stops and failures in each call of the disk, and what is there at the next opening.

use crate::running::{TAGGED, TAGGED_SAYS, writes};
use base_names::NoMemory;
use std::alloc::Global;

/// A stop in one of the four calls that keep a batch, and whether the batch is there then.
const STOPS: &[(&[u8], &[u8])] = &[
    (b"STOP 1 OLD\n", b"OPENED 0\n"),
    (b"STOP 1 NEW\n", b"OPENED 0\n"),
    (b"STOP 1 FILL 1\n", b"OPENED 0\n"),
    (b"STOP 1 FILL 7\n", b"OPENED 0\n"),
    (b"STOP 2 OLD\n", b"OPENED 0\n"),
    (b"STOP 2 NEW\n", b"OPENED 0\n"),
    (b"STOP 2 FILL 1\n", b"OPENED 0\n"),
    (b"STOP 2 FILL 7\n", b"OPENED 0\n"),
    (b"STOP 3 OLD\n", b"OPENED 0\n"),
    (b"STOP 3 NEW\n", b"OPENED 1\n"),
    (b"STOP 3 FILL 1\n", b"OPENED 1\n"),
    (b"STOP 3 FILL 7\n", b"OPENED 0\n"),
    (b"STOP 4 OLD\n", b"OPENED 0\n"),
    (b"STOP 4 NEW\n", b"OPENED 1\n"),
    (b"STOP 4 FILL 1\n", b"OPENED 1\n"),
    (b"STOP 4 FILL 7\n", b"OPENED 0\n"),
];

fn stops(alloc: Global, stop: &[u8], opened: &[u8]) -> Result<bool, NoMemory> {
    writes(
        alloc,
        &[TAGGED, stop, b"AT 1 BATCH\nOPEN\n"],
        &[TAGGED_SAYS, b"ARMED\nSTOPPED\n", opened],
    )
}

#[test]
fn stops_in_each_call_of_a_batch(rt: HostRuntime) {
    for (stop, opened) in STOPS {
        assert!(rt; stops(rt.alloc(), stop, opened) == Ok(true));
    }
}

/// What stands behind the tagged model, and what that writes.
const ROWS: &[(&[u8], &[u8])] = &[
    // an answer that was given stays
    (
        b"AT 1 BATCH\nSTOP 0 OLD\nOPEN\nSEAT 1 ada STANDARD\nAT 1 BSTATUS ada.1\n",
        b"OUT 1 12\nBATCH ada.1\nSTOPPED\nOPENED 1\nSEATED 1\nOUT 1 16\nBSTATUS ada.1 2\n",
    ),
    // a record in doubt is settled by the next batch, which has its number
    (
        b"FAULT 3\nAT 1 BATCH\nAT 1 BATCH\nSTOP 0 NEW\nOPEN\n",
        b"ARMED\nOUT 1 12\nERR 17 DISK\nOUT 1 12\nBATCH ada.1\nSTOPPED\nOPENED 1\n",
    ),
    // a failing call leaves no trace
    (
        b"FAULT 3\nAT 1 BATCH\nSTOP 0 FILL 1\nOPEN\n",
        b"ARMED\nOUT 1 12\nERR 17 DISK\nSTOPPED\nOPENED 0\n",
    ),
    // the settling fails too, and the record stays in doubt
    (
        b"FAULT 3\nFAULT 5\nAT 1 BATCH\nAT 1 BATCH\nAT 1 BATCH\n",
        b"ARMED\nARMED\nOUT 1 12\nERR 17 DISK\nOUT 1 12\nERR 17 DISK\nOUT 1 12\nBATCH ada.1\n",
    ),
    // two failures in one call are one
    (
        b"FAULT 1\nFAULT 1\nAT 1 BATCH\nAT 1 BATCH\n",
        b"ARMED\nARMED\nOUT 1 12\nERR 17 DISK\nOUT 1 12\nBATCH ada.1\n",
    ),
    // a stopped machine stays as the first stop left it, and what is armed there counts from the opening on
    (
        b"STOP 0 OLD\nFAULT 1\nSTOP 0 NEW\nOPEN\nOPEN\n",
        b"STOPPED\nARMED\nSTOPPED\nNOTOPEN\nOPENED 0\n",
    ),
    // a stop in the opening
    (
        b"AT 1 BATCH\nSTOP 0 OLD\nSTOP 2 NEW\nOPEN\nOPEN\n",
        b"OUT 1 12\nBATCH ada.1\nSTOPPED\nARMED\nSTOPPED\nOPENED 1\n",
    ),
    // a later stop takes the place of one that hasn't come
    (
        b"STOP 1 OLD\nSTOP 9 OLD\nAT 1 BATCH\n",
        b"ARMED\nARMED\nOUT 1 12\nBATCH ada.1\n",
    ),
    // a session ends by its last command, by its input's end, and with the machine
    (
        b"AT 1 BYE\nSEAT 1 bob ADMIN\nHANG 1\nSEAT 1 ada STANDARD\nSTOP 0 OLD\nOPEN\nSEAT 1 ada STANDARD\n",
        b"OUT 1 4\nBYE\nSEATED 1\nHUNG 1\nSEATED 1\nSTOPPED\nOPENED 0\nSEATED 1\n",
    ),
    // each owner has numbers of its own
    (
        b"AT 1 BATCH\nSEAT 2 bob STANDARD\nAT 2 READ 38\nMinimize\n x\nSubject To\n c: x >= 1\nEnd\nAT 2 SETVTAG x x\nAT 2 BATCH\nAT 2 BSTATUS ada.1\n",
        b"OUT 1 12\nBATCH ada.1\nSEATED 2\nOUT 2 3\nOK\nOUT 2 3\nOK\nOUT 2 12\nBATCH bob.1\nOUT 2 13\nERR 13 BATCH\n",
    ),
];

fn row_holds(alloc: Global, script: &[u8], written: &[u8]) -> Result<bool, NoMemory> {
    writes(alloc, &[TAGGED, script], &[TAGGED_SAYS, written])
}

#[test]
fn rows_are_as_written(rt: HostRuntime) {
    for (script, written) in ROWS {
        assert!(rt; row_holds(rt.alloc(), script, written) == Ok(true));
    }
}

/// Limits, and what a batch and a status are answered then.
const LIMITS: &[(&[u8], &[u8])] = &[
    (
        b"LIMITS 2 8388608 1000000000\n",
        b"OUT 1 12\nBATCH ada.1\nOUT 1 16\nBSTATUS ada.1 2\nOUT 1 26\nERR 15 OWNERFULL COMMANDS\n",
    ),
    (
        b"LIMITS 100 8388608 1200100\n",
        b"OUT 1 19\nERR 16 JOURNALFULL\nOUT 1 13\nERR 13 BATCH\nOUT 1 13\nERR 13 BATCH\n",
    ),
    (
        b"LIMITS 100 10 1000000000\n",
        b"OUT 1 23\nERR 15 OWNERFULL BYTES\nOUT 1 13\nERR 13 BATCH\nOUT 1 13\nERR 13 BATCH\n",
    ),
];

fn limits_hold(alloc: Global, limits: &[u8], written: &[u8]) -> Result<bool, NoMemory> {
    let asks = b"AT 1 BATCH\nAT 1 BSTATUS ada.1\nAT 1 BSTATUS ada.1\n";
    writes(alloc, &[limits, TAGGED, asks], &[TAGGED_SAYS, written])
}

#[test]
fn limits_are_those_of_the_first_line(rt: HostRuntime) {
    for (limits, written) in LIMITS {
        assert!(rt; limits_hold(rt.alloc(), limits, written) == Ok(true));
    }
}
