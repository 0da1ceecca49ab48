//! What whole sessions write.

use crate::running::{SESSION, joined, tells, writes};
use base_names::NoMemory;
use std::alloc::Global;

pub(crate) const ROW_UP_TO_THE_TAG: &[u8] =
    b"READ 38\nMinimize\n x\nSubject To\n c: x >= 1\nEnd\nSETVTAG x x\n";

/// Inputs behind that row, with what is written for all.
const AFTER_THE_ROW: &[(&[u8], &[u8])] = &[
    (
        b"BATCH\nBSTATUS ada.1\nBYE\n",
        b"OK\nOK\nBATCH ada.1\nBSTATUS ada.1 2\nBYE\n",
    ),
    (
        b"READ 3\nabcBATCH\n",
        b"OK\nOK\nERR 4 MODEL 1 1 NOSECTION\nBATCH ada.1\n",
    ),
    (b"FOO\n", b"OK\nOK\nERR 2 LINE\n"),
    (
        b"BATCH\nBATCH\nBSTATUS bob.1\n",
        b"OK\nOK\nBATCH ada.1\nBATCH ada.2\nERR 13 BATCH\n",
    ),
    // A model takes the place of the one before, and has no tag.
    (
        b"READ 0039\nMinimize\n y\nSubject To\n y: y >= 07\nEnd\nBATCH\nSETVTAG x x\nSETVTAG y x\nBATCH\n",
        b"OK\nOK\nOK\nERR 9 NOTAG\nERR 5 NAME\nOK\nBATCH ada.1\n",
    ),
    // A tag is one variable's, which may get another one.
    (
        b"READ 17\nMin x + y\nst\nEnd\nSETVTAG x t\nSETVTAG y t\nSETVTAG x u\nSETVTAG y t\nSETVTAG x u\nSETVTAG z v\nSETVTAG x\n",
        b"OK\nOK\nOK\nOK\nERR 6 DUPLICATE\nOK\nOK\nOK\nERR 5 NAME\nERR 2 LINE\n",
    ),
    // Words, blanks and line ends; a batch's ID has one spelling.
    (
        b"\n \t\n BYE x\nbye\nBSTATUS ada.01\nBSTATUS ada.0\n\tBYE \t\r\nFOO\n",
        b"OK\nOK\nERR 2 LINE\nERR 2 LINE\nERR 2 LINE\nERR 2 LINE\nERR 2 LINE\nERR 13 BATCH\nBYE\n",
    ),
    // A last line without an end counts, and a block that is cut short does not.
    (b"READ 0", b"OK\nOK\nERR 4 MODEL 1 1 NOSECTION\n"),
    (b"BATCH\nREAD 10000\nREAD 5\nabcd", b"OK\nOK\nBATCH ada.1\n"),
    // Behind a length past the limit no block stands, however many digits it has.
    (
        b"READ 1048577\nREAD 999999999999999999999999999999\nREAD +1\nREAD 1 1\nWRITE 1\n",
        b"OK\nOK\nERR 10 SIZE\nERR 10 SIZE\nERR 2 LINE\nERR 2 LINE\nERR 2 LINE\n",
    ),
    (b"BYE\r", b"OK\nOK\nERR 2 LINE\n"),
];

#[test]
fn answers_a_session(rt: HostRuntime) {
    for (input, output) in AFTER_THE_ROW {
        assert!(rt; writes(rt.alloc(), SESSION, &[ROW_UP_TO_THE_TAG, input], output) == Ok(true));
    }
}

/// A text, and the block that `WRITE` answers behind it.
const PLAN: &[u8] = b"\\ Model plan
\\ LP format - for model browsing. Use MPS format to capture full model detail.
Maximize
  x + 2 y + 3 Constant
Subject To
 c0: x + y <= 4
Bounds
 -infinity <= y <= 5
 Constant = 1
Generals
 x
End
";

const WRITTEN_PLAN: &[u8] = b"BLOCK 126
Maximize
 + 1 x + 2 y + 3 Constant
Subject To
 c0: + 1 x + 1 y <= 4
Bounds
 -infinity <= y <= 5
 Constant = 1
Generals
 x
End

";

/// Two names, of which one has a sign in it.
const SUM_NAME: &[u8] = b"Minimize\n x\nSubject To\n c: x+y >= 1\n d: 2 x > 1\nEnd\n";

const WRITTEN_SUM_NAME: &[u8] = b"BLOCK 71
Minimize
 + 1 x + 0 x+y
Subject To
 c: + 1 x+y >= 1
 d: + 2 x >= 1
End

";

/// The parts of inputs, and of what is written for them.
const MODELS: &[(&[&[u8]], &[&[u8]])] = &[
    (
        &[b"WRITE\n"],
        &[b"BLOCK 26\nMinimize\n \nSubject To\nEnd\n\n"],
    ),
    (&[b"READ 209\n", PLAN, b"WRITE\n"], &[b"OK\n", WRITTEN_PLAN]),
    (
        &[b"READ 52\n", SUM_NAME, b"WRITE\n"],
        &[b"OK\n", WRITTEN_SUM_NAME],
    ),
    // A text that is refused leaves the model as it was.
    (
        &[
            b"READ 52\n",
            SUM_NAME,
            b"READ 52\nMinimize\n x\nSubject To\n c: x+y >= 1\n d: 2x >= 1\nEnd\nWRITE\n",
        ],
        &[b"OK\nERR 4 MODEL 5 5 NUMBER\n", WRITTEN_SUM_NAME],
    ),
];

fn writes_parts(alloc: Global, input: &[&[u8]], output: &[&[u8]]) -> Result<bool, NoMemory> {
    writes(alloc, SESSION, input, joined(alloc, output)?.as_slice())
}

#[test]
fn reads_and_writes_models(rt: HostRuntime) {
    for (input, output) in MODELS {
        assert!(rt; writes_parts(rt.alloc(), input, output) == Ok(true));
    }
}

const CHANGES: &[(&[u8], &[u8])] = &[
    // What is queued is seen once it is applied.
    (
        b"ADDVAR z 0 inf 1 C\nGET LB z\nUPDATE\nGET LB z\nDELVAR z\nADDVAR z 1 inf 1 C\nGET LB z\nUPDATE\nGET LB z\n",
        b"OK\nERR 5 NAME\nUPDATED 1\nVALUE 0\nOK\nOK\nVALUE 0\nUPDATED 2\nVALUE 1\n",
    ),
    (
        b"FOO\nSETPARAM Foo 1\nSETPARAM NodeLimit -1\nADDVAR a 0 inf 1 C\nADDVAR a 0 1 0 C\nBATCH\nREAD 1048577\nBSTATUS bob.1\n",
        b"ERR 2 LINE\nERR 8 PARAM\nERR 7 RANGE\nOK\nERR 6 DUPLICATE\nERR 9 NOTAG\nERR 10 SIZE\nERR 13 BATCH\n",
    ),
    // A batch applies what is queued, also where it is refused behind that.
    (
        b"ADDVAR a 0 inf 1 C\nBATCH\nGET NUMVARS\nSETVTAG a t\nGET VTAG a\nBATCH\nGET VTAG a\nBSTATUS ada.1\nUPDATE\n",
        b"OK\nERR 9 NOTAG\nVALUE 1\nOK\nERR 9 NOTAG\nBATCH ada.1\nVALUE t\nBSTATUS ada.1 2\nUPDATED 0\n",
    ),
    // A refused text keeps what is queued, and one that is read drops it.
    (
        b"ADDVAR a 0 inf 1 C\nREAD 3\nabcUPDATE\nADDVAR b 0 inf 1 C\nREAD 17\nMin x + y\nst\nEnd\nUPDATE\nGET NUMVARS\n",
        b"OK\nERR 4 MODEL 1 1 NOSECTION\nUPDATED 1\nOK\nOK\nUPDATED 0\nVALUE 2\n",
    ),
    (
        b"ADDVAR x -inf 1e20 1/2 I\nADDCONSTR c >= 3 2 x\nUPDATE\nGET LB x\nGET UB x\nGET OBJ x\nGET TYPE x\nGET RHS c\nGET SENSE c\nGET COEFF c x\nGET NUMCONSTRS\nGET PARAM NodeLimit\nSETPARAM NodeLimit 5\nGET PARAM NodeLimit\n",
        b"OK\nOK\nUPDATED 2\nVALUE -inf\nVALUE inf\nVALUE 1/2\nVALUE I\nVALUE 3\nVALUE >=\nVALUE 2\nVALUE 1\nVALUE 10000\nOK\nVALUE 5\n",
    ),
];

#[test]
fn queues_changes(rt: HostRuntime) {
    for (input, output) in CHANGES {
        assert!(rt; writes(rt.alloc(), SESSION, &[input], output) == Ok(true));
    }
}

const REFUSED_WORDS: &[&[&str]] = &[
    &[],
    &["cs_main"],
    &["cs_main", "session"],
    &["cs_main", "session", "Ada"],
    &["cs_main", "session", ""],
    &["cs_main", "session", "ada", "--admin=1"],
    &["cs_main", "session", "ada", "--journal", ""],
    &["cs_main", "solve", "ada"],
    &["cs_main", "solve", "--nodes", "-1"],
    &["cs_main", "solve", "--nodes", "1000000001"],
    &["cs_main", "verify", "ada"],
    &["cs_main", "replay", "ada"],
];

#[test]
fn refuses_words(rt: HostRuntime) {
    for words in REFUSED_WORDS {
        assert!(rt; tells(rt.alloc(), words, &[b"BYE\n"], 2, b"words refused\n") == Ok(true));
    }
}
