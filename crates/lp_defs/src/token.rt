//! Tokens of a model's text, and where they stand.
ghost use Rattle.std.specs.Prelude.{Some};
ghost use Rattle.lp_defs.specs.FaultText.{placed_text};

use base_names::FaultWord;
use frac128::Frac;
use model_data::Sense;
use std::error::Error;
use std::fmt;

/// The place of a byte, or of the end of a text.
#[derive(Clone, Copy, Debug, PartialEq, Eq)]
pub struct Place {
    /// The line, from 1. A line ends at its line feed alone.
    pub line: u32,
    /// The column in bytes, from 1.
    pub column: u32,
    /// How many bytes of the text stand before it.
    pub offset: u32,
}

/// A token. Its text is the slice from `start` to `end`.
#[derive(Clone, Copy, Debug, PartialEq, Eq)]
pub struct Token {
    /// The line of the first byte, from 1.
    pub line: u32,
    /// The column of the first byte, in bytes from 1.
    pub column: u32,
    pub start: u32,
    pub end: u32,
    pub kind: TokenKind,
}

/// What a token is.
#[derive(Clone, Copy, Debug, PartialEq, Eq)]
pub enum TokenKind {
    /// A plus or a minus alone.
    Sign { negative: bool },
    /// A colon alone.
    Colon,
    Comparison(Sense),
    /// A number whose parts fit.
    Number(Frac),
    /// A number with a part that reaches 2^127. `huge` says that its size is at least 10^20.
    TooWide { negative: bool, huge: bool },
    /// `inf` or `infinity`, with or without a sign.
    Infinite { negative: bool },
    Section(SectionWord),
    /// A name with a colon at its end.
    Label,
    Name,
}

/// A word with a meaning of its own, in letters of any case.
#[derive(Clone, Copy, Debug, PartialEq, Eq)]
pub enum SectionWord {
    /// `minimize`, `minimise`, `minimum` or `min`.
    Minimize,
    /// `maximize`, `maximise`, `maximum` or `max`.
    Maximize,
    /// `subject`, the first word of `subject to`.
    Subject,
    /// `such`, the first word of `such that`.
    Such,
    /// `st`, `st.` or `s.t.`, which stand alone.
    Constraints,
    /// `bounds` or `bound`.
    Bounds,
    /// `general`, `generals` or `gen`.
    General,
    /// `binary`, `binaries` or `bin`.
    Binary,
    Free,
    End,
}

/// A run of bytes that is no token: the place of its fault, and what it is.
#[derive(Clone, Copy, Debug, PartialEq, Eq)]
pub struct LexFault {
    pub line: u32,
    pub column: u32,
    pub fault: FaultWord,
}

impl fmt::Display for LexFault {
    ghost output = { λ fault. Some (placed_text fault.line fault.column fault.fault) };

    fn fmt<W: fmt::Write>(&self, f: &mut fmt::Formatter<W>) -> fmt::Result {
        write!(
            f,
            "line {} column {} {}",
            self.line, self.column, self.fault
        )
    }
}

impl Error for LexFault {}
