//! Why a text has no value that fits.
ghost use Rattle.std.specs.Prelude.{Some};
ghost use Rattle.frac_text.specs.FaultText.{fault_text};

use std::error::Error;
use std::fmt;

/// A text that isn't read.
#[derive(Clone, Copy, PartialEq, Eq, Debug)]
pub enum NumFault {
    /// The text is no number text.
    NotNumber,
    /// A part of the number reaches 2^127 before any reduction. `huge` says that its size is at least 10^20.
    TooWide { negative: bool, huge: bool },
}

impl fmt::Display for NumFault {
    ghost output = { λ fault. Some (fault_text fault) };

    fn fmt<W: fmt::Write>(&self, f: &mut fmt::Formatter<W>) -> fmt::Result {
        f.write_str(match self {
            NumFault::NotNumber => "no number",
            NumFault::TooWide { .. } => "a number too wide",
        })
    }
}

impl Error for NumFault {}
