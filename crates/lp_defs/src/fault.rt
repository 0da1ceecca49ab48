//! Why a text is no model's.
ghost use Rattle.std.specs.Prelude.{Some};
ghost use Rattle.lp_defs.specs.FaultText.{placed_text};

use base_names::FaultWord;
use std::error::Error;
use std::fmt;

/// The first place at which a text stops to be one of a model, and what is wrong there.
#[derive(Clone, Copy, Debug, PartialEq, Eq)]
pub struct ModelFault {
    /// The line, from 1.
    pub line: u32,
    /// The column, in bytes from 1.
    pub column: u32,
    pub fault: FaultWord,
}

impl fmt::Display for ModelFault {
    ghost output = { λ fault. Some (placed_text fault.line fault.column fault.fault) };

    fn fmt<W: fmt::Write>(&self, f: &mut fmt::Formatter<W>) -> fmt::Result {
        write!(
            f,
            "line {} column {} {}",
            self.line, self.column, self.fault
        )
    }
}

impl Error for ModelFault {}
