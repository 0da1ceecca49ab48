//! What a text is read as, and why it is none.

ghost use Rattle.std.specs.Prelude.{Some};
ghost use Rattle.cert_text.specs.Entries.{fault_text};

use model_data::{Cert, Outcome};
use std::error::Error;
use std::fmt;

/// How a solve ended, and why that is right.
#[derive(Debug, Drop, PartialEq, Eq)]
pub struct Proof {
    pub outcome: Outcome,
    pub cert: Cert,
}

/// The first bad line of a text, counted from 1.
#[derive(Clone, Copy, Debug, PartialEq, Eq)]
pub struct CertFault {
    pub line: u32,
}

/// `line 4 refused`
impl fmt::Display for CertFault {
    ghost output = { λ fault. Some (fault_text fault.line) };

    fn fmt<W: fmt::Write>(&self, f: &mut fmt::Formatter<W>) -> fmt::Result {
        write!(f, "line {} refused", self.line)
    }
}

impl Error for CertFault {}
