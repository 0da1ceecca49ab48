//! Certificates as text.
//!
//! [`write`] gives the text of an outcome with its certificate, line by line, and [`read`] reads such a text again or tells
//! its first bad line. Each text spells one outcome and certificate at most, and each has one text.
//!
//! What each line says is an [`Entry`](entry::Entry), whose text stands in `specs/Entries.antt`. Which entries an outcome
//! and a certificate have, and which of the two can be written, stands in `specs/Spelling.antt`, and there too what the
//! first bad line of a text is. `specs/Reading.antt` and `specs/Stages.antt` say the same as the code goes, line by line:
//! what may come next depends on how far the text has come. [`laws`] ties these together.
#![tactic(auto)]

mod entry;
mod entry_text;
pub mod laws;
mod leaf;
mod mark;
mod numbers;
mod proof;
mod reading;
mod stage;
mod tree;
mod writing;

pub use proof::{CertFault, Proof};
pub use reading::read;
pub use writing::write;
