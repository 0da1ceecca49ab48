//! The texts of refusals.

ghost use Rattle.std.specs.Prelude.{◌≡◌, IfOk, Some};
ghost use Rattle.base_names.specs.RefusalText.{fault_text, limit_text, refusal_text};

use crate::memory::NoMemory;
use crate::node::NodeNo;
use crate::refusal::{FaultWord, OwnerLimit, Refusal};
use crate::text::Text;
use crate::writing::append;
use std::alloc::Global;
use std::error::Error;
use std::fmt;

impl fmt::Display for FaultWord {
    ghost output = { λ fault. Some (fault_text fault) };

    fn fmt<W: fmt::Write>(&self, f: &mut fmt::Formatter<W>) -> fmt::Result {
        f.write_str(match self {
            FaultWord::Word => "WORD",
            FaultWord::Number => "NUMBER",
            FaultWord::NameLength => "NAMELENGTH",
            FaultWord::DoubledName => "DOUBLEDNAME",
            FaultWord::NoSection => "NOSECTION",
            FaultWord::Unsupported => "UNSUPPORTED",
            FaultWord::AfterEnd => "AFTEREND",
            FaultWord::Size => "SIZE",
        })
    }
}

impl fmt::Display for OwnerLimit {
    ghost output = { λ limit. Some (limit_text limit) };

    fn fmt<W: fmt::Write>(&self, f: &mut fmt::Formatter<W>) -> fmt::Result {
        f.write_str(match self {
            OwnerLimit::Commands => "COMMANDS",
            OwnerLimit::Numbers => "NUMBERS",
            OwnerLimit::Bytes => "BYTES",
        })
    }
}

impl fmt::Display for Refusal {
    ghost output = { λ refusal. Some (refusal_text refusal) };

    fn fmt<W: fmt::Write>(&self, f: &mut fmt::Formatter<W>) -> fmt::Result {
        match self {
            Refusal::KEY => write!(f, "ERR 1 KEY"),
            Refusal::LINE => write!(f, "ERR 2 LINE"),
            Refusal::STATE => write!(f, "ERR 3 STATE"),
            Refusal::MODEL(line, column, fault) => write!(f, "ERR 4 MODEL {line} {column} {fault}"),
            Refusal::NAME => write!(f, "ERR 5 NAME"),
            Refusal::DUPLICATE => write!(f, "ERR 6 DUPLICATE"),
            Refusal::RANGE => write!(f, "ERR 7 RANGE"),
            Refusal::PARAM => write!(f, "ERR 8 PARAM"),
            Refusal::NOTAG => write!(f, "ERR 9 NOTAG"),
            Refusal::SIZE => write!(f, "ERR 10 SIZE"),
            Refusal::NOJOB => write!(f, "ERR 11 NOJOB"),
            Refusal::NONODE => write!(f, "ERR 12 NONODE"),
            Refusal::BATCH => write!(f, "ERR 13 BATCH"),
            Refusal::BATCHSTATE(status) => write!(f, "ERR 14 BATCHSTATE {status}"),
            Refusal::OWNERFULL(limit) => write!(f, "ERR 15 OWNERFULL {limit}"),
            Refusal::JOURNALFULL(_, _) => write!(f, "ERR 16 JOURNALFULL"),
            Refusal::DISK(_, _) => write!(f, "ERR 17 DISK"),
            Refusal::MEMORY => write!(f, "ERR 18 MEMORY"),
            Refusal::ROLE => write!(f, "ERR 19 ROLE"),
            Refusal::NOSOLUTION => write!(f, "ERR 20 NOSOLUTION"),
            Refusal::NODE => write!(f, "ERR 21 NODE"),
            Refusal::NODELOST(NodeNo(node)) => write!(f, "ERR 22 NODELOST {node}"),
        }
    }
}

impl Error for Refusal {}

/// The text of a refusal, in one line and without its end.
pub fn refusal_text(alloc: Global, refusal: &Refusal) -> Result<Text, NoMemory>
    ensures { IfOk result (λ text. text ≡ refusal_text refusal.now) }
{
    let mut text = Vec::new(alloc);
    append(&mut text, refusal)?;
    Ok(Text::of(text))
}
