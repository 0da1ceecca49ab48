//! Texts read line by line.

ghost use Rattle.std.specs.Prelude.{◌≡◌, ◌==◌, ◌-◌, ◌^◌, ◌<◌, IfOk, List, ℕ, length, position};
ghost use Rattle.cert_text.specs.Lines.{IsReadAs, ending, reading, stage_behind};
ghost use Rattle.cert_text.specs.Spelling.{Answers, Gives, Spells};
ghost use Rattle.cert_text.specs.Stages.{missing_of};
ghost use Rattle.model_data.specs.declared.solution.Cert.{Cert as Certificate};
ghost use Rattle.model_data.specs.declared.solution.Outcome.{Outcome};

use crate::entry_text::read_entry;
use crate::proof::{CertFault, Proof};
use crate::stage::Stage;
use base_names::{NoMemory, OrMemory};
use std::alloc::Global;

/// The outcome and the certificate that a text of fewer than 2^32 - 1 bytes spells, or its first bad line.
///
/// It goes over the text once, and no number that it reads makes room for anything.
#[tactic(auto, using(crate::proofs::FirstBadLine::answered, crate::proofs::FirstBadLine::given))]
pub fn read(alloc: Global, text: &[u8]) -> Result<Proof, OrMemory<CertFault>>
    requires { length text.now < 2 ^ 32 - 1 }
    // What is read is spelled so, and a refused line is the first bad one.
    ensures right { Answers text.now result }
    // What is spelled is read.
    ensures only { (o : Outcome) (cert : Certificate) → Spells text.now o cert → Gives o cert result }
{
    read_lines(alloc, text)
}

fn read_lines(alloc: Global, text: &[u8]) -> Result<Proof, OrMemory<CertFault>>
    requires { length text.now < 2 ^ 32 - 1 }
    ensures { IsReadAs (reading text.now) result }
{
    let mut stage = Stage::Start;
    let mut line = 1;
    let mut rest = text;
    while let Some(end) = line_feed(rest) {
        match behind_line(stage, alloc, &rest[..end])? {
            Some(next) => stage = next,
            None => return Err(OrMemory::Fault(CertFault { line })),
        }
        rest = &rest[end + 1..];
        line += 1;
    }
    ended(stage, line, rest)
}

fn line_feed(text: &[u8]) -> Option<usize>
    ensures { result ≡ position (λ byte. byte == 10) text.now }
{
    text.iter().position(|byte| *byte == b'\n')
}

/// The stage behind a line. `None`: no such line can stand there.
fn behind_line(stage: Stage, alloc: Global, line: &[u8]) -> Result<Option<Stage>, NoMemory>
    requires { missing_of stage < 2 ^ 32 }
    ensures { IfOk result (λ found. found ≡ stage_behind stage line.now) }
{
    match read_entry(line) {
        Some(entry) => stage.next(alloc, entry),
        None => Ok(None),
    }
}

/// What a text gives whose lines are over, where this stands behind the last of them.
fn ended(stage: Stage, line: u32, rest: &[u8]) -> Result<Proof, OrMemory<CertFault>>
    ensures { IsReadAs (ending stage line rest.now) result }
{
    match stage {
        Stage::Whole(proof) if rest.is_empty() => Ok(proof),
        _ => Err(OrMemory::Fault(CertFault { line })),
    }
}
