//! The command over a source and a sink.

ghost use Rattle.std.specs.Prelude.{◌≡◌, ◌≤◌, length};
ghost use Rattle.base_names.specs.Outside.{Rose};
ghost use Rattle.verify_command.specs.Verify.{Answers, VerifySays};

use crate::finding::finding_of;
use crate::telling::tell;
use base_io::{Sink, Source};
use frac128::Wide;
use lp_defs::ModelFault;
use std::alloc::Global;
use whole_input::{Input, Whole, read_whole};

/// The most bytes of an input.
pub const VERIFY_LIMIT: u32 = 1_048_576;

/// How `verify` ended.
#[derive(Clone, Copy, Debug, PartialEq, Eq)]
pub enum VerifyEnd {
    /// The certificate shows the outcome right, and this is written.
    Valid,
    /// It doesn't, and the first place that fails is written.
    Invalid,
    /// The first operation of the check that doesn't fit.
    TooWide(Wide),
    /// The block spells no model.
    NoModel(ModelFault),
    /// The line of this number is refused.
    Refused(u32),
    ReadFault,
    WriteFault,
    NoMemory,
    /// The input has more bytes than [`VERIFY_LIMIT`].
    TooLong,
}

/// Reads the input to its end, as a line `MODEL k`, a block of k bytes that spells a model, and the text of an outcome with its
/// certificate, and writes `VALID`, or `INVALID` and the first place that fails. What is wrong in the input is told in the order
/// in which it stands there, and nothing is written then. Nothing is written before all is checked.
pub fn verify<S: Source, K: Sink>(alloc: Global, source: &mut S, sink: &mut K) -> VerifyEnd
    ensures same_source { S.name source.new ≡ S.name source.old }
    ensures same_sink { K.name sink.new ≡ K.name sink.old }
    ensures says { VerifySays result (S.left source.old) (S.left source.new) (K.contents sink.old) (K.contents sink.new) }
    ensures read_fault { result ≡ VerifyEnd.ReadFault → Rose (S.faults source.old) (S.faults source.new) }
    ensures write_fault { result ≡ VerifyEnd.WriteFault → Rose (K.faults sink.old) (K.faults sink.new) }
{
    match read_whole(alloc, source, VERIFY_LIMIT) {
        Ok(Whole::Read(input)) => answer(alloc, &input, sink),
        Ok(Whole::TooLong) => VerifyEnd::TooLong,
        Ok(Whole::ReadFault) => VerifyEnd::ReadFault,
        Err(_) => VerifyEnd::NoMemory,
    }
}

fn answer<K: Sink>(alloc: Global, input: &Input, sink: &mut K) -> VerifyEnd
    requires { length input.now ≤ VERIFY_LIMIT }
    ensures same { K.name sink.new ≡ K.name sink.old }
    ensures answers { Answers result input.now (K.contents sink.old) (K.contents sink.new) }
    ensures write_fault { result ≡ VerifyEnd.WriteFault → Rose (K.faults sink.old) (K.faults sink.new) }
{
    match &finding_of(alloc, input.as_bytes()) {
        Ok(finding) => tell(alloc, finding, sink),
        Err(_) => VerifyEnd::NoMemory,
    }
}
