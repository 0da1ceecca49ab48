//! The command over a source and a sink.

ghost use Rattle.std.specs.Prelude.{◌≡◌, ◌≤◌, length};
ghost use Rattle.base_names.specs.Outside.{Rose};
ghost use Rattle.model_command.specs.Says.{Answers, Says};

use crate::query::Query;
use crate::reading::text_of;
use base_io::{Sink, Source, Wrote, put};
use base_names::OrMemory;
use lp_defs::ModelFault;
use std::alloc::Global;
use whole_input::{Input, Whole, read_whole};

/// The most bytes of an input.
pub const TEXT_LIMIT: u32 = 1_048_576;

/// How a command ended.
#[derive(Clone, Copy, Debug, PartialEq, Eq)]
pub enum ModelEnd {
    /// The answer is written.
    Done,
    /// The text is no model's, or its model is too large.
    NoModel(ModelFault),
    ReadFault,
    WriteFault,
    NoMemory,
    /// The input has more bytes than [`TEXT_LIMIT`].
    TooLong,
}

/// Reads the input to its end as the text of a model, and writes what answers the query for that. Nothing is written before the
/// answer is there.
pub fn answer<Q: Query, S: Source, K: Sink>(
    alloc: Global,
    query: &Q,
    source: &mut S,
    sink: &mut K,
) -> ModelEnd
    ensures same_source { S.name source.new ≡ S.name source.old }
    ensures same_sink { K.name sink.new ≡ K.name sink.old }
    ensures says { Says (Q.answers query.now) result (S.left source.old) (S.left source.new) (K.contents sink.old) (K.contents sink.new) }
    ensures read_fault { result ≡ ModelEnd.ReadFault → Rose (S.faults source.old) (S.faults source.new) }
    ensures write_fault { result ≡ ModelEnd.WriteFault → Rose (K.faults sink.old) (K.faults sink.new) }
{
    match read_whole(alloc, source, TEXT_LIMIT) {
        Ok(Whole::Read(input)) => answer_input(alloc, query, &input, sink),
        Ok(Whole::TooLong) => ModelEnd::TooLong,
        Ok(Whole::ReadFault) => ModelEnd::ReadFault,
        Err(_) => ModelEnd::NoMemory,
    }
}

/// Writes the answer for the model that the input spells.
fn answer_input<Q: Query, K: Sink>(
    alloc: Global,
    query: &Q,
    input: &Input,
    sink: &mut K,
) -> ModelEnd
    requires { length input.now ≤ TEXT_LIMIT }
    ensures same { K.name sink.new ≡ K.name sink.old }
    ensures answers { Answers (Q.answers query.now) result input.now (K.contents sink.old) (K.contents sink.new) }
    ensures write_fault { result ≡ ModelEnd.WriteFault → Rose (K.faults sink.old) (K.faults sink.new) }
{
    let text = match text_of(alloc, query, input.as_bytes()) {
        Ok(text) => text,
        Err(OrMemory::Fault(fault)) => return ModelEnd::NoModel(fault),
        Err(OrMemory::NoMemory) => return ModelEnd::NoMemory,
    };
    match put(sink, text.as_bytes()) {
        Wrote::Done => ModelEnd::Done,
        Wrote::WriteFault => ModelEnd::WriteFault,
    }
}
