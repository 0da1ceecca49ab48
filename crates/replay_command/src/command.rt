//! The command over a source and a sink.

ghost use Rattle.std.specs.Prelude.{◌≡◌};
ghost use Rattle.base_names.specs.Outside.{Rose};
ghost use Rattle.model_data.specs.declared.batch.BatchBody.{BatchBody};
ghost use Rattle.model_data.specs.declared.batch.BatchResult.{BatchResult};
ghost use Rattle.replay_command.specs.Replayed.{Replayed};

use crate::answering::answer;
use crate::frame::ScriptBlocks;
use crate::standing::{Answer, Standing};
use base_io::{LineReader, Sink, Source, Wrote, put};
use session::{NextFrame, next_frame};
use std::alloc::Global;

/// How a script ended.
#[derive(Clone, Copy, Debug, PartialEq, Eq)]
pub enum ReplayEnd {
    Done,
    /// The line of this number is refused.
    Refused(u64),
    ReadFault,
    WriteFault,
    /// A step found no memory, and no session answered so.
    NoMemory,
    /// A line, or the script as a whole, is too long.
    TooLong,
}

/// Reads a script, and writes what its steps give, each before the next line is read. A line whose block the script's end cuts short is
/// refused.
pub fn replay<S: Source, K: Sink>(alloc: Global, source: &mut S, sink: &mut K) -> ReplayEnd
    ensures same_source { S.name source.new ≡ S.name source.old }
    ensures same_sink { K.name sink.new ≡ K.name sink.old }
    ensures replayed { (plain : BatchBody → BatchResult) → Replayed plain result (S.left source.old) (S.left source.new) (K.contents sink.old) (K.contents sink.new) }
    ensures read_fault { result ≡ ReplayEnd.ReadFault → Rose (S.faults source.old) (S.faults source.new) }
    ensures write_fault { result ≡ ReplayEnd.WriteFault → Rose (K.faults sink.old) (K.faults sink.new) }
{
    let mut reader = LineReader::new(alloc);
    let mut said = Vec::new(alloc);
    let mut standing = Standing::Fresh;
    loop {
        let (line, block) = match next_frame::<S, ScriptBlocks>(alloc, &mut reader, source) {
            Ok(NextFrame::Whole(line, block)) => (line, block),
            Ok(NextFrame::End) => return ReplayEnd::Done,
            Ok(NextFrame::Cut) => return ReplayEnd::Refused(standing.lines() + 1),
            Ok(NextFrame::TooLong) => return ReplayEnd::TooLong,
            Ok(NextFrame::ReadFault) => return ReplayEnd::ReadFault,
            Err(_) => return ReplayEnd::NoMemory,
        };
        said.clear();
        standing = match answer(
            alloc,
            standing,
            line.as_bytes(),
            block.as_bytes(),
            &mut said,
        ) {
            Ok(Answer::Next(next)) => next,
            Ok(Answer::Refused(number)) => return ReplayEnd::Refused(number),
            Err(_) => return ReplayEnd::NoMemory,
        };
        match put(sink, said.as_slice()) {
            Wrote::Done => {}
            Wrote::WriteFault => return ReplayEnd::WriteFault,
        }
    }
}
