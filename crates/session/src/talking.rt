//! A whole session over a desk, a source and a sink.

ghost use Rattle.std.specs.Prelude.{◌≡◌, ◌≤◌, true};
ghost use Rattle.base_names.specs.Outside.{IsAtEnd, Rose};
ghost use Rattle.session.specs.Conversing.{Converses};
ghost use Rattle.session.specs.Transcript.{first_session};

use crate::frame::{NextFrame, next_frame};
use crate::session::{CommandBlocks, Session};
use crate::step::Next;
use base_io::{LineReader, Sink, Source};
use base_names::Seat;
use hub_words::Desk;
use std::alloc::Global;

/// How a session ended.
#[derive(Clone, Copy, Debug, PartialEq, Eq)]
pub enum End {
    /// `BYE` was answered.
    Bye,
    /// The input ended.
    Closed,
    ReadFault,
    WriteFault,
    /// A line, or the input as a whole, is too long.
    TooLong,
    /// A line, a block or an answer's own bytes found no memory.
    NoMemory,
}

/// Answers a seat's commands until the session ends. The reader may hold bytes of the source, and a line that was given
/// back.
pub fn talk<S: Source, K: Sink, E: Desk>(
    alloc: Global,
    seat: Seat,
    desk: &mut E,
    reader: &mut LineReader,
    source: &mut S,
    sink: &mut K,
) -> End
    requires { reader.old.ended ≡ true → IsAtEnd (S.left source.old) }
    ensures same_desk { E.name desk.new ≡ E.name desk.old }
    ensures same_source { S.name source.new ≡ S.name source.old }
    ensures same_sink { K.name sink.new ≡ K.name sink.old }
    ensures converses { Converses result seat reader.old (E.mine desk.old) (E.mine desk.new) (E.fulls desk.old) (E.fulls desk.new) (S.left source.old) (S.left source.new) (K.contents sink.old) (K.contents sink.new) }
    ensures read_fault { result ≡ End.ReadFault → Rose (S.faults source.old) (S.faults source.new) }
    ensures write_fault { result ≡ End.WriteFault → Rose (K.faults sink.old) (K.faults sink.new) }
{
    let mut session = Session::new(alloc, seat);
    let end = converse(alloc, &mut session, desk, reader, source, sink);
    session.hang(desk, alloc);
    end
}

/// The same with a session that has read nothing.
fn converse<S: Source, K: Sink, E: Desk>(
    alloc: Global,
    session: &mut Session,
    desk: &mut E,
    reader: &mut LineReader,
    source: &mut S,
    sink: &mut K,
) -> End
    requires ended { reader.old.ended ≡ true → IsAtEnd (S.left source.old) }
    requires first { session.old ≡ first_session session.old.seat }
    ensures same_desk { E.name desk.new ≡ E.name desk.old }
    ensures same_source { S.name source.new ≡ S.name source.old }
    ensures same_sink { K.name sink.new ≡ K.name sink.old }
    ensures converses { Converses result session.old.seat reader.old (E.mine desk.old) (E.mine desk.new) (E.fulls desk.old) (E.fulls desk.new) (S.left source.old) (S.left source.new) (K.contents sink.old) (K.contents sink.new) }
    ensures read_fault { result ≡ End.ReadFault → Rose (S.faults source.old) (S.faults source.new) }
    ensures write_fault { result ≡ End.WriteFault → Rose (K.faults sink.old) (K.faults sink.new) }
{
    loop {
        let (line, block) = match next_frame::<S, CommandBlocks>(alloc, reader, source) {
            Ok(NextFrame::Whole(line, block)) => (line, block),
            Ok(NextFrame::End) => return End::Closed,
            // a line without its whole block isn't answered
            Ok(NextFrame::Cut) => return End::Closed,
            Ok(NextFrame::TooLong) => return End::TooLong,
            Ok(NextFrame::ReadFault) => return End::ReadFault,
            Err(_) => return End::NoMemory,
        };
        match session.step(desk, alloc, line.as_bytes(), block.as_bytes(), sink) {
            Next::More => {}
            Next::Bye => return End::Bye,
            Next::WriteFault => return End::WriteFault,
            Next::NoMemory => return End::NoMemory,
        }
    }
}
