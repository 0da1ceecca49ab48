//! A session, line by line.

ghost use Rattle.std.specs.Prelude.{◌≡◌, ◌≤◌, length, unwrap_or};
ghost use Rattle.base_names.specs.Outside.{Rose};
ghost use Rattle.session.specs.Hearing.{WasAsked};
ghost use Rattle.session.specs.Step.{Steps};
ghost use Rattle.session.specs.Transcript.{first_session};
ghost use Rattle.session.specs.Transcript as transcript;
ghost use Rattle.wire_text.specs.Commands.{command_of};

use crate::frame::Blocks;
use crate::state::State;
use crate::step::Next;
use base_io::{Sink, Wrote, put};
use base_names::Seat;
use hub_words::Desk;
use std::alloc::Global;
use std::marker::Model;
use wire_text::block_len;

/// How many bytes of a block stand behind a line, whatever the session's state. None where no block does.
pub fn wants(line: &[u8]) -> Option<u32>
    ensures { result ≡ transcript.wants line.now }
{
    block_len(line)
}

/// The blocks behind commands.
pub(crate) struct CommandBlocks;

impl Blocks for CommandBlocks {
    ghost wants = { transcript.wants };

    fn len_behind(line: &[u8]) -> Option<u32> {
        wants(line)
    }
}

/// A session of a seat. Its answers are written into a buffer that it keeps.
#[derive(Drop)]
pub struct Session {
    state: State,
    reply: Vec<u8>,
}

impl Model for Session {
    ghost use Rattle.session.specs.Session.{Session as Kept};

    ghost Value = { Kept };

    ghost view = { λ s. s.state };
}

impl Session {
    /// A session that has read nothing. It keeps the allocator, and allocates nothing.
    pub fn new(alloc: Global, seat: Seat) -> Session
        ensures { result ≡ first_session seat }
    {
        Session {
            state: State::new(alloc, seat),
            reply: Vec::new(alloc),
        }
    }

    /// Whose session it is.
    pub fn seat(&self) -> &Seat
        ensures { result.now ≡ self.now.seat }
    {
        &self.state.seat
    }

    /// Answers a line with its block, which has as many bytes as [`wants`] gives.
    pub fn step<E: Desk, K: Sink>(
        &mut self,
        desk: &mut E,
        alloc: Global,
        line: &[u8],
        block: &[u8],
        sink: &mut K,
    ) -> Next
        requires { length block.now ≡ unwrap_or (transcript.wants line.now) 0 }
        ensures same_desk { E.name desk.new ≡ E.name desk.old }
        ensures same_sink { K.name sink.new ≡ K.name sink.old }
        ensures later { K.faults sink.old ≤ K.faults sink.new }
        ensures steps { Steps result (command_of line.now) block.now self.old self.new (E.mine desk.old) (E.mine desk.new) (E.fulls desk.old) (E.fulls desk.new) (λ calls. WasAsked E.makes self.old.seat desk.old calls desk.new) (K.contents sink.old) (K.contents sink.new) }
        ensures fault { result ≡ Next.WriteFault → Rose (K.faults sink.old) (K.faults sink.new) }
    {
        self.reply.clear();
        let Ok(is_last) = self.state.answer(desk, alloc, line, block, &mut self.reply) else {
            return Next::NoMemory;
        };
        match put(sink, self.reply.as_slice()) {
            Wrote::WriteFault => Next::WriteFault,
            Wrote::Done if is_last => Next::Bye,
            Wrote::Done => Next::More,
        }
    }

    /// Ends the session.
    pub fn hang<E: Desk>(&mut self, _desk: &mut E, alloc: Global)
        ensures session { self.new ≡ self.old }
        ensures desk { _desk.new ≡ _desk.old }
    {
        let _ = alloc;
    }
}
