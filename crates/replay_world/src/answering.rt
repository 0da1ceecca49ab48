//! A session gets a line.

ghost use Rattle.std.specs.Prelude.{◌≡◌, ◌<◌, ℕ, length, position, unwrap_or, Some, IfOk};
ghost use Rattle.session.specs.Session.{Session as kept};
ghost use Rattle.session.specs.Transcript.{wants};
ghost use Rattle.wire_text.specs.Commands.{command_of};
ghost use Rattle.wire_text.specs.Line.{words_of};
ghost use Rattle.replay_world.specs.Answering.{Answered};
ghost use Rattle.replay_world.specs.Stepping.{StepSays, Took};
ghost use Rattle.replay_world.specs.Steps.{out_text, says, unless_stopped};
ghost use Rattle.replay_world.specs.Views.{IsSound, IsWhole, KeepsJournal, disk_of, view};
ghost use Rattle.replay_world.specs.World.{session_at, sits_at};

use crate::machine::Machine;
use crate::taken::Taken;
use crate::telling::append_out;
use crate::world::World;
use base_io::MemSink;
use base_names::NoMemory;
use desk::OwnDesk;
use disk_model::MemDisk;
use script_text::Step;
use session::{Next, Session};
use std::alloc::Global;

impl World {
    /// A session gets a line with its block.
    pub(crate) fn give(
        self,
        number: u8,
        line: &[u8],
        block: &[u8],
        out: &mut Vec<u8>,
    ) -> Result<(World, Taken), NoMemory>
        requires whole { IsWhole self }
        requires block { length block.now ≡ unwrap_or (wants line.now) 0 }
        ensures { IfOk result (λ r. StepSays r.1 self (Step.At number) (words_of line.now) block.now r.0 out.old.items out.new.items) }
    {
        let mut world = self;
        let Some(place) = world.place_of(number) else {
            return Ok((world, Taken::Refused));
        };
        let Machine::Running(desk) = &mut world.machine else {
            return Ok((world, Taken::Refused));
        };
        let said = answer(world.alloc, desk, &mut world.sessions, place, line, block)?;
        desk.has_its_table();
        world.tell(number, said.bytes().as_slice(), out)
    }

    /// Tells what a session wrote, unless a stop came.
    fn tell(self, number: u8, text: &[u8], out: &mut Vec<u8>) -> Result<(World, Taken), NoMemory>
        requires { IsSound self.setup self.machine }
        ensures whole { IfOk result (λ r. (disk_of self.machine).refused ≡ 0) }
        ensures told { IfOk result (λ r. Took r.1 (Some (unless_stopped (says (view self) (out_text number text.now)))) r.0 out.old.items out.new.items) }
        ensures journal { IfOk result (λ r. KeepsJournal self r.0) }
    {
        if self.machine.refused() > 0 {
            return Err(NoMemory);
        }
        if self.machine.is_stopped() {
            return self.halt(out);
        }
        append_out(out, number, text)?;
        Ok((self, Taken::Done))
    }
}

/// A session answers a line, and leaves where that was its last.
fn answer(
    alloc: Global,
    desk: &mut OwnDesk<MemDisk>,
    sessions: &mut Vec<Session>,
    place: usize,
    line: &[u8],
    block: &[u8],
) -> Result<MemSink, NoMemory>
    requires there { place < length sessions.old.items }
    requires block { length block.now ≡ unwrap_or (wants line.now) 0 }
    ensures { (session : kept) (number : ℕ) → position (sits_at number) sessions.old.items ≡ Some place → session_at number sessions.old.items ≡ Some session → IfOk result (λ said. Answered number session (command_of line.now) block.now desk.old desk.new sessions.old.items sessions.new.items said.contents) }
{
    let mut said = MemSink::new(alloc, Vec::new(alloc));
    match sessions[place].step(desk, alloc, line, block, &mut said) {
        Next::More => {}
        Next::Bye => {
            sessions.remove(place);
        }
        Next::WriteFault | Next::NoMemory => return Err(NoMemory),
    }
    Ok(said)
}
