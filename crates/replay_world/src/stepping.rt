//! The steps of a script, one by one.

ghost use Rattle.std.specs.Prelude.{◌≡◌, ◌≤◌, length, unwrap_or, is_some, true, IfOk};
ghost use Rattle.script_text.specs.Steps.{block_of};
ghost use Rattle.wire_text.specs.Line.{words_of};
ghost use Rattle.replay_world.specs.Events.{start_event};
ghost use Rattle.replay_world.specs.Stepping.{StepSays, Took};
ghost use Rattle.replay_world.specs.Steps.{armed_text, hung, says, seated, starts, stopped_text, stops, with_disk};
ghost use Rattle.replay_world.specs.Views.{IsSound, IsWhole, KeepsJournal, Leads, disk_of, view};
ghost use Rattle.replay_world.specs.World.{halted};
ghost use Rattle.disk_model.specs.Memory.{IsLawfulArm, armed};
ghost use Rattle.std.specs.Prelude.{Some};

use crate::machine::Machine;
use crate::taken::Taken;
use crate::telling::{append_armed, append_hung, append_seated, append_stopped};
use crate::world::World;
use base_names::{NoMemory, Owner, Role, Seat};
use disk_model::{Arm, Image};
use script_text::Step;
use session::Session;

impl World {
    /// Does a step with its command line and block, and puts what it says behind what stands in a buffer.
    pub fn step(
        self,
        step: &Step,
        line: &[u8],
        block: &[u8],
        out: &mut Vec<u8>,
    ) -> Result<(World, Taken), NoMemory>
        requires whole { IsWhole self }
        requires block { length block.now ≡ unwrap_or (block_of step.now (words_of line.now)) 0 }
        ensures { IfOk result (λ r. StepSays r.1 self step.now (words_of line.now) block.now r.0 out.old.items out.new.items) }
    {
        match step {
            Step::Limits { .. } => Ok((self, Taken::Refused)),
            Step::Fault(0) => Ok((self, Taken::Refused)),
            Step::Seat(number, owner, role) => self.seat(*number, *owner, *role, out),
            Step::At(number) => self.give(*number, line, block, out),
            Step::Hang(number) => self.hang(*number, out),
            Step::Fault(k) => self.arm(Arm::Fail(*k), out),
            Step::Stop(0, image) => self.stop(*image, out),
            Step::Stop(k, image) => self.arm(Arm::Stop(*k, *image), out),
            Step::Open => self.open(out),
        }
    }

    /// A session begins at a free seat.
    fn seat(
        self,
        number: u8,
        owner: Owner,
        role: Role,
        out: &mut Vec<u8>,
    ) -> Result<(World, Taken), NoMemory>
        requires { IsWhole self }
        ensures took { IfOk result (λ r. Took r.1 (seated (view self) record { number = number; owner = owner; role = role }) r.0 out.old.items out.new.items) }
        ensures journal { IfOk result (λ r. KeepsJournal self r.0) }
    {
        let mut world = self;
        if !world.machine.is_running() {
            return Ok((world, Taken::Refused));
        }
        if world.place_of(number).is_some() {
            return Ok((world, Taken::Refused));
        }
        let seat = Seat {
            number: u32::from(number),
            owner,
            role,
        };
        world.sessions.push(Session::new(world.alloc, seat))?;
        append_seated(out, number)?;
        Ok((world, Taken::Done))
    }

    /// A session's input ends.
    fn hang(self, number: u8, out: &mut Vec<u8>) -> Result<(World, Taken), NoMemory>
        requires { IsWhole self }
        ensures took { IfOk result (λ r. Took r.1 (hung (view self) number) r.0 out.old.items out.new.items) }
        ensures journal { IfOk result (λ r. KeepsJournal self r.0) }
    {
        let mut world = self;
        let Some(place) = world.place_of(number) else {
            return Ok((world, Taken::Refused));
        };
        let mut session = world.sessions.remove(place);
        world.machine.hang(world.alloc, &mut session);
        append_hung(out, number)?;
        Ok((world, Taken::Done))
    }

    /// A stop came: it ends all sessions, and the file isn't open.
    pub(crate) fn halt(self, out: &mut Vec<u8>) -> Result<(World, Taken), NoMemory>
        requires { IsWhole self }
        ensures took { IfOk result (λ r. Took r.1 (Some (says (halted (view self)) stopped_text)) r.0 out.old.items out.new.items) }
        ensures journal { IfOk result (λ r. KeepsJournal self r.0) }
    {
        let World {
            alloc,
            setup,
            machine,
            sessions: _sessions,
        } = self;
        append_stopped(out)?;
        let world = World {
            alloc,
            setup,
            machine: Machine::Lying(machine.into_disk()),
            sessions: Vec::new(alloc),
        };
        Ok((world, Taken::Done))
    }

    /// The machine stops.
    fn stop(self, image: Image, out: &mut Vec<u8>) -> Result<(World, Taken), NoMemory>
        requires { IsWhole self }
        ensures took { IfOk result (λ r. Took r.1 (Some (stops (view self) 0 image)) r.0 out.old.items out.new.items) }
        ensures journal { IfOk result (λ r. KeepsJournal self r.0) }
    {
        let mut world = self;
        world.machine.arm(world.alloc, Arm::Stop(0, image))?;
        world.halt(out)
    }

    /// Arms a failure or a stop.
    fn arm(self, arm: Arm, out: &mut Vec<u8>) -> Result<(World, Taken), NoMemory>
        requires whole { IsWhole self }
        requires lawful { IsLawfulArm arm }
        ensures took { IfOk result (λ r. Took r.1 (Some (says (with_disk (view self) (armed arm (disk_of self.machine))) armed_text)) r.0 out.old.items out.new.items) }
        ensures journal { IfOk result (λ r. KeepsJournal self r.0) }
    {
        let mut world = self;
        world.machine.arm(world.alloc, arm)?;
        append_armed(out)?;
        Ok((world, Taken::Done))
    }

    /// The machine starts again, and its file is opened.
    fn open(self, out: &mut Vec<u8>) -> Result<(World, Taken), NoMemory>
        requires { IsWhole self }
        ensures took { IfOk result (λ r. Took r.1 (starts (view self)) r.0 out.old.items out.new.items) }
        ensures journal { IfOk result (λ r. Leads (start_event (view self)) self r.0) }
    {
        if self.machine.is_running() {
            return Ok((self, Taken::Refused));
        }
        let World {
            alloc,
            setup,
            machine,
            sessions,
        } = self;
        let machine = Machine::started(alloc, machine.into_disk(), setup)?;
        let world = World {
            alloc,
            setup,
            machine,
            sessions,
        };
        if world.machine.is_stopped() {
            return world.halt(out);
        }
        world.machine.tell_opening(out)?;
        Ok((world, Taken::Done))
    }
}
