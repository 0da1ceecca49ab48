//! One line of a session, answered into a buffer.

ghost use Rattle.std.specs.Prelude.{◌≡◌, [], Ok, Result, IfOk, length, unwrap_or, false, Bool};
ghost use Rattle.session.specs.Hearing.{WasAsked, is_bye};
ghost use Rattle.session.specs.Step.{Answers, AnswersLine};
ghost use Rattle.session.specs.Transcript.{wants};
ghost use Rattle.wire_text.specs.Commands.{block_len_of, command_of};
ghost use Rattle.wire_text.specs.Lawful.{IsLawfulCommand};

use crate::state::State;
use base_names::NoMemory;
use hub_words::Desk;
use std::alloc::Global;
use wire_text::{Command, append_bye, append_refusal, read_command};

impl State {
    /// Answers a line with its block, and says whether it ends the session.
    pub fn answer<E: Desk>(
        &mut self,
        desk: &mut E,
        alloc: Global,
        line: &[u8],
        block: &[u8],
        out: &mut Vec<u8>,
    ) -> Result<bool, NoMemory>
        requires block { length block.now ≡ unwrap_or (wants line.now) 0 }
        requires empty { out.old.items ≡ [] }
        ensures same { E.name desk.new ≡ E.name desk.old }
        ensures answers { AnswersLine result (command_of line.now) block.now self.old self.new out.new.items (E.mine desk.old) (E.mine desk.new) (E.fulls desk.old) (E.fulls desk.new) (λ calls. WasAsked E.makes self.old.seat desk.old calls desk.new) }
    {
        match read_command(alloc, line) {
            Ok(command) => {
                let is_last = matches!(command, Command::Bye);
                self.obey(desk, alloc, command, block, out)?;
                Ok(is_last)
            }
            Err(refusal) => {
                append_refusal(out, &refusal)?;
                Ok(false)
            }
        }
    }

    /// Obeys a command.
    fn obey<E: Desk>(
        &mut self,
        desk: &mut E,
        alloc: Global,
        command: Command,
        block: &[u8],
        out: &mut Vec<u8>,
    ) -> Result<(), NoMemory>
        requires lawful { IsLawfulCommand command }
        requires block { length block.now ≡ unwrap_or (block_len_of (Ok command)) 0 }
        requires empty { out.old.items ≡ [] }
        ensures same { E.name desk.new ≡ E.name desk.old }
        ensures answers { Answers result (Ok command) block.now self.old self.new out.new.items (E.mine desk.old) (E.mine desk.new) (E.fulls desk.old) (E.fulls desk.new) (λ calls. WasAsked E.makes self.old.seat desk.old calls desk.new) (is_bye command) }
    {
        match command {
            Command::Read(len) => self.read(alloc, len, block, out),
            Command::Queue(change) => self.queue(alloc, change, out),
            Command::Update => self.update(out),
            Command::GetLb(name) => self.tell_lower(&name, out),
            Command::GetUb(name) => self.tell_upper(&name, out),
            Command::GetObj(name) => self.tell_objective(&name, out),
            Command::GetType(name) => self.tell_kind(&name, out),
            Command::GetRhs(name) => self.tell_side(&name, out),
            Command::GetSense(name) => self.tell_sense(&name, out),
            Command::GetCoeff(row, var) => self.tell_coefficient(&row, &var, out),
            Command::GetVTag(name) => self.tell_tag(&name, out),
            Command::GetNumVars => self.count_vars(out),
            Command::GetNumConstrs => self.count_rows(out),
            Command::GetParam(name) => self.tell_parameter(&name, out),
            Command::Write => self.write(alloc, out),
            Command::SetParam(name, value) => self.set_parameter(&name, &value, out),
            Command::Batch => self.submit(desk, alloc, out),
            Command::BStatus(id) => self.tell_status(desk, alloc, id, out),
            Command::Bye => append_bye(out),
        }
    }
}
