//! Lines read as commands.

ghost use Rattle.std.specs.Prelude.{◌≡◌, ◌⊎◌, IfErr, IfOk, Ok, Err};
ghost use Rattle.base_names.specs.declared.refusal.Refusal.TheVariants.{MEMORY};
ghost use Rattle.wire_text.specs.Commands.{block_len_of, command_of};
ghost use Rattle.wire_text.specs.Lawful.{IsLawfulCommand};
ghost use Rattle.wire_text.specs.Line.{words_of};
ghost use Rattle.wire_text.specs.Reading.{Reads, given, read_behind};
ghost use Rattle.wire_text.specs.declared.command.Command.TheVariants.{Read};
ghost use Rattle.wire_text.specs.declared.verb.Verb.TheVariants as verb;

use crate::arguments::alone;
use crate::changes::change;
use crate::command::Command;
use crate::queries::question;
use crate::telling::{batch, size, whole};
use crate::verb::Verb;
use crate::words::{next_word, no_more};
use base_names::{Refusal, Text};
use std::alloc::Global;

/// The command that a line is. LINE: it is none. NAME, RANGE: the first of its words that tells nothing is no name, or is a
/// number out of range. MEMORY: there was none, whatever the line is.
pub fn read_command(alloc: Global, line: &[u8]) -> Result<Command, Refusal>
    ensures read { IfOk result (λ command. command_of line.now ≡ Ok command) }
    ensures refused { IfErr result (λ refusal. (refusal ≡ MEMORY) ⊎ (command_of line.now ≡ Err refusal)) }
    // Its change may be queued, and its block isn't too long.
    ensures lawful { IfOk result IsLawfulCommand }
{
    let Some((verb, rest)) = Verb::at(line) else {
        return Err(Refusal::LINE);
    };
    read_behind(alloc, verb, rest)
}

/// The command whose name was read, by the words behind that.
fn read_behind(alloc: Global, verb: Verb, rest: &[u8]) -> Result<Command, Refusal>
    ensures { Reads (read_behind verb (words_of rest.now)) result }
{
    match verb {
        Verb::Read => Ok(Command::Read(size_behind(rest)?)),
        Verb::Change(verb) => Ok(Command::Queue(change(alloc, verb, rest)?)),
        Verb::Update => alone(rest, Command::Update),
        Verb::Get(query) => question(alloc, query, rest),
        Verb::Write => alone(rest, Command::Write),
        Verb::SetParam => set_param(alloc, rest),
        Verb::Batch => alone(rest, Command::Batch),
        Verb::BStatus => bstatus(rest),
        Verb::Bye => alone(rest, Command::Bye),
    }
}

/// The length of the block that the words behind `READ` tell. `None`: it is too long.
fn size_behind(rest: &[u8]) -> Result<Option<u32>, Refusal>
    ensures { given (λ size. Read size) result ≡ read_behind verb.Read (words_of rest.now) }
{
    let (word, rest) = next_word(rest)?;
    let size = size(word)?;
    no_more(rest)?;
    Ok(size)
}

fn set_param(alloc: Global, rest: &[u8]) -> Result<Command, Refusal>
    ensures { Reads (read_behind verb.SetParam (words_of rest.now)) result }
{
    let (name, rest) = next_word(rest)?;
    let (word, rest) = next_word(rest)?;
    let value = whole(word)?;
    no_more(rest)?;
    let value = value?;
    Ok(Command::SetParam(Text::of(name.to_vec(alloc)?), value))
}

fn bstatus(rest: &[u8]) -> Result<Command, Refusal>
    ensures { Reads (read_behind verb.BStatus (words_of rest.now)) result }
{
    let (word, rest) = next_word(rest)?;
    let id = batch(word)?;
    no_more(rest)?;
    Ok(Command::BStatus(id))
}

/// How many bytes of a block stand behind a line. `None`: no block does. It takes no memory.
pub fn block_len(line: &[u8]) -> Option<u32>
    ensures { result ≡ block_len_of (command_of line.now) }
{
    let (verb, rest) = Verb::at(line)?;
    block_len_behind(verb, rest)
}

fn block_len_behind(verb: Verb, rest: &[u8]) -> Option<u32>
    ensures { result ≡ block_len_of (read_behind verb (words_of rest.now)) }
{
    match verb {
        Verb::Read => size_behind(rest).unwrap_or(None),
        _ => None,
    }
}
