//! What comes of a line.

ghost use Rattle.std.specs.Prelude.{◌≡◌, ◌<◌, ◌+◌, ◌^◌, Ok, Some, length, unwrap_or};
ghost use Rattle.script_text.specs.Steps.{block_wanted, command_words, step_of};
ghost use Rattle.wire_text.specs.Line.{words_of};
ghost use Rattle.cluster_defs.specs.Journal.{none_yet};
ghost use Rattle.replay_world.specs.Views.{HasJournal, IsWhole, view};
ghost use Rattle.replay_command.specs.Answering.{AnswerSays, HasJournalAt, IsWholeAt, standing_of};
ghost use Rattle.replay_command.specs.Script.{answer_to, first_said, limits_of, line_said, lines_behind, next_line};

use crate::standing::{Answer, Standing};
use base_names::NoMemory;
use hub_core::Limits;
use replay_world::{Taken, World};
use script_text::{Step, command_line, read_step};
use std::alloc::Global;

/// Does what a line asks for, and puts what that says into a buffer.
pub(crate) fn answer(
    alloc: Global,
    standing: Standing,
    line: &[u8],
    block: &[u8],
    said: &mut Vec<u8>,
) -> Result<Answer, NoMemory>
    requires whole { IsWholeAt standing }
    requires few { lines_behind (standing_of standing) < 2 ^ 40 }
    requires block { length block.now ≡ unwrap_or (block_wanted line.now) 0 }
    ensures { AnswerSays result (next_line (standing_of standing)) (λ plain memory. answer_to plain (standing_of standing) line.now block.now memory) (λ j. HasJournalAt j standing) said.old.items said.new.items }
{
    let found = read_step(line);
    match standing {
        Standing::Fresh => answer_first(alloc, &found, line, block, said),
        Standing::Behind(lines, world) => answer_in(lines + 1, world, &found, line, block, said),
    }
}

/// The same of the first line, which may be the limits.
fn answer_first(
    alloc: Global,
    found: &Option<Step>,
    line: &[u8],
    block: &[u8],
    said: &mut Vec<u8>,
) -> Result<Answer, NoMemory>
    requires found { found.now ≡ step_of (words_of line.now) }
    requires block { length block.now ≡ unwrap_or (block_wanted line.now) 0 }
    ensures { AnswerSays result 1 (λ plain memory. first_said plain found.now (command_words (words_of line.now)) block.now memory) (λ j. j ≡ none_yet) said.old.items said.new.items }
{
    match limits_of(found) {
        Some(limits) => Ok(Answer::Next(Standing::Behind(1, World::new(alloc, limits)?))),
        None => answer_in(
            1,
            World::new(alloc, Limits::usual())?,
            found,
            line,
            block,
            said,
        ),
    }
}

/// The limits that a line sets.
fn limits_of(found: &Option<Step>) -> Option<Limits>
    ensures { result ≡ limits_of found.now }
{
    match found {
        Some(
            Step::Limits {
                commands,
                bytes,
                journal,
            },
        ) => Some(Limits {
            commands: *commands,
            bytes: *bytes,
            journal: *journal,
        }),
        _ => None,
    }
}

/// The same of the line of this number, in a world.
fn answer_in(
    number: u64,
    world: World,
    found: &Option<Step>,
    line: &[u8],
    block: &[u8],
    said: &mut Vec<u8>,
) -> Result<Answer, NoMemory>
    requires whole { IsWhole world }
    requires found { found.now ≡ step_of (words_of line.now) }
    requires block { length block.now ≡ unwrap_or (block_wanted line.now) 0 }
    ensures { AnswerSays result number (λ plain memory. line_said plain number (view world) found.now (command_words (words_of line.now)) block.now memory) (λ j. HasJournal j world.machine) said.old.items said.new.items }
{
    let Some(step) = found else {
        return Ok(Answer::Refused(number));
    };
    let (world, taken) = world.step(step, command_line(line), block, said)?;
    match taken {
        Taken::Done => Ok(Answer::Next(Standing::Behind(number, world))),
        Taken::Refused => Ok(Answer::Refused(number)),
    }
}
