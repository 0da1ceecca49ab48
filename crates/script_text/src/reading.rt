//! Lines read as steps.

ghost use Rattle.std.specs.Prelude.{◌≡◌, drop};
ghost use Rattle.wire_text.specs.Line.{words_of};
ghost use Rattle.script_text.specs.Steps.{at_step, block_wanted, command_words, image_of, step_of};
ghost use Rattle.script_text.specs.Steps as steps;

use crate::step::Step;
use crate::words::{
    byte_number, bytes_number, commands_number, first_word, is, journal_number, no_more, role,
    seat_number,
};
use base_names::{Owner, read_digits};
use disk_model::Image;

/// The step that a line is. `None`: it is none.
pub fn read_step(line: &[u8]) -> Option<Step>
    ensures { result ≡ step_of (words_of line.now) }
{
    let (word, rest) = first_word(line)?;
    if is(word, "AT") {
        return command_step(rest);
    }
    plain_step(word, rest)
}

/// The command line in a step for a seat: what stands behind the line's first two words.
pub fn command_line(line: &[u8]) -> &[u8]
    ensures { words_of result.now ≡ command_words (words_of line.now) }
{
    behind_word(behind_word(line))
}

/// What stands behind a line's first word.
fn behind_word(line: &[u8]) -> &[u8]
    ensures { words_of result.now ≡ drop 1 (words_of line.now) }
{
    match first_word(line) {
        Some((_, rest)) => rest,
        None => line,
    }
}

/// A command line for a seat.
fn command_step(rest: &[u8]) -> Option<Step>
    ensures { result ≡ at_step (words_of rest.now) }
{
    let (word, _) = first_word(rest)?;
    Some(Step::At(seat_number(word)?))
}

/// A step without a command line.
fn plain_step(word: &[u8], rest: &[u8]) -> Option<Step>
    ensures { result ≡ steps.plain_step word.now (words_of rest.now) }
{
    if is(word, "LIMITS") {
        limits_step(rest)
    } else if is(word, "SEAT") {
        seat_step(rest)
    } else if is(word, "HANG") {
        hang_step(rest)
    } else if is(word, "FAULT") {
        fault_step(rest)
    } else if is(word, "STOP") {
        stop_step(rest)
    } else if is(word, "OPEN") {
        no_more(rest)?;
        Some(Step::Open)
    } else {
        None
    }
}

fn limits_step(rest: &[u8]) -> Option<Step>
    ensures { result ≡ steps.limits_step (words_of rest.now) }
{
    let (commands, rest) = first_word(rest)?;
    let (bytes, rest) = first_word(rest)?;
    let (journal, rest) = first_word(rest)?;
    no_more(rest)?;
    Some(Step::Limits {
        commands: commands_number(commands)?,
        bytes: bytes_number(bytes)?,
        journal: journal_number(journal)?,
    })
}

fn seat_step(rest: &[u8]) -> Option<Step>
    ensures { result ≡ steps.seat_step (words_of rest.now) }
{
    let (number, rest) = first_word(rest)?;
    let (name, rest) = first_word(rest)?;
    let (word, rest) = first_word(rest)?;
    no_more(rest)?;
    Some(Step::Seat(seat_number(number)?, Owner::read(name)?, role(word)?))
}

fn hang_step(rest: &[u8]) -> Option<Step>
    ensures { result ≡ steps.hang_step (words_of rest.now) }
{
    let (number, rest) = first_word(rest)?;
    no_more(rest)?;
    Some(Step::Hang(seat_number(number)?))
}

fn fault_step(rest: &[u8]) -> Option<Step>
    ensures { result ≡ steps.fault_step (words_of rest.now) }
{
    let (number, rest) = first_word(rest)?;
    no_more(rest)?;
    match read_digits(number)? {
        0 => None,
        k => Some(Step::Fault(k)),
    }
}

fn stop_step(rest: &[u8]) -> Option<Step>
    ensures { result ≡ steps.stop_step (words_of rest.now) }
{
    let (number, rest) = first_word(rest)?;
    let k = read_digits(number)?;
    Some(Step::Stop(k, image(rest)?))
}

/// What a stop leaves, by the words behind its number.
fn image(rest: &[u8]) -> Option<Image>
    ensures { result ≡ image_of (words_of rest.now) }
{
    let (word, rest) = first_word(rest)?;
    if is(word, "FILL") {
        let (byte, rest) = first_word(rest)?;
        no_more(rest)?;
        return Some(Image::Fill(byte_number(byte)?));
    }
    no_more(rest)?;
    if is(word, "OLD") {
        Some(Image::Old)
    } else if is(word, "NEW") {
        Some(Image::New)
    } else {
        None
    }
}

/// How many bytes of a block stand behind a line: as many as its command asks for. `None`: no block does. It takes no memory.
pub fn block_len(line: &[u8]) -> Option<u32>
    ensures { result ≡ block_wanted line.now }
{
    match read_step(line)? {
        Step::At(_) => wire_text::block_len(command_line(line)),
        _ => None,
    }
}
