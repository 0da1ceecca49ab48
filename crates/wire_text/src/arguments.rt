//! The arguments behind a command, for each sequence that several commands have.
//!
//! A line that doesn't fit is LINE whatever its words tell, so all words are looked at before NAME or RANGE is answered, and
//! nothing is allocated before that.

ghost use Rattle.std.specs.Prelude.{◌≡◌, IfOk, List, ℕ};
ghost use Rattle.frac128.specs.Fraction.{Fraction};
ghost use Rattle.wire_text.specs.Forms.{nothing, ◌then◌};
ghost use Rattle.wire_text.specs.Kinds.{name, number, told};
ghost use Rattle.wire_text.specs.Line.{words_of};
ghost use Rattle.wire_text.specs.Reading.{Reads, given, read_as};
ghost use Rattle.wire_text.specs.declared.command.Command.{Command as Made};

use crate::command::Command;
use crate::telling::{Told, number};
use crate::words::{next_word, no_more};
use base_names::{Name, NoMemory, Refusal};
use frac128::Frac;
use model_data::is_name;
use std::alloc::Global;

/// The name that a word is.
pub(crate) fn named(word: &[u8]) -> Told<&[u8]>
    ensures { given (λ name. name.now) result ≡ told name word.now }
{
    if is_name(word) {
        Ok(word)
    } else {
        Err(Refusal::NAME)
    }
}

/// A name of one's own.
pub(crate) fn owned(alloc: Global, name: &[u8]) -> Result<Name, NoMemory>
    ensures { IfOk result (λ owned. owned ≡ name.now) }
{
    Ok(Name::of(name.to_vec(alloc)?))
}

/// A command without arguments.
pub(crate) fn alone(rest: &[u8], command: Command) -> Result<Command, Refusal>
    ensures { Reads (read_as nothing command (words_of rest.now)) result }
{
    no_more(rest)?;
    Ok(command)
}

/// A name.
pub(crate) fn one_name(alloc: Global, rest: &[u8]) -> Result<Name, Refusal>
    ensures { (makes : List ℕ → Made) → Reads (read_as (name then nothing) makes (words_of rest.now)) (given makes result) }
{
    let (word, rest) = next_word(rest)?;
    no_more(rest)?;
    let name = named(word)?;
    Ok(owned(alloc, name)?)
}

/// Two names.
pub(crate) fn two_names(alloc: Global, rest: &[u8]) -> Result<(Name, Name), Refusal>
    ensures { (makes : List ℕ → List ℕ → Made) → Reads (read_as (name then name then nothing) makes (words_of rest.now)) (given (λ names. makes names.0 names.1) result) }
{
    let (first, rest) = next_word(rest)?;
    let (second, rest) = next_word(rest)?;
    no_more(rest)?;
    let first = named(first)?;
    let second = named(second)?;
    Ok((owned(alloc, first)?, owned(alloc, second)?))
}

/// A name and a number.
pub(crate) fn name_and_number(alloc: Global, rest: &[u8]) -> Result<(Name, Frac), Refusal>
    ensures { (makes : List ℕ → Fraction → Made) → Reads (read_as (name then number then nothing) makes (words_of rest.now)) (given (λ found. makes found.0 found.1) result) }
{
    let (name, rest) = next_word(rest)?;
    let (word, rest) = next_word(rest)?;
    let value = number(word)?;
    no_more(rest)?;
    let name = named(name)?;
    let value = value?;
    Ok((owned(alloc, name)?, value))
}
