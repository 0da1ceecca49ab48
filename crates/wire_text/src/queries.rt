//! What is asked of the model and of the parameters, with its arguments.

ghost use Rattle.wire_text.specs.Line.{words_of};
ghost use Rattle.wire_text.specs.Reading.{Reads, read_behind};
ghost use Rattle.wire_text.specs.declared.verb.Verb.TheVariants.{Get};
ghost use Rattle.wire_text.specs.declared.verb.Query.TheVariants as query_word;

use crate::arguments::{alone, one_name, two_names};
use crate::command::Command;
use crate::verb::Query;
use crate::words::{next_word, no_more};
use base_names::{Refusal, Text};
use std::alloc::Global;

/// The question that the words behind the command ask.
pub(crate) fn question(alloc: Global, query: Query, rest: &[u8]) -> Result<Command, Refusal>
    ensures { Reads (read_behind (Get query) (words_of rest.now)) result }
{
    match query {
        Query::Lb => Ok(Command::GetLb(one_name(alloc, rest)?)),
        Query::Ub => Ok(Command::GetUb(one_name(alloc, rest)?)),
        Query::Obj => Ok(Command::GetObj(one_name(alloc, rest)?)),
        Query::Type => Ok(Command::GetType(one_name(alloc, rest)?)),
        Query::Rhs => Ok(Command::GetRhs(one_name(alloc, rest)?)),
        Query::Sense => Ok(Command::GetSense(one_name(alloc, rest)?)),
        Query::Coeff => {
            let (row, var) = two_names(alloc, rest)?;
            Ok(Command::GetCoeff(row, var))
        }
        Query::VTag => Ok(Command::GetVTag(one_name(alloc, rest)?)),
        Query::NumVars => alone(rest, Command::GetNumVars),
        Query::NumConstrs => alone(rest, Command::GetNumConstrs),
        Query::Param => param(alloc, rest),
    }
}

fn param(alloc: Global, rest: &[u8]) -> Result<Command, Refusal>
    ensures { Reads (read_behind (Get query_word.Param) (words_of rest.now)) result }
{
    let (name, rest) = next_word(rest)?;
    no_more(rest)?;
    Ok(Command::GetParam(Text::of(name.to_vec(alloc)?)))
}
