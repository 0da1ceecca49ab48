//! Changes of the model, with their arguments.

ghost use Rattle.std.specs.Prelude.{◌≡◌};
ghost use Rattle.wire_text.specs.Line.{words_of};
ghost use Rattle.wire_text.specs.Reading.{Reads, given, read_behind};
ghost use Rattle.wire_text.specs.declared.command.Command.TheVariants.{Queue};
ghost use Rattle.wire_text.specs.declared.verb.Verb.TheVariants.{Change as change_verb};
ghost use Rattle.wire_text.specs.declared.verb.ChangeVerb.TheVariants as verb;

use crate::arguments::{name_and_number, named, one_name, owned, two_names};
use crate::telling::{comparison, kind, lower, number, upper};
use crate::terms::terms;
use crate::verb::ChangeVerb;
use crate::words::{next_word, no_more};
use base_names::{Refusal, Seq, Tag};
use model_core::Change;
use model_data::{Var, is_tag};
use std::alloc::Global;

/// The change that the words behind the command ask for.
pub(crate) fn change(alloc: Global, verb: ChangeVerb, rest: &[u8]) -> Result<Change, Refusal>
    ensures { Reads (read_behind (change_verb verb) (words_of rest.now)) (given (λ change. Queue change) result) }
{
    match verb {
        ChangeVerb::AddVar => add_var(alloc, rest),
        ChangeVerb::AddConstr => add_constr(alloc, rest),
        ChangeVerb::ChgCoeff => chg_coeff(alloc, rest),
        ChangeVerb::SetObj => {
            let (name, value) = name_and_number(alloc, rest)?;
            Ok(Change::SetObj(name, value))
        }
        ChangeVerb::SetRhs => {
            let (name, value) = name_and_number(alloc, rest)?;
            Ok(Change::SetRhs(name, value))
        }
        ChangeVerb::SetLb => set_lb(alloc, rest),
        ChangeVerb::SetUb => set_ub(alloc, rest),
        ChangeVerb::SetSense => set_sense(alloc, rest),
        ChangeVerb::SetType => set_type(alloc, rest),
        ChangeVerb::SetVTag => set_vtag(alloc, rest),
        ChangeVerb::DelVar => Ok(Change::DelVar(one_name(alloc, rest)?)),
        ChangeVerb::DelConstr => Ok(Change::DelConstr(one_name(alloc, rest)?)),
    }
}

fn add_var(alloc: Global, rest: &[u8]) -> Result<Change, Refusal>
    ensures { Reads (read_behind (change_verb verb.AddVar) (words_of rest.now)) (given (λ change. Queue change) result) }
{
    let (name, rest) = next_word(rest)?;
    let (word, rest) = next_word(rest)?;
    let lower = lower(word)?;
    let (word, rest) = next_word(rest)?;
    let upper = upper(word)?;
    let (word, rest) = next_word(rest)?;
    let obj = number(word)?;
    let (word, rest) = next_word(rest)?;
    let kind = kind(word)?;
    no_more(rest)?;
    let name = named(name)?;
    let lower = lower?;
    let upper = upper?;
    let obj = obj?;
    Ok(Change::AddVar(Var {
        name: owned(alloc, name)?,
        lower,
        upper,
        obj,
        kind,
        tag: None,
    }))
}

fn add_constr(alloc: Global, rest: &[u8]) -> Result<Change, Refusal>
    ensures { Reads (read_behind (change_verb verb.AddConstr) (words_of rest.now)) (given (λ change. Queue change) result) }
{
    let (name, rest) = next_word(rest)?;
    let (word, rest) = next_word(rest)?;
    let sense = comparison(word)?;
    let (word, rest) = next_word(rest)?;
    let rhs = number(word)?;
    let terms = terms(alloc, rest)?;
    let name = named(name)?;
    let rhs = rhs?;
    let terms = terms?;
    Ok(Change::AddConstr(owned(alloc, name)?, sense, rhs, Seq::of(terms)))
}

fn chg_coeff(alloc: Global, rest: &[u8]) -> Result<Change, Refusal>
    ensures { Reads (read_behind (change_verb verb.ChgCoeff) (words_of rest.now)) (given (λ change. Queue change) result) }
{
    let (row, rest) = next_word(rest)?;
    let (var, rest) = next_word(rest)?;
    let (word, rest) = next_word(rest)?;
    let coef = number(word)?;
    no_more(rest)?;
    let row = named(row)?;
    let var = named(var)?;
    let coef = coef?;
    Ok(Change::ChgCoeff(owned(alloc, row)?, owned(alloc, var)?, coef))
}

fn set_lb(alloc: Global, rest: &[u8]) -> Result<Change, Refusal>
    ensures { Reads (read_behind (change_verb verb.SetLb) (words_of rest.now)) (given (λ change. Queue change) result) }
{
    let (name, rest) = next_word(rest)?;
    let (word, rest) = next_word(rest)?;
    let bound = lower(word)?;
    no_more(rest)?;
    let name = named(name)?;
    let bound = bound?;
    Ok(Change::SetLb(owned(alloc, name)?, bound))
}

fn set_ub(alloc: Global, rest: &[u8]) -> Result<Change, Refusal>
    ensures { Reads (read_behind (change_verb verb.SetUb) (words_of rest.now)) (given (λ change. Queue change) result) }
{
    let (name, rest) = next_word(rest)?;
    let (word, rest) = next_word(rest)?;
    let bound = upper(word)?;
    no_more(rest)?;
    let name = named(name)?;
    let bound = bound?;
    Ok(Change::SetUb(owned(alloc, name)?, bound))
}

fn set_sense(alloc: Global, rest: &[u8]) -> Result<Change, Refusal>
    ensures { Reads (read_behind (change_verb verb.SetSense) (words_of rest.now)) (given (λ change. Queue change) result) }
{
    let (name, rest) = next_word(rest)?;
    let (word, rest) = next_word(rest)?;
    let sense = comparison(word)?;
    no_more(rest)?;
    let name = named(name)?;
    Ok(Change::SetSense(owned(alloc, name)?, sense))
}

fn set_type(alloc: Global, rest: &[u8]) -> Result<Change, Refusal>
    ensures { Reads (read_behind (change_verb verb.SetType) (words_of rest.now)) (given (λ change. Queue change) result) }
{
    let (name, rest) = next_word(rest)?;
    let (word, rest) = next_word(rest)?;
    let kind = kind(word)?;
    no_more(rest)?;
    let name = named(name)?;
    Ok(Change::SetKind(owned(alloc, name)?, kind))
}

fn set_vtag(alloc: Global, rest: &[u8]) -> Result<Change, Refusal>
    ensures { Reads (read_behind (change_verb verb.SetVTag) (words_of rest.now)) (given (λ change. Queue change) result) }
{
    let (name, rest) = next_word(rest)?;
    let (tag, rest) = next_word(rest)?;
    if !is_tag(tag) {
        return Err(Refusal::LINE);
    }
    no_more(rest)?;
    let name = named(name)?;
    Ok(Change::SetTag(owned(alloc, name)?, Tag::of(tag.to_vec(alloc)?)))
}
