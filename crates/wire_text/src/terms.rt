//! The terms of a row: pairs of a number and a name up to the line's end.

ghost use Rattle.std.specs.Prelude.{◌≡◌, ◌∷◌, [], ◌++◌, IfOk, Ok};
ghost use Rattle.wire_text.specs.Line.{words_of};
ghost use Rattle.wire_text.specs.Reading.{ReadsPairs, given, read_pairs, with_pair};

use crate::arguments::{named, owned};
use crate::telling::{Told, number};
use crate::words::{first_word, next_word};
use base_names::{NoMemory, Refusal};
use frac128::Frac;
use model_core::NamedTerm;
use std::alloc::Global;

/// The terms that the words spell. The first word that is no name, or whose number is too wide, decides.
pub(crate) fn terms(alloc: Global, rest: &[u8]) -> Result<Told<Vec<NamedTerm>>, Refusal>
    ensures { ReadsPairs (read_pairs (words_of rest.now)) (given (λ told. given (λ terms. terms.items) told) result) }
{
    let mut terms = Ok(Vec::new(alloc));
    let mut rest = rest;
    while let Some((coef, behind)) = first_word(rest) {
        let (var, behind) = next_word(behind)?;
        let coef = number(coef)?;
        terms = with_term(alloc, terms, coef, named(var))?;
        rest = behind;
    }
    Ok(terms)
}

/// The terms, and one more behind them.
fn with_term(
    alloc: Global,
    terms: Told<Vec<NamedTerm>>,
    coef: Told<Frac>,
    name: Told<&[u8]>,
) -> Result<Told<Vec<NamedTerm>>, NoMemory>
    ensures { IfOk result (λ longer. given (λ terms. terms.items) longer ≡ with_pair (given (λ terms. terms.items) terms) coef (given (λ name. name.now) name.entry)) }
{
    let mut terms = match terms {
        Ok(terms) => terms,
        Err(refusal) => return Ok(Err(refusal)),
    };
    let coef = match coef {
        Ok(coef) => coef,
        Err(refusal) => return Ok(Err(refusal)),
    };
    let name = match name {
        Ok(name) => owned(alloc, name)?,
        Err(refusal) => return Ok(Err(refusal)),
    };
    terms.push(NamedTerm { name, coef })?;
    Ok(Ok(terms))
}
