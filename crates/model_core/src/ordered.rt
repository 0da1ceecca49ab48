//! The terms of a row by name, in the order of the variables.
ghost use Rattle.std.specs.Prelude.{◌≡◌, ◌⊎◌, ◌<◌, ◌≤◌, ◌^◌, IfErr, IfNone, IfOk, IfSome, OnOk, bytes_eq, false, filter, length, map, not, true};
ghost use Rattle.std.specs.List.{list_all, list_any};
ghost use Rattle.std.specs.List.Sorted.{IsNonDecreasingBy, IsPermutation};
ghost use Rattle.base_names.specs.declared.refusal.Refusal.TheVariants.{MEMORY, NAME};
ghost use Rattle.model_data.specs.Lawful.{AreDistinct};
ghost use Rattle.model_core.specs.Effect.{is_zero, terms_from};
ghost use Rattle.model_core.specs.One.{has_double};
ghost use Rattle.model_core.specs.Placed.{has_double_var, placed};

use crate::change::NamedTerm;
use crate::terms::is_zero;
use crate::texts::Texts;
use base_names::Refusal;
use model_data::Term;
use std::alloc::Global;

/// The terms by the places of their variables, in the order of these, without those of coefficient 0; None where a
/// variable stands twice. NAME: a variable isn't there.
pub(crate) fn ordered_terms(
    alloc: Global,
    vars: &Texts,
    terms: &[NamedTerm],
) -> Result<Option<Vec<Term>>, Refusal>
    requires distinct { AreDistinct vars.now.texts }
    requires few { length vars.now.texts < 2 ^ 32 }
    ensures known { OnOk result (list_all (λ t. list_any (bytes_eq t.name) vars.now.texts) terms.now ≡ true) }
    ensures refused { IfErr result (λ r. (r ≡ MEMORY) ⊎ ((r ≡ NAME) × (list_all (λ t. list_any (bytes_eq t.name) vars.now.texts) terms.now ≡ false))) }
    ensures double { IfOk result (λ o. IfNone o (has_double (map (λ t. t.name) terms.now) ≡ true)) }
    ensures single { IfOk result (λ o. IfSome o (λ _. has_double (map (λ t. t.name) terms.now) ≡ false)) }
    ensures terms { IfOk result (λ o. IfSome o (λ v. v.items ≡ terms_from 0 vars.now.texts terms.now)) }
{
    let mut ordered = placed_terms(alloc, vars, terms)?;
    put_in_order(&mut ordered);
    if has_double_var(ordered.as_slice()) {
        return Ok(None);
    }
    leave_zeros_out(&mut ordered);
    Ok(Some(ordered))
}

/// The terms by the places of their variables, as they come.
fn placed_terms(alloc: Global, vars: &Texts, terms: &[NamedTerm]) -> Result<Vec<Term>, Refusal>
    requires { length vars.now.texts < 2 ^ 32 }
    ensures known { OnOk result (list_all (λ t. list_any (bytes_eq t.name) vars.now.texts) terms.now ≡ true) }
    ensures refused { IfErr result (λ r. (r ≡ MEMORY) ⊎ ((r ≡ NAME) × (list_all (λ t. list_any (bytes_eq t.name) vars.now.texts) terms.now ≡ false))) }
    ensures terms { IfOk result (λ v. v.items ≡ map (placed vars.now.texts) terms.now) }
{
    let mut ordered = Vec::with_capacity(alloc, terms.len())?;
    for term in terms {
        let Some(place) = vars.place(term.name.as_bytes()) else {
            return Err(Refusal::NAME);
        };
        ordered.push(Term {
            var: place as u32,
            coef: term.coef,
        })?;
    }
    Ok(ordered)
}

fn put_in_order(terms: &mut Vec<Term>)
    ensures terms { IsPermutation terms.old.items terms.new.items }
    ensures order { IsNonDecreasingBy (λ (t : Term). t.var) terms.new.items }
{
    terms.sort_unstable_by_key(|term| term.var);
}

/// Whether two terms that are in order have one variable.
fn has_double_var(terms: &[Term]) -> bool
    requires { IsNonDecreasingBy (λ (t : Term). t.var) terms.now }
    ensures { result ≡ has_double_var terms.now }
{
    for place in 1..terms.len() {
        if terms[place - 1].var == terms[place].var {
            return true;
        }
    }
    false
}

fn leave_zeros_out(terms: &mut Vec<Term>)
    ensures { terms.new.items ≡ filter (λ t. not (is_zero t.coef)) terms.old.items }
{
    terms.retain(|term| !is_zero(&term.coef));
}
