//! Terms that rise by variable.
ghost use Rattle.std.specs.Prelude.{◌≡◌, ◌+◌, ◌==◌, ◌≤◌, OnErr, OnOk, false, filter, length, map, not, true};
ghost use Rattle.model_core.specs.Effect.{is_zero, moved, with_coefficient, without_place};
ghost use Rattle.model_core.specs.Look.{coefficient_in};
ghost use Rattle.model_core.specs.Rising.{IsMissing, IsRising, IsThere};

use base_names::NoMemory;
use frac128::Frac;
use model_data::Term;

/// Where a variable's term stands, or would stand, among terms that rise by variable.
#[derive(Clone, Copy, Debug)]
struct Spot {
    place: usize,
    /// Whether the term is there.
    is_there: bool,
}

fn spot_of(terms: &[Term], var: u32) -> Spot
    requires { IsRising terms.now }
    ensures there { result.is_there ≡ true → IsThere var terms.now result.place }
    ensures missing { result.is_there ≡ false → IsMissing var terms.now result.place }
{
    let place = terms.partition_point(|term| term.var < var);
    let is_there = place < terms.len() && terms[place].var == var;
    Spot { place, is_there }
}

/// The coefficient of the variable, 0 where it has no term.
pub(crate) fn coefficient(terms: &[Term], var: u32) -> Frac
    requires { IsRising terms.now }
    ensures { result ≡ coefficient_in var terms.now }
{
    let spot = spot_of(terms, var);
    if spot.is_there {
        terms[spot.place].coef
    } else {
        Frac::zero()
    }
}

/// How many terms there are with this coefficient of the variable.
pub(crate) fn count_with(terms: &[Term], var: u32, coef: &Frac) -> usize
    requires { IsRising terms.now }
    ensures count { result ≡ length (with_coefficient var coef.now terms.now) }
    ensures most { result ≤ length terms.now + 1 }
{
    let spot = spot_of(terms, var);
    let zero = is_zero(coef);
    if spot.is_there {
        if zero { terms.len() - 1 } else { terms.len() }
    } else if zero {
        terms.len()
    } else {
        terms.len() + 1
    }
}

/// Sets the coefficient of the variable. One of 0 leaves no term.
pub(crate) fn set_coefficient(terms: &mut Vec<Term>, var: u32, coef: Frac) -> Result<(), NoMemory>
    requires { IsRising terms.old.items }
    ensures ok { OnOk result (terms.new.items ≡ with_coefficient var coef terms.old.items) }
    ensures unchanged { OnErr result (terms.new.items ≡ terms.old.items) }
{
    let spot = spot_of(terms.as_slice(), var);
    if is_zero(&coef) {
        if spot.is_there {
            terms.remove(spot.place);
        }
    } else if spot.is_there {
        terms[spot.place] = Term { var, coef };
    } else {
        terms.insert(spot.place, Term { var, coef })?;
    }
    Ok(())
}

pub(crate) fn is_zero(x: &Frac) -> bool
    ensures { result ≡ is_zero x.now }
{
    x.is_zero()
}

/// Takes the term of a variable away that goes. The variables behind it move one place to the front.
pub(crate) fn drop_var(terms: &mut Vec<Term>, var: u32)
    ensures { terms.new.items ≡ without_place var terms.old.items }
{
    leave_out(terms, var);
    move_up(terms.as_mut_slice(), var);
}

fn leave_out(terms: &mut Vec<Term>, var: u32)
    ensures { terms.new.items ≡ filter (λ t. not (t.var == var)) terms.old.items }
{
    terms.retain(|term| term.var != var);
}

fn move_up(terms: &mut [Term], var: u32)
    ensures { terms.new ≡ map (moved var) terms.old }
{
    for term in terms.iter_mut() {
        if term.var > var {
            term.var -= 1;
        }
    }
}
