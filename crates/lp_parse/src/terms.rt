//! The terms of a row that isn't whole.
ghost use Rattle.std.specs.Prelude.{◌≡◌, ℕ, ◌+◌, ◌≤◌, ◌<◌, ◌++◌, [], IfOk, OnErr, OnOk, length};
ghost use Rattle.std.specs.Prelude.{slice_index_or as get_or, slice_set as set};
ghost use Rattle.std.specs.Vec.{vec_capacity, vec_len};
ghost use Rattle.frac128.specs.Fraction.{zero_value};
ghost use Rattle.lp_defs.specs.Draft.{before_terms, coefficient_in, with_coefficient};
ghost use Rattle.lp_parse.specs.Terms.{AreBelow, AreNamedFrom, AreRising, IsLonger, named_with, terms_of, tidied, weight};

use base_names::NoMemory;
use frac128::Frac;
use model_data::Term;
use std::alloc::Global;
use std::marker::Model;

/// Terms that rise by variable.
///
/// A row may name its variables in any order, so their coefficients stand by variable, and none is searched for. The
/// variables with a term are listed, so that the end of a row takes time in their number, whatever the model's is.
#[derive(Drop)]
pub(crate) struct Terms {
    /// The coefficient of each variable, 0 where it has no term. The variables behind them have none.
    coefs: Vec<Frac>,
    /// The variables that came to have a term, in the order of their coming.
    named: Vec<u32>,
    /// How many coefficients aren't 0.
    count: usize,
}

impl Model for Terms {
    ghost use Rattle.std.specs.Prelude.{List};
    ghost use Rattle.model_data.specs.declared.model.Term.{Term};
    ghost use Rattle.lp_parse.specs.Terms.{IsTable, terms_of};

    ghost Value = { List Term };

    ghost view = { λ terms. terms_of terms.coefs.items };

    ghost invariant = { λ terms. IsTable terms.coefs.items terms.named.items terms.count };
}

impl Terms {
    pub(crate) fn new(alloc: Global) -> Terms
        ensures { result ≡ [] }
    {
        Terms {
            coefs: Vec::new(alloc),
            named: Vec::new(alloc),
            count: 0,
        }
    }

    pub(crate) fn len(&self) -> usize
        ensures { result ≡ length self.now }
    {
        self.count
    }

    /// The coefficient of the variable, 0 where it has no term.
    pub(crate) fn coefficient(&self, var: u32) -> Frac
        ensures { result ≡ coefficient_in var self.now }
    {
        coefficient_at(&self.coefs, var as usize)
    }

    /// How many terms there are with this coefficient of the variable.
    pub(crate) fn count_with(&self, var: u32, coef: &Frac) -> usize
        ensures count { result ≡ length (with_coefficient var coef.now self.now) }
        ensures within { result ≤ length self.now + 1 }
    {
        let so_far = coefficient_at(&self.coefs, var as usize);
        self.count + weight(coef) - weight(&so_far)
    }

    /// Sets the coefficient of the variable. One of 0 leaves no term.
    pub(crate) fn set_coefficient(&mut self, var: u32, coef: Frac) -> Result<(), NoMemory>
        ensures ok { OnOk result (self.new ≡ with_coefficient var coef self.old) }
        ensures unchanged { OnErr result (self.new ≡ self.old) }
    {
        make_room(&mut self.coefs, var as usize)?;
        let so_far = weight(&self.coefs[var as usize]);
        let now = weight(&coef);
        add_name(&mut self.named, so_far < now, var)?;
        self.count = self.count + now - so_far;
        self.coefs[var as usize] = tidied(coef);
        Ok(())
    }

    /// Moves the terms out, so that none stays.
    pub(crate) fn take(&mut self, alloc: Global) -> Result<Vec<Term>, NoMemory>
        ensures terms { IfOk result (λ terms. terms.items ≡ self.old) }
        ensures none { OnOk result (self.new ≡ []) }
        ensures unchanged { OnErr result (self.new ≡ self.old) }
    {
        self.named.sort_unstable();
        let mut terms = Vec::with_capacity(alloc, self.count)?;
        move_terms(&self.named, &mut self.coefs, &mut terms);
        self.named.clear();
        self.count = 0;
        Ok(terms)
    }

    /// Leaves no term.
    pub(crate) fn clear(&mut self)
        ensures { self.new ≡ [] }
    {
        if self.count > 0 {
            self.coefs.clear();
            self.named.clear();
            self.count = 0;
        }
    }
}

/// The coefficient at the place, 0 behind the last one.
fn coefficient_at(coefs: &[Frac], place: usize) -> Frac
    ensures { result ≡ get_or coefs.now place zero_value }
{
    match coefs.get(place) {
        Some(coef) => *coef,
        None => Frac::zero(),
    }
}

/// Adds coefficients of 0 until there is one at the place.
fn make_room(coefs: &mut Vec<Frac>, place: usize) -> Result<(), NoMemory>
    ensures same { IsLonger coefs.old.items coefs.new.items }
    ensures room { OnOk result (place < length coefs.new.items) }
{
    while coefs.len() <= place {
        coefs.push(Frac::zero())?;
    }
    Ok(())
}

/// 1 where a coefficient is a term's, since it isn't 0.
fn weight(coef: &Frac) -> usize
    ensures value { result ≡ weight coef.now }
    ensures small { result ≤ 1 }
{
    if coef.is_zero() { 0 } else { 1 }
}

/// The coefficient, where 0 is written in one way.
fn tidied(coef: Frac) -> Frac
    ensures { result ≡ tidied coef }
{
    if coef.is_zero() { Frac::zero() } else { coef }
}

/// Adds a variable that is new to the list.
fn add_name(named: &mut Vec<u32>, is_new: bool, var: u32) -> Result<(), NoMemory>
    ensures ok { OnOk result (named.new.items ≡ named_with is_new named.old.items var) }
    ensures unchanged { OnErr result (named.new.items ≡ named.old.items) }
{
    if is_new {
        named.push(var)?;
    }
    Ok(())
}

/// Moves the terms of the listed variables, which are all that there are, behind others that leave room for them.
fn move_terms(named: &[u32], coefs: &mut Vec<Frac>, terms: &mut Vec<Term>)
    requires rising { AreRising named.now }
    requires named_all { AreNamedFrom 0 named.now coefs.old.items }
    requires below { AreBelow (length coefs.old.items) named.now }
    requires room { length (terms_of coefs.old.items) + vec_len terms.old ≤ vec_capacity terms.old }
    ensures terms { terms.new.items ≡ terms.old.items ++ terms_of coefs.old.items }
    ensures none { (var : ℕ) → get_or coefs.new.items var zero_value ≡ zero_value }
{
    for var in named {
        move_term(*var, coefs, terms);
    }
}

/// Moves the term of the variable, if it has one, behind others that leave room for it.
fn move_term(var: u32, coefs: &mut Vec<Frac>, terms: &mut Vec<Term>)
    requires below { var < length coefs.old.items }
    requires room { weight (get_or coefs.old.items var zero_value) + vec_len terms.old ≤ vec_capacity terms.old }
    ensures terms { terms.new.items ≡ terms.old.items ++ before_terms var (get_or coefs.old.items var zero_value) [] }
    ensures coefs { coefs.new.items ≡ set coefs.old.items var zero_value }
    ensures len { vec_len terms.new ≡ vec_len terms.old + weight (get_or coefs.old.items var zero_value) }
    ensures capacity { vec_capacity terms.new ≡ vec_capacity terms.old }
{
    let coef = coefs[var as usize];
    coefs[var as usize] = Frac::zero();
    if !coef.is_zero() {
        terms.push_reserved(Term { var, coef });
    }
}
