//! The model that a part of a text has told so far.
ghost use Rattle.std.specs.Prelude.{◌≡◌, ◌+◌, [], IfOk, OnOk, length, nat_le};
ghost use Rattle.base_names.specs.declared.refusal.FaultWord.TheVariants.{Number as bad_number, Size};
ghost use Rattle.lp_defs.specs.Draft as defs;
ghost use Rattle.lp_defs.specs.Objective as objective;
ghost use Rattle.lp_defs.specs.Quantity.{added, with_bound};
ghost use Rattle.lp_defs.specs.Rows as rows;
ghost use Rattle.lp_defs.specs.Symbols.{or_fault};
ghost use Rattle.model_data.specs.Lawful.{term_count};
ghost use Rattle.model_data.specs.declared.limits.TheConstants.{MAX_TERMS};
ghost use Rattle.lp_parse.specs.Meaning.{limit_of, spot_of, summand_of};
ghost use Rattle.lp_parse.specs.Outcome.{Meets};

use crate::names::Names;
use crate::quantity::{Limit, unit};
use crate::symbol::Spot;
use crate::terms::Terms;
use base_names::{FaultWord, Name, NoMemory, OrMemory, Seq};
use frac128::Frac;
use lp_defs::ModelFault;
use model_data::{Direction, MAX_ROWS, MAX_TERMS, MAX_VARS, Row, Sense, Var, VarKind};
use std::alloc::Global;
use std::marker::Model;

/// A model, and a row that isn't whole.
#[derive(Drop)]
pub(crate) struct Draft {
    direction: Direction,
    constant: Frac,
    vars: Vec<Var>,
    var_names: Names,
    rows: Vec<Row>,
    row_names: Names,
    /// The terms of the whole rows.
    closed_terms: usize,
    /// The name of the row that isn't whole.
    title: String,
    /// Its terms so far.
    terms: Terms,
}

/// A term of the objective or of a row.
#[derive(Clone, Copy, Debug)]
pub(crate) struct Summand<'a> {
    /// Where its number stands, or its name where it has none.
    pub(crate) number_spot: Spot,
    pub(crate) coefficient: Frac,
    pub(crate) name_spot: Spot,
    pub(crate) name: &'a str,
}

impl<'a> Summand<'a> {
    /// A term without a number.
    pub(crate) fn lone(negative: bool, spot: Spot, name: &'a str) -> Summand<'a>
        ensures { summand_of result ≡ objective.lone_name negative (spot_of spot) name.now }
    {
        Summand {
            number_spot: spot,
            coefficient: unit(negative),
            name_spot: spot,
            name,
        }
    }

    /// A term with a number.
    pub(crate) fn numbered(
        number_spot: Spot,
        coefficient: Frac,
        name_spot: Spot,
        name: &'a str,
    ) -> Summand<'a>
        ensures { summand_of result ≡ objective.numbered_name (spot_of number_spot) coefficient (spot_of name_spot) name.now }
    {
        Summand {
            number_spot,
            coefficient,
            name_spot,
            name,
        }
    }
}

impl Model for Draft {
    ghost use Rattle.std.specs.Prelude.{string_bytes};
    ghost use Rattle.lp_defs.specs.Draft.{Unfinished};
    ghost use Rattle.lp_parse.specs.Draft.{IsSound};

    ghost Value = { Unfinished };

    ghost view = { λ d. record {
      model = record { direction = d.direction; constant = d.constant; vars = d.vars.items; rows = d.rows.items };
      row = record { title = string_bytes d.title; terms = d.terms };
    } };

    ghost invariant = { λ d. IsSound d.vars.items d.var_names d.rows.items d.row_names d.closed_terms d.terms };
}

impl Draft {
    /// Nothing but which value of the objective is the best. It takes no memory.
    pub(crate) fn blank(alloc: Global, direction: Direction) -> Draft
        ensures { result ≡ defs.new_row [] (defs.blank direction) }
    {
        Draft {
            direction,
            constant: Frac::zero(),
            vars: Vec::new(alloc),
            var_names: Names::new(alloc),
            rows: Vec::new(alloc),
            row_names: Names::new(alloc),
            closed_terms: 0,
            title: String::new(alloc),
            terms: Terms::new(alloc),
        }
    }

    /// The model of the whole rows.
    pub(crate) fn into_model(self) -> model_data::Model
        ensures { result ≡ self.model }
    {
        model_data::Model {
            direction: self.direction,
            constant: self.constant,
            vars: Seq::of(self.vars),
            rows: Seq::of(self.rows),
        }
    }

    /// Makes sure that the model has a variable of the name, which stands at the spot.
    pub(crate) fn mention(
        &mut self,
        alloc: Global,
        spot: Spot,
        name: &str,
    ) -> Result<(), OrMemory<ModelFault>>
        ensures model { Meets result (λ _. self.new.model) (or_fault (spot_of spot) Size (defs.mention name.now self.old.model)) }
        ensures row { OnOk result (self.new.row ≡ self.old.row) }
    {
        let is_known = self.var_names.place(name).is_some();
        self.mention_if_new(alloc, spot, name, is_known)
    }

    /// The same, where it is told whether the model has the variable.
    fn mention_if_new(
        &mut self,
        alloc: Global,
        spot: Spot,
        name: &str,
        is_known: bool,
    ) -> Result<(), OrMemory<ModelFault>>
        requires { is_known ≡ defs.knows_var name.now self.old.model }
        ensures model { Meets result (λ _. self.new.model) (or_fault (spot_of spot) Size (defs.mention name.now self.old.model)) }
        ensures row { OnOk result (self.new.row ≡ self.old.row) }
    {
        if is_known {
            return Ok(());
        }
        if self.vars.len() >= MAX_VARS {
            return Err(spot.fault(FaultWord::Size));
        }
        let var = new_var(alloc, name)?;
        self.vars.reserve(1)?;
        self.var_names.add(alloc, name)?;
        self.vars.push_reserved(var);
        Ok(())
    }

    /// Adds a number to the objective's constant.
    pub(crate) fn add_to_constant(
        &mut self,
        spot: Spot,
        number: Frac,
    ) -> Result<(), OrMemory<ModelFault>>
        ensures model { Meets result (λ _. self.new.model) (objective.add_to_constant (spot_of spot) number self.old.model) }
        ensures row { OnOk result (self.new.row ≡ self.old.row) }
    {
        self.constant = added(self.constant, number, spot)?;
        Ok(())
    }

    /// Adds a term to the objective.
    pub(crate) fn add_to_objective(
        &mut self,
        alloc: Global,
        term: &Summand<'_>,
    ) -> Result<(), OrMemory<ModelFault>>
        ensures { Meets result (λ _. self.new.model) (objective.add_to_objective (summand_of term.now) self.old.model) }
    {
        let so_far = self.objective_of(term.name);
        let sum = added(so_far, term.coefficient, term.number_spot)?;
        self.mention(alloc, term.name_spot, term.name)?;
        self.set_objective(term.name, sum);
        Ok(())
    }

    /// The objective's coefficient of the variable, 0 where there is none.
    fn objective_of(&self, name: &str) -> Frac
        ensures { result ≡ defs.objective_of_vars name.now self.now.model.vars }
    {
        match self.var_names.place(name) {
            Some(place) => self.vars[place].obj,
            None => Frac::zero(),
        }
    }

    fn set_objective(&mut self, name: &str, sum: Frac)
        ensures { self.new ≡ record self.old { model = defs.change_var name.now (λ v. record v { obj = sum }) self.old.model } }
    {
        if let Some(place) = self.var_names.place(name) {
            self.vars[place].obj = sum;
        }
    }

    /// Makes the variable at most, at least or equal to the limit. The other bound stays.
    pub(crate) fn bound(&mut self, name: &str, sense: Sense, limit: Limit, number: &Frac)
        ensures { self.new ≡ record self.old { model = defs.change_var name.now (with_bound sense (limit_of limit number.now)) self.old.model } }
    {
        if let Some(place) = self.var_names.place(name) {
            set_bound(&mut self.vars[place], sense, limit, number);
        }
    }

    /// Takes both bounds of the variable away.
    pub(crate) fn free(&mut self, name: &str)
        ensures { self.new ≡ record self.old { model = defs.change_var name.now defs.freed self.old.model } }
    {
        if let Some(place) = self.var_names.place(name) {
            let var = &mut self.vars[place];
            var.lower = None;
            var.upper = None;
        }
    }

    pub(crate) fn set_kind(&mut self, name: &str, kind: VarKind)
        ensures { self.new ≡ record self.old { model = defs.change_var name.now (defs.with_kind kind) self.old.model } }
    {
        if let Some(place) = self.var_names.place(name) {
            self.vars[place].kind = kind;
        }
    }

    /// Begins a row of the name at the spot.
    pub(crate) fn open_row(
        &mut self,
        alloc: Global,
        spot: Spot,
        title: &str,
    ) -> Result<(), OrMemory<ModelFault>>
        ensures { Meets result (λ _. self.new) (rows.open_row (spot_of spot) title.now self.old.model) }
    {
        if self.row_names.place(title).is_some() {
            return Err(spot.fault(FaultWord::DoubledName));
        }
        if self.rows.len() >= MAX_ROWS {
            return Err(spot.fault(FaultWord::Size));
        }
        self.title = String::from_str(alloc, title)?;
        self.terms.clear();
        Ok(())
    }

    /// Begins a row without a label at the spot.
    pub(crate) fn open_unlabelled_row(
        &mut self,
        alloc: Global,
        spot: Spot,
    ) -> Result<(), OrMemory<ModelFault>>
        ensures { Meets result (λ _. self.new) (rows.open_row (spot_of spot) (defs.default_title self.old.model) self.old.model) }
    {
        let title = format!(in alloc; "R{}", self.rows.len())?;
        self.open_row(alloc, spot, title.as_str())
    }

    /// Adds a term to the row that isn't whole.
    pub(crate) fn add_to_row(
        &mut self,
        alloc: Global,
        term: &Summand<'_>,
    ) -> Result<(), OrMemory<ModelFault>>
        ensures { Meets result (λ _. self.new) (rows.add_to_row (summand_of term.now) self.old) }
    {
        let (var, is_known) = self.find_var(term.name);
        let so_far = self.terms.coefficient(var);
        let sum = added(so_far, term.coefficient, term.number_spot)?;
        self.mention_if_new(alloc, term.name_spot, term.name, is_known)?;
        if !self.has_room_for_term(var, &sum) {
            return Err(term.name_spot.fault(FaultWord::Size));
        }
        self.terms.set_coefficient(var, sum)?;
        Ok(())
    }

    /// The place of the variable, or that of the next new one, and whether the model has it.
    fn find_var(&self, name: &str) -> (u32, bool)
        ensures place { result.0 ≡ defs.var_place name.now self.now.model }
        ensures known { result.1 ≡ defs.knows_var name.now self.now.model }
    {
        let place = self.var_names.place(name);
        (place.unwrap_or(self.vars.len()) as u32, place.is_some())
    }

    /// Whether the terms are within their limit with this coefficient of the variable.
    fn has_room_for_term(&self, var: u32, coef: &Frac) -> bool
        ensures { result ≡ nat_le (term_count self.now.model + length (defs.with_coefficient var coef.now self.now.row.terms)) MAX_TERMS }
    {
        // Far from the limit, where there is room for any further term, no search is needed.
        self.closed_terms + self.terms.len() < MAX_TERMS
            || self.closed_terms + self.terms.count_with(var, coef) <= MAX_TERMS
    }

    /// Ends the row that isn't whole with its comparison and its right side.
    pub(crate) fn close_row(
        &mut self,
        alloc: Global,
        sense: Sense,
        rhs: Frac,
    ) -> Result<(), NoMemory>
        ensures { OnOk result (self.new.model ≡ defs.close_row sense rhs self.old) }
    {
        let terms = self.terms.take(alloc)?;
        self.rows.reserve(1)?;
        self.row_names.add(alloc, self.title.as_str())?;
        let title = std::mem::replace(&mut self.title, String::new(alloc));
        self.closed_terms += terms.len();
        self.rows.push_reserved(Row {
            name: Name::of(title.into_bytes()),
            sense,
            rhs,
            terms: Seq::of(terms),
        });
        Ok(())
    }
}

/// At least 0, with no term in the objective.
fn new_var(alloc: Global, name: &str) -> Result<Var, NoMemory>
    ensures { IfOk result (λ v. v ≡ defs.new_var name.now) }
{
    Ok(Var {
        name: Name::of(Vec::from_slice(alloc, name.as_bytes())?),
        lower: Some(Frac::zero()),
        upper: None,
        obj: Frac::zero(),
        kind: VarKind::Continuous,
        tag: None,
    })
}

/// Makes the variable at most, at least or equal to the limit. The other bound stays.
fn set_bound(var: &mut Var, sense: Sense, limit: Limit, number: &Frac)
    ensures { var.new ≡ with_bound sense (limit_of limit number.now) var.old }
{
    match sense {
        Sense::Less => var.upper = limit.bound(number),
        Sense::Greater => var.lower = limit.bound(number),
        Sense::Equal => {
            var.lower = limit.bound(number);
            var.upper = limit.bound(number);
        }
    }
}

/// The sum with a number that stands at the spot.
fn added(so_far: Frac, number: Frac, spot: Spot) -> Result<Frac, OrMemory<ModelFault>>
    ensures { Meets result (λ x. x) (or_fault (spot_of spot) bad_number (added so_far number)) }
{
    if so_far == Frac::zero() {
        // As a row's first term of a variable is.
        number.kept();
        return Ok(number);
    }
    match so_far.add(&number) {
        Some(sum) => Ok(sum),
        None => Err(spot.fault(FaultWord::Number)),
    }
}
