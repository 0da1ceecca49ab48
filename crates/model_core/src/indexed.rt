//! A model with tables of its names and tags.
ghost use Rattle.std.specs.Prelude.{◌≡◌, ◌⊎◌, IfErr, IfOk, OnErr, OnOk, option_copied};
ghost use Rattle.base_names.specs.declared.refusal.Refusal.TheVariants.{MEMORY};
ghost use Rattle.model_data.specs.Kept.{HasKeptNumbers};
ghost use Rattle.model_data.specs.Lawful.{IsLawful};
ghost use Rattle.model_core.specs.Asked.{IsLawfulChange};
ghost use Rattle.model_core.specs.Indexed.{empty_model};
ghost use Rattle.model_core.specs.Look.{coefficient_at, row_of, var_of};
ghost use Rattle.model_core.specs.One.{one};

use crate::change::Change;
use crate::changing::make_change;
use crate::kept::kept_change;
use crate::tables::Tables;
use crate::terms::coefficient;
use base_names::{NoMemory, Refusal};
use frac128::Frac;
use model_data::{Row, Var, kept_numbers};
use std::alloc::Global;
use std::marker::Model;

/// A lawful model in which names and tags are found by tables. Contracts see it as the model.
#[derive(Drop)]
pub struct IndexedModel {
    model: model_data::Model,
    tables: Tables,
}

impl Model for IndexedModel {
    ghost use Rattle.model_data.specs.declared.model.Model.{Model};
    ghost use Rattle.model_core.specs.Indexed.{IsSound};

    ghost Value = { Model };

    ghost view = { λ indexed. indexed.model };

    ghost invariant = { λ indexed. IsSound indexed.tables indexed.model };
}

impl IndexedModel {
    /// Of the empty model. It takes no memory.
    pub fn new(alloc: Global) -> IndexedModel
        ensures { result ≡ empty_model }
    {
        IndexedModel {
            model: model_data::Model::empty(alloc),
            tables: Tables::new(alloc),
        }
    }

    /// Of this model. It takes time in the size of the model.
    pub fn of(alloc: Global, model: model_data::Model) -> Result<IndexedModel, NoMemory>
        requires { IsLawful model }
        ensures { IfOk result (λ indexed. indexed ≡ model) }
    {
        let tables = Tables::of(alloc, &model)?;
        kept_numbers(&model);
        Ok(IndexedModel { model, tables })
    }

    /// An equal model.
    pub fn copy(&self, alloc: Global) -> Result<IndexedModel, NoMemory>
        ensures { IfOk result (λ copy. copy ≡ self.now) }
    {
        let model = self.model.copy(alloc)?;
        IndexedModel::of(alloc, model)
    }

    pub fn model(&self) -> &model_data::Model
        ensures value { result.now ≡ self.now }
        ensures lawful { IsLawful self.now }
        ensures kept { HasKeptNumbers self.now }
    {
        &self.model
    }

    /// Makes one change, as [`apply`](crate::apply) does. Where nothing is deleted it takes time in the size of the change and of
    /// the row that it is made in, by the logarithm; a row that goes takes time in the number of rows, and a variable in the
    /// number of all terms.
    pub fn change(&mut self, alloc: Global, change: &Change) -> Result<(), Refusal>
        requires { IsLawfulChange change.now }
        ensures ok { OnOk result (one self.old change.now ≡ Ok self.new) }
        ensures refused { IfErr result (λ r. (r ≡ MEMORY) ⊎ (one self.old change.now ≡ Err r)) }
        ensures unchanged { OnErr result (self.new ≡ self.old) }
    {
        kept_change(change);
        make_change(alloc, &mut self.model, &mut self.tables, change)
    }

    /// The variable of the name.
    pub fn var(&self, name: &[u8]) -> Option<&Var>
        ensures { option_copied result ≡ var_of name.now self.now }
    {
        let Some(place) = self.tables.vars.place(name) else {
            return None;
        };
        Some(&self.model.vars.as_slice()[place])
    }

    /// The row of the name.
    pub fn row(&self, name: &[u8]) -> Option<&Row>
        ensures { option_copied result ≡ row_of name.now self.now }
    {
        let Some(place) = self.tables.rows.place(name) else {
            return None;
        };
        Some(&self.model.rows.as_slice()[place])
    }

    /// The coefficient of a variable in a row, 0 where it has no term; None where the row or the variable isn't there.
    pub fn coefficient(&self, row: &[u8], var: &[u8]) -> Option<Frac>
        ensures { result ≡ coefficient_at row.now var.now self.now }
    {
        let Some(row) = self.tables.rows.place(row) else {
            return None;
        };
        let Some(var) = self.tables.vars.place(var) else {
            return None;
        };
        Some(coefficient(self.model.rows.as_slice()[row].terms.as_slice(), var as u32))
    }
}
