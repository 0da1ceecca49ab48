//! A model under changes.
ghost use Rattle.std.specs.Prelude.{◌≡◌, ◌⊎◌, ◌++◌, ◌∷◌, [], IfErr, IsOk, OnErr, OnOk, length, option_copied};
ghost use Rattle.base_names.specs.declared.refusal.Refusal.TheVariants.{MEMORY};
ghost use Rattle.model_data.specs.Kept.{HasKeptNumbers};
ghost use Rattle.model_data.specs.Lawful.{IsLawful};
ghost use Rattle.model_core.specs.Asked.{IsLawfulChange};
ghost use Rattle.model_core.specs.Indexed.{empty_model};
ghost use Rattle.model_core.specs.Look.{coefficient_at, row_of, var_of};
ghost use Rattle.model_core.specs.One.{one};
ghost use Rattle.lazy_model.specs.Lazy.{latest};

use crate::replay::{Side, accept, bring_ahead};
use base_names::{NoMemory, Refusal};
use frac128::Frac;
use model_core::{Change, IndexedModel};
use model_data::{Row, Var};
use std::alloc::Global;
use std::collections::VecDeque;
use std::marker::Model;
use std::mem;

/// A model was loaded.
#[derive(Clone, Copy, Debug, PartialEq, Eq)]
pub struct LoadDone;

/// A model with changes that are accepted and not applied yet. Contracts see it as `Lazy` of `specs/Lazy.antt`.
#[derive(Drop)]
pub struct LazyModel {
    applied: IndexedModel,
    other: IndexedModel,
    /// Accepted changes in their order.
    log: VecDeque<Change>,
    side: Side,
}

impl Model for LazyModel {
    ghost use Rattle.lazy_model.specs.Lazy.{Lazy};
    ghost use Rattle.lazy_model.specs.Log.{IsBeside, queued_of};

    ghost Value = { Lazy };

    ghost view = { λ lazy. record { applied = lazy.applied; queued = queued_of lazy.side lazy.log.items } };

    ghost invariant = { λ lazy. IsBeside lazy.side lazy.log.items lazy.applied lazy.other };
}

impl LazyModel {
    /// The empty model. It takes no memory.
    pub fn new(alloc: Global) -> LazyModel
        ensures { result ≡ record { applied = empty_model; queued = [] } }
    {
        LazyModel {
            applied: IndexedModel::new(alloc),
            other: IndexedModel::new(alloc),
            log: VecDeque::new(alloc),
            side: Side::Ahead,
        }
    }

    /// Takes another model, and drops what is queued. It takes time in the size of the model, which is copied at the first change.
    pub fn load(&mut self, alloc: Global, model: model_data::Model) -> Result<LoadDone, NoMemory>
        requires { IsLawful model }
        ensures ok { OnOk result (self.new ≡ record { applied = model; queued = [] }) }
        ensures unchanged { OnErr result (self.new ≡ self.old) }
    {
        self.applied = IndexedModel::of(alloc, model)?;
        self.other = IndexedModel::new(alloc);
        self.log.clear();
        self.side = Side::Apart;
        Ok(LoadDone)
    }

    /// Queues a change where it is accepted on the model after all accepted changes. It is not seen before
    /// [`update`](LazyModel::update), for which it makes the room. The first change of a model that was loaded takes time in the
    /// size of the model. MEMORY beside the refusals of `model_core`'s `apply`.
    pub fn queue(&mut self, alloc: Global, change: Change) -> Result<(), Refusal>
        requires { IsLawfulChange change }
        ensures accepted { OnOk result (IsOk (one (latest self.old) change)) }
        ensures ok { OnOk result (self.new ≡ record self.old { queued = self.old.queued ++ change ∷ [] }) }
        ensures refused { IfErr result (λ r. (r ≡ MEMORY) ⊎ (one (latest self.old) change ≡ Err r)) }
        ensures unchanged { OnErr result (self.new ≡ self.old) }
    {
        bring_ahead(
            alloc,
            &self.applied,
            &mut self.other,
            &mut self.log,
            self.side,
        )?;
        self.side = Side::Ahead;
        accept(alloc, &self.applied, &mut self.other, &mut self.log, change)
    }

    /// Applies all queued changes, and says how many. It takes no memory, and constant time.
    pub fn update(&mut self) -> u64
        ensures count { result ≡ length self.old.queued }
        ensures applied { self.new ≡ record { applied = latest self.old; queued = [] } }
    {
        match self.side {
            Side::Apart | Side::Behind => 0,
            Side::Ahead => {
                mem::swap(&mut self.applied, &mut self.other);
                self.side = Side::Behind;
                self.log.len() as u64
            }
        }
    }

    /// The model of the changes up to the last update.
    pub fn applied(&self) -> &model_data::Model
        ensures value { result.now ≡ self.now.applied }
        ensures lawful { IsLawful self.now.applied }
        ensures kept { HasKeptNumbers self.now.applied }
    {
        self.applied.model()
    }

    /// How many changes are queued.
    pub fn pending(&self) -> u64
        ensures { result ≡ length self.now.queued }
    {
        match self.side {
            Side::Apart | Side::Behind => 0,
            Side::Ahead => self.log.len() as u64,
        }
    }

    /// The variable of the name in the applied model.
    pub fn var(&self, name: &[u8]) -> Option<&Var>
        ensures { option_copied result ≡ var_of name.now self.now.applied }
    {
        self.applied.var(name)
    }

    /// The row of the name in the applied model.
    pub fn row(&self, name: &[u8]) -> Option<&Row>
        ensures { option_copied result ≡ row_of name.now self.now.applied }
    {
        self.applied.row(name)
    }

    /// The coefficient of a variable in a row of the applied model, 0 where it has no term; None where the row or the variable
    /// isn't there.
    pub fn coefficient(&self, row: &[u8], var: &[u8]) -> Option<Frac>
        ensures { result ≡ coefficient_at row.now var.now self.now.applied }
    {
        self.applied.coefficient(row, var)
    }
}
