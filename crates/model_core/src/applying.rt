//! One change of a model alone.
ghost use Rattle.std.specs.Prelude.{◌≡◌, ◌⊎◌, IfErr, OnErr, OnOk};
ghost use Rattle.base_names.specs.declared.refusal.Refusal.TheVariants.{MEMORY};
ghost use Rattle.model_data.specs.Lawful.{IsLawful};
ghost use Rattle.model_core.specs.Asked.{IsLawfulChange};
ghost use Rattle.model_core.specs.One.{one};

use crate::change::Change;
use crate::changing::make_change;
use crate::tables::Tables;
use base_names::Refusal;
use model_data::Model;
use std::alloc::Global;

/// Makes one change of a model. It takes time in the size of the model, whose names it puts into tables first; an
/// [`IndexedModel`](crate::IndexedModel) keeps them from one change to the next.
///
/// NAME: a variable or a row isn't there, or a new name is none. DUPLICATE: a name is taken, a term's name stands twice, or
/// another variable has the tag. SIZE: a limit would be passed. MEMORY: no memory was found. Each leaves the model as it was.
pub fn apply(alloc: Global, model: &mut Model, change: Change) -> Result<(), Refusal>
    requires lawful { IsLawful model.old }
    requires change { IsLawfulChange change }
    ensures ok { OnOk result (one model.old change ≡ Ok model.new) }
    ensures refused { IfErr result (λ r. (r ≡ MEMORY) ⊎ (one model.old change ≡ Err r)) }
    ensures unchanged { OnErr result (model.new ≡ model.old) }
    ensures lawful { IsLawful model.new }
{
    let mut tables = Tables::of(alloc, model)?;
    make_change(alloc, model, &mut tables, &change)
}
