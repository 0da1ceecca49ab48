//! Further rows.
ghost use Rattle.std.specs.Prelude.{◌≡◌, ◌&&◌, ◌||◌, ◌⊎◌, ◌++◌, ◌∷◌, [], IfErr, IfOk, OnErr, OnOk, bytes_eq, false, map, true};
ghost use Rattle.std.specs.List.{list_all, list_any};
ghost use Rattle.base_names.specs.declared.refusal.Refusal.TheVariants.{DUPLICATE, MEMORY, NAME, SIZE};
ghost use Rattle.model_data.specs.Lawful.{IsLawful};
ghost use Rattle.model_data.specs.Names.{is_name};
ghost use Rattle.model_core.specs.Effect.{terms_from};
ghost use Rattle.model_core.specs.Indexed.{IsIndexOf};
ghost use Rattle.model_core.specs.One.{has_double, is_too_large, one};
ghost use Rattle.model_core.specs.declared.change.Change.TheVariants.{AddConstr};

use crate::change::NamedTerm;
use crate::ordered::ordered_terms;
use crate::tables::Tables;
use crate::take::push_row;
use base_names::{Name, Refusal, Seq};
use frac128::Frac;
use model_data::{MAX_ROWS, MAX_TERMS, Model, Row, Sense, is_name};
use std::alloc::Global;

/// Adds a row behind the others.
pub(crate) fn add_row(
    alloc: Global,
    model: &mut Model,
    tables: &mut Tables,
    name: &Name,
    sense: Sense,
    rhs: Frac,
    terms: &Seq<NamedTerm>,
) -> Result<(), Refusal>
    requires index { IsIndexOf tables.old model.old }
    requires lawful { IsLawful model.old }
    ensures ok { OnOk result (one model.old (AddConstr name.now sense rhs terms.now) ≡ Ok model.new) }
    ensures refused { IfErr result (λ r. (r ≡ MEMORY) ⊎ (one model.old (AddConstr name.now sense rhs terms.now) ≡ Err r)) }
    ensures unchanged { OnErr result (model.new ≡ model.old) }
    ensures index { IsIndexOf tables.new model.new }
{
    let row = new_row(alloc, model, tables, name, sense, rhs, terms)?;
    put_row(alloc, model, tables, row)
}

/// The row, where its names are there and none stands twice.
fn new_row(
    alloc: Global,
    model: &Model,
    tables: &Tables,
    name: &Name,
    sense: Sense,
    rhs: Frac,
    terms: &Seq<NamedTerm>,
) -> Result<Row, Refusal>
    requires index { IsIndexOf tables.now model.now }
    requires lawful { IsLawful model.now }
    ensures row { IfOk result (λ r. r ≡ record { name = name.now; sense = sense; rhs = rhs; terms = terms_from 0 tables.now.vars.texts terms.now }) }
    ensures names { OnOk result ((is_name name.now && list_all (λ t. list_any (bytes_eq t.name) tables.now.vars.texts) terms.now) ≡ true) }
    ensures single { OnOk result ((list_any (bytes_eq name.now) tables.now.rows.texts || has_double (map (λ t. t.name) terms.now)) ≡ false) }
    ensures refused { IfErr result (λ r. (r ≡ MEMORY) ⊎ (one model.now (AddConstr name.now sense rhs terms.now) ≡ Err r)) }
{
    if !is_name(name.as_bytes()) {
        return Err(Refusal::NAME);
    }
    let found = match ordered_terms(alloc, &tables.vars, terms.as_slice()) {
        Ok(found) => found,
        Err(refusal) => return Err(refusal),
    };
    let Some(ordered) = found else {
        return Err(Refusal::DUPLICATE);
    };
    if tables.rows.has(name.as_bytes()) {
        return Err(Refusal::DUPLICATE);
    }
    Ok(Row {
        name: name.copy(alloc)?,
        sense,
        rhs,
        terms: Seq::of(ordered),
    })
}

/// Adds a row of a new name, where it is within the limits.
fn put_row(alloc: Global, model: &mut Model, tables: &mut Tables, row: Row) -> Result<(), Refusal>
    requires index { IsIndexOf tables.old model.old }
    requires lawful { IsLawful model.old }
    requires new { list_any (bytes_eq row.name) tables.old.rows.texts ≡ false }
    ensures ok { OnOk result (model.new ≡ record model.old { rows = model.old.rows ++ row ∷ [] }) }
    ensures small { OnOk result (is_too_large (record model.old { rows = model.old.rows ++ row ∷ [] }) ≡ false) }
    ensures refused { IfErr result (λ r. (r ≡ MEMORY) ⊎ ((r ≡ SIZE) × (is_too_large (record model.old { rows = model.old.rows ++ row ∷ [] }) ≡ true))) }
    ensures unchanged { OnErr result (model.new ≡ model.old) }
    ensures index { IsIndexOf tables.new model.new }
{
    let count = row.terms.len();
    if model.rows.len() >= MAX_ROWS || count > MAX_TERMS - tables.terms {
        return Err(Refusal::SIZE);
    }
    let text = row.name.as_bytes().to_vec(alloc)?;
    tables.rows.reserve()?;
    push_row(alloc, model, row)?;
    tables.rows.add_reserved(text);
    tables.terms += count;
    Ok(())
}
