//! Further variables.
ghost use Rattle.std.specs.Prelude.{◌≡◌, ◌<◌, ◌||◌, ◌⊎◌, IfErr, IfOk, List, OnErr, OnOk, bytes_eq, false, option_map, ℕ};
ghost use Rattle.std.specs.List.{list_any};
ghost use Rattle.std.specs.Option.{option_map_or};
ghost use Rattle.base_names.specs.declared.refusal.Refusal.TheVariants.{MEMORY};
ghost use Rattle.model_data.specs.Lawful.{IsLawful};
ghost use Rattle.model_core.specs.Indexed.{IsIndexOf};
ghost use Rattle.model_core.specs.One.{one};
ghost use Rattle.model_core.specs.declared.change.Change.TheVariants.{AddVar};

use crate::tables::Tables;
use crate::take::push_var;
use crate::texts::Texts;
use base_names::{NoMemory, Refusal, Tag};
use model_data::{MAX_VARS, Model, Var, is_name};
use std::alloc::Global;

/// Adds a variable behind the others.
pub(crate) fn add_var(
    alloc: Global,
    model: &mut Model,
    tables: &mut Tables,
    var: &Var,
) -> Result<(), Refusal>
    requires index { IsIndexOf tables.old model.old }
    requires lawful { IsLawful model.old }
    ensures ok { OnOk result (one model.old (AddVar var.now) ≡ Ok model.new) }
    ensures refused { IfErr result (λ r. (r ≡ MEMORY) ⊎ (one model.old (AddVar var.now) ≡ Err r)) }
    ensures unchanged { OnErr result (model.new ≡ model.old) }
    ensures index { IsIndexOf tables.new model.new }
{
    let name = var.name.as_bytes();
    if !is_name(name) {
        return Err(Refusal::NAME);
    }
    if is_doubled(tables, var) {
        return Err(Refusal::DUPLICATE);
    }
    if model.vars.len() >= MAX_VARS {
        return Err(Refusal::SIZE);
    }
    let text = name.to_vec(alloc)?;
    let tag = tag_text(alloc, &var.tag)?;
    let copy = var.copy(alloc)?;
    tables.vars.reserve()?;
    tables.tags.reserve()?;
    push_var(alloc, model, copy)?;
    tables.vars.add_reserved(text);
    add_tag(&mut tables.tags, tag);
    Ok(())
}

/// Whether the variable's name or its tag is taken.
fn is_doubled(tables: &Tables, var: &Var) -> bool
    ensures { result ≡ (list_any (bytes_eq var.now.name) tables.now.vars.texts || option_map_or (λ tag. list_any (bytes_eq tag) tables.now.tags.texts) var.now.tag false) }
{
    tables.vars.has(var.name.as_bytes()) || is_taken(&tables.tags, &var.tag)
}

/// Adds a new tag, where there is one, to the table.
fn add_tag(tags: &mut Texts, tag: Option<Vec<u8>>)
    requires room { 0 < tags.old.room }
    requires new { option_map_or (λ t. list_any (bytes_eq t.items) tags.old.texts) tag false ≡ false }
    ensures { (text : List ℕ) → list_any (bytes_eq text) tags.new.texts ≡ (list_any (bytes_eq text) tags.old.texts || option_map_or (λ t. bytes_eq text t.items) tag false) }
{
    if let Some(tag) = tag {
        tags.add_reserved(tag);
    }
}

/// Whether there is a tag, and the table has it.
fn is_taken(tags: &Texts, tag: &Option<Tag>) -> bool
    ensures { result ≡ option_map_or (λ tag. list_any (bytes_eq tag) tags.now.texts) tag.now false }
{
    match tag {
        Some(tag) => tags.has(tag.as_bytes()),
        None => false,
    }
}

fn tag_text(alloc: Global, tag: &Option<Tag>) -> Result<Option<Vec<u8>>, NoMemory>
    ensures { IfOk result (λ text. option_map (λ t. t.items) text ≡ tag.now) }
{
    match tag {
        Some(tag) => Ok(Some(tag.as_bytes().to_vec(alloc)?)),
        None => Ok(None),
    }
}
