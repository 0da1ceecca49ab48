//! The tags of variables.
ghost use Rattle.std.specs.Prelude.{◌≡◌, ◌&&◌, ◌⊎◌, ◌≤◌, IfErr, List, OnErr, OnOk, bytes_eq, false, not, true, ℕ};
ghost use Rattle.std.specs.List.{list_any};
ghost use Rattle.base_names.specs.declared.refusal.Refusal.TheVariants.{MEMORY};
ghost use Rattle.model_data.specs.Lawful.{IsLawful};
ghost use Rattle.model_core.specs.Effect.{on_var};
ghost use Rattle.model_core.specs.Field.{with_tag};
ghost use Rattle.model_core.specs.Indexed.{IsIndexOf};
ghost use Rattle.model_core.specs.Named.{has_tag, is_var, knows_var};
ghost use Rattle.model_core.specs.One.{answer};

use crate::fields::put_tag;
use crate::tables::Tables;
use crate::texts::Texts;
use base_names::{Refusal, Tag};
use model_data::{Model, Var};
use std::alloc::Global;

/// Gives the variable of the name the tag, in place of one that it has.
pub(crate) fn give_tag(
    alloc: Global,
    model: &mut Model,
    tables: &mut Tables,
    name: &[u8],
    tag: &Tag,
) -> Result<(), Refusal>
    requires index { IsIndexOf tables.old model.old }
    requires lawful { IsLawful model.old }
    ensures ok { OnOk result (answer (knows_var name.now model.old) (list_any (λ v. has_tag tag.now v && not (is_var name.now v)) model.old.vars) (on_var name.now (with_tag tag.now) model.old) ≡ Ok model.new) }
    ensures refused { IfErr result (λ r. (r ≡ MEMORY) ⊎ (answer (knows_var name.now model.old) (list_any (λ v. has_tag tag.now v && not (is_var name.now v)) model.old.vars) (on_var name.now (with_tag tag.now) model.old) ≡ Err r)) }
    ensures unchanged { OnErr result (model.new ≡ model.old) }
    ensures index { IsIndexOf tables.new model.new }
{
    let Some(place) = tables.vars.place(name) else {
        return Err(Refusal::NAME);
    };
    if is_taken(&tables.tags, &model.vars.as_slice()[place], tag) {
        return Err(Refusal::DUPLICATE);
    }
    let text = tag.as_bytes().to_vec(alloc)?;
    let copy = tag.copy(alloc)?;
    tables.tags.reserve()?;
    forget_tag(&mut tables.tags, &model.vars.as_slice()[place]);
    tables.tags.add_reserved(text);
    put_tag(alloc, model, place, copy);
    Ok(())
}

/// Whether another variable has the tag.
fn is_taken(tags: &Texts, var: &Var, tag: &Tag) -> bool
    ensures { result ≡ (list_any (bytes_eq tag.now) tags.now.texts && not (has_tag tag.now var.now)) }
{
    tags.has(tag.as_bytes()) && !has_tag(var, tag.as_bytes())
}

fn has_tag(var: &Var, tag: &[u8]) -> bool
    ensures { result ≡ has_tag tag.now var.now }
{
    match &var.tag {
        Some(own) => own.as_bytes() == tag,
        None => false,
    }
}

/// Takes the variable's tag, where it has one, out of the table.
pub(crate) fn forget_tag(tags: &mut Texts, var: &Var)
    ensures gone { (tag : List ℕ) → has_tag tag var.now ≡ true → list_any (bytes_eq tag) tags.new.texts ≡ false }
    ensures others { (tag : List ℕ) → has_tag tag var.now ≡ false → list_any (bytes_eq tag) tags.new.texts ≡ list_any (bytes_eq tag) tags.old.texts }
    ensures room { tags.old.room ≤ tags.new.room }
{
    if let Some(tag) = &var.tag {
        tags.take_out(tag.as_bytes());
    }
}
