//! Changes of one field of a variable or of a row.
ghost use Rattle.std.specs.Prelude.{◌≡◌, IfErr, OnErr, OnOk, false};
ghost use Rattle.model_data.specs.Lawful.{IsLawful};
ghost use Rattle.model_core.specs.Effect.{on_row, on_var};
ghost use Rattle.model_core.specs.Field.{with_row_field, with_var_field};
ghost use Rattle.model_core.specs.Indexed.{IsIndexOf};
ghost use Rattle.model_core.specs.Named.{knows_row, knows_var};
ghost use Rattle.model_core.specs.One.{answer};

use crate::fields::{RowField, VarField, put_row_field, put_var_field};
use crate::tables::Tables;
use base_names::Refusal;
use model_data::Model;
use std::alloc::Global;

/// Sets a field of the variable of the name. It takes no memory.
pub(crate) fn change_var(
    alloc: Global,
    model: &mut Model,
    tables: &Tables,
    name: &[u8],
    field: VarField,
) -> Result<(), Refusal>
    requires index { IsIndexOf tables.now model.old }
    requires lawful { IsLawful model.old }
    ensures ok { OnOk result (answer (knows_var name.now model.old) false (on_var name.now (with_var_field field) model.old) ≡ Ok model.new) }
    ensures refused { IfErr result (λ r. answer (knows_var name.now model.old) false (on_var name.now (with_var_field field) model.old) ≡ Err r) }
    ensures unchanged { OnErr result (model.new ≡ model.old) }
    ensures index { IsIndexOf tables.now model.new }
{
    let Some(place) = tables.vars.place(name) else {
        return Err(Refusal::NAME);
    };
    put_var_field(alloc, model, place, field);
    Ok(())
}

/// Sets a field of the row of the name. It takes no memory.
pub(crate) fn change_row(
    alloc: Global,
    model: &mut Model,
    tables: &Tables,
    name: &[u8],
    field: RowField,
) -> Result<(), Refusal>
    requires index { IsIndexOf tables.now model.old }
    requires lawful { IsLawful model.old }
    ensures ok { OnOk result (answer (knows_row name.now model.old) false (on_row name.now (with_row_field field) model.old) ≡ Ok model.new) }
    ensures refused { IfErr result (λ r. answer (knows_row name.now model.old) false (on_row name.now (with_row_field field) model.old) ≡ Err r) }
    ensures unchanged { OnErr result (model.new ≡ model.old) }
    ensures index { IsIndexOf tables.now model.new }
{
    let Some(place) = tables.rows.place(name) else {
        return Err(Refusal::NAME);
    };
    put_row_field(alloc, model, place, field);
    Ok(())
}
