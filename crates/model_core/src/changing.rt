//! One change of a model and of its tables.
ghost use Rattle.std.specs.Prelude.{◌≡◌, ◌⊎◌, IfErr, OnErr, OnOk};
ghost use Rattle.base_names.specs.declared.refusal.Refusal.TheVariants.{MEMORY};
ghost use Rattle.model_data.specs.Lawful.{IsLawful};
ghost use Rattle.model_core.specs.Asked.{IsLawfulChange};
ghost use Rattle.model_core.specs.Indexed.{IsIndexOf};
ghost use Rattle.model_core.specs.One.{one};

use crate::addition::add_var;
use crate::change::Change;
use crate::coefficients::change_coefficient;
use crate::deletion::{delete_row, delete_var};
use crate::fields::{RowField, VarField};
use crate::new_rows::add_row;
use crate::tables::Tables;
use crate::tagging::give_tag;
use crate::var_change::{change_row, change_var};
use base_names::Refusal;
use model_data::Model;
use std::alloc::Global;

/// Makes one change. A refused one leaves the model as it was.
pub(crate) fn make_change(
    alloc: Global,
    model: &mut Model,
    tables: &mut Tables,
    change: &Change,
) -> Result<(), Refusal>
    requires index { IsIndexOf tables.old model.old }
    requires lawful { IsLawful model.old }
    ensures ok { OnOk result (one model.old change.now ≡ Ok model.new) }
    ensures refused { IfErr result (λ r. (r ≡ MEMORY) ⊎ (one model.old change.now ≡ Err r)) }
    ensures unchanged { OnErr result (model.new ≡ model.old) }
    ensures index { IsIndexOf tables.new model.new }
{
    match change {
        Change::AddVar(var) => add_var(alloc, model, tables, var),
        Change::AddConstr(name, sense, rhs, terms) => {
            add_row(alloc, model, tables, name, *sense, *rhs, terms)
        }
        Change::ChgCoeff(row, var, coef) => change_coefficient(
            alloc,
            model,
            tables,
            row.as_bytes(),
            var.as_bytes(),
            *coef,
        ),
        Change::SetLb(name, bound) => change_var(
            alloc,
            model,
            tables,
            name.as_bytes(),
            VarField::Lower(*bound),
        ),
        Change::SetUb(name, bound) => change_var(
            alloc,
            model,
            tables,
            name.as_bytes(),
            VarField::Upper(*bound),
        ),
        Change::SetObj(name, coef) => change_var(
            alloc,
            model,
            tables,
            name.as_bytes(),
            VarField::Objective(*coef),
        ),
        Change::SetRhs(name, rhs) => change_row(
            alloc,
            model,
            tables,
            name.as_bytes(),
            RowField::Rhs(*rhs),
        ),
        Change::SetSense(name, sense) => change_row(
            alloc,
            model,
            tables,
            name.as_bytes(),
            RowField::Sense(*sense),
        ),
        Change::SetKind(name, kind) => change_var(
            alloc,
            model,
            tables,
            name.as_bytes(),
            VarField::Kind(*kind),
        ),
        Change::SetTag(name, tag) => give_tag(alloc, model, tables, name.as_bytes(), tag),
        Change::DelVar(name) => delete_var(alloc, model, tables, name.as_bytes()),
        Change::DelConstr(name) => delete_row(alloc, model, tables, name.as_bytes()),
    }
}
