//! The coefficient of a variable in a row.
ghost use Rattle.std.specs.Prelude.{◌≡◌, ◌&&◌, ◌⊎◌, ◌<◌, IfErr, OnErr, OnOk, false, length};
ghost use Rattle.base_names.specs.declared.refusal.Refusal.TheVariants.{MEMORY};
ghost use Rattle.model_data.specs.Lawful.{IsLawful, term_count};
ghost use Rattle.model_core.specs.Effect.{in_row, on_row, with_coefficient};
ghost use Rattle.model_core.specs.Field.{at_place};
ghost use Rattle.model_core.specs.Indexed.{IsIndexOf};
ghost use Rattle.model_core.specs.Named.{knows_row, knows_var, var_place};
ghost use Rattle.model_core.specs.One.{answer};
ghost use Rattle.model_core.specs.Rising.{IsRising};

use crate::tables::Tables;
use crate::take::{take_rows, take_terms};
use crate::terms::{count_with, set_coefficient};
use base_names::{NoMemory, Refusal, Seq};
use frac128::Frac;
use model_data::{MAX_TERMS, Model, Row};
use std::alloc::Global;

/// Sets the coefficient of a variable in a row. One of 0 leaves no term.
pub(crate) fn change_coefficient(
    alloc: Global,
    model: &mut Model,
    tables: &mut Tables,
    row: &[u8],
    var: &[u8],
    coef: Frac,
) -> Result<(), Refusal>
    requires index { IsIndexOf tables.old model.old }
    requires lawful { IsLawful model.old }
    ensures ok { OnOk result (answer (knows_row row.now model.old && knows_var var.now model.old) false (on_row row.now (in_row (with_coefficient (var_place var.now model.old) coef)) model.old) ≡ Ok model.new) }
    ensures refused { IfErr result (λ r. (r ≡ MEMORY) ⊎ (answer (knows_row row.now model.old && knows_var var.now model.old) false (on_row row.now (in_row (with_coefficient (var_place var.now model.old) coef)) model.old) ≡ Err r)) }
    ensures unchanged { OnErr result (model.new ≡ model.old) }
    ensures index { IsIndexOf tables.new model.new }
{
    let Some(row_place) = tables.rows.place(row) else {
        return Err(Refusal::NAME);
    };
    let Some(var_place) = tables.vars.place(var) else {
        return Err(Refusal::NAME);
    };
    let count = count_after(model, tables.terms, row_place, var_place as u32, &coef);
    if count > MAX_TERMS {
        return Err(Refusal::SIZE);
    }
    put_coefficient(alloc, model, row_place, var_place as u32, coef)?;
    tables.terms = count;
    Ok(())
}

/// How many terms the model has, of `terms` so far, with this coefficient.
fn count_after(model: &Model, terms: usize, row: usize, var: u32, coef: &Frac) -> usize
    requires lawful { IsLawful model.now }
    requires terms { terms ≡ term_count model.now }
    requires row { row < length model.now.rows }
    ensures { result ≡ term_count (record model.now { rows = at_place row (in_row (with_coefficient var coef.now)) model.now.rows }) }
{
    let row_terms = model.rows.as_slice()[row].terms.as_slice();
    terms - row_terms.len() + count_with(row_terms, var, coef)
}

/// Sets the coefficient of the variable in the row at the place.
fn put_coefficient(
    alloc: Global,
    model: &mut Model,
    row: usize,
    var: u32,
    coef: Frac,
) -> Result<(), NoMemory>
    requires lawful { IsLawful model.old }
    requires row { row < length model.old.rows }
    ensures ok { OnOk result (model.new ≡ record model.old { rows = at_place row (in_row (with_coefficient var coef)) model.old.rows }) }
    ensures unchanged { OnErr result (model.new ≡ model.old) }
{
    let mut rows = take_rows(alloc, model);
    let put = set_in_row(alloc, &mut rows[row], var, coef);
    model.rows = Seq::of(rows);
    put
}

fn set_in_row(alloc: Global, row: &mut Row, var: u32, coef: Frac) -> Result<(), NoMemory>
    requires { IsRising row.old.terms }
    ensures ok { OnOk result (row.new ≡ in_row (with_coefficient var coef) row.old) }
    ensures unchanged { OnErr result (row.new ≡ row.old) }
{
    let mut terms = take_terms(alloc, row);
    let set = set_coefficient(&mut terms, var, coef);
    row.terms = Seq::of(terms);
    set
}
