//! Variables and rows that go.
ghost use Rattle.std.specs.Prelude.{◌≡◌, ◌<◌, ◌≤◌, ◌^◌, IfErr, OnErr, OnOk, false, filter, length, map, not, slice_index_or};
ghost use Rattle.std.specs.List.{remove};
ghost use Rattle.model_data.specs.Lawful.{IsLawful, term_count};
ghost use Rattle.model_data.specs.declared.limits.TheConstants.{MAX_TERMS};
ghost use Rattle.model_core.specs.Effect.{in_row, without_place, without_var};
ghost use Rattle.model_core.specs.Indexed.{IsIndexOf};
ghost use Rattle.model_core.specs.Named.{is_row, knows_row, knows_var};
ghost use Rattle.model_core.specs.One.{answer};

use crate::tables::Tables;
use crate::tagging::forget_tag;
use crate::take::{take_rows, take_terms, take_vars};
use crate::terms::drop_var;
use base_names::{Refusal, Seq};
use model_data::{Model, Row};
use std::alloc::Global;

/// Takes the variable of the name away, with its terms. It takes no memory, and time in the number of terms of all rows.
pub(crate) fn delete_var(
    alloc: Global,
    model: &mut Model,
    tables: &mut Tables,
    name: &[u8],
) -> Result<(), Refusal>
    requires index { IsIndexOf tables.old model.old }
    requires lawful { IsLawful model.old }
    ensures ok { OnOk result (answer (knows_var name.now model.old) false (without_var name.now model.old) ≡ Ok model.new) }
    ensures refused { IfErr result (λ r. answer (knows_var name.now model.old) false (without_var name.now model.old) ≡ Err r) }
    ensures unchanged { OnErr result (model.new ≡ model.old) }
    ensures index { IsIndexOf tables.new model.new }
{
    let Some(place) = tables.vars.place(name) else {
        return Err(Refusal::NAME);
    };
    forget_tag(&mut tables.tags, &model.vars.as_slice()[place]);
    tables.vars.remove_at(place);
    remove_var(alloc, model, place);
    tables.terms = count_terms(model);
    Ok(())
}

/// Takes the variable at the place away, with its terms.
fn remove_var(alloc: Global, model: &mut Model, place: usize)
    requires within { place < length model.old.vars }
    requires small { place < 2 ^ 32 }
    ensures { model.new ≡ record model.old { vars = remove model.old.vars place; rows = map (in_row (without_place place)) model.old.rows } }
{
    let mut vars = take_vars(alloc, model);
    vars.remove(place);
    model.vars = Seq::of(vars);
    let mut rows = take_rows(alloc, model);
    drop_from_rows(alloc, rows.as_mut_slice(), place as u32);
    model.rows = Seq::of(rows);
}

fn drop_from_rows(alloc: Global, rows: &mut [Row], var: u32)
    ensures { rows.new ≡ map (in_row (without_place var)) rows.old }
{
    for row in rows.iter_mut() {
        drop_from_row(alloc, row, var);
    }
}

fn drop_from_row(alloc: Global, row: &mut Row, var: u32)
    ensures { row.new ≡ in_row (without_place var) row.old }
{
    let mut terms = take_terms(alloc, row);
    drop_var(&mut terms, var);
    row.terms = Seq::of(terms);
}

/// The terms of all rows.
pub(crate) fn count_terms(model: &Model) -> usize
    requires { term_count model.now ≤ MAX_TERMS }
    ensures { result ≡ term_count model.now }
{
    let mut count = 0;
    for row in model.rows.as_slice() {
        count += row.terms.len();
    }
    count
}

/// Takes the row of the name away. It takes no memory, and time in the number of rows.
pub(crate) fn delete_row(
    alloc: Global,
    model: &mut Model,
    tables: &mut Tables,
    name: &[u8],
) -> Result<(), Refusal>
    requires index { IsIndexOf tables.old model.old }
    requires lawful { IsLawful model.old }
    ensures ok { OnOk result (answer (knows_row name.now model.old) false (record model.old { rows = filter (λ r. not (is_row name.now r)) model.old.rows }) ≡ Ok model.new) }
    ensures refused { IfErr result (λ r. answer (knows_row name.now model.old) false (record model.old { rows = filter (λ r. not (is_row name.now r)) model.old.rows }) ≡ Err r) }
    ensures unchanged { OnErr result (model.new ≡ model.old) }
    ensures index { IsIndexOf tables.new model.new }
{
    let Some(place) = tables.rows.place(name) else {
        return Err(Refusal::NAME);
    };
    tables.rows.remove_at(place);
    let row = remove_row(alloc, model, place);
    tables.terms -= row.terms.len();
    Ok(())
}

/// Takes the row at the place away.
fn remove_row(alloc: Global, model: &mut Model, place: usize) -> Row
    requires { place < length model.old.rows }
    ensures model { model.new ≡ record model.old { rows = remove model.old.rows place } }
    ensures row { result ≡ slice_index_or model.old.rows place result }
{
    let mut rows = take_rows(alloc, model);
    let row = rows.remove(place);
    model.rows = Seq::of(rows);
    row
}
