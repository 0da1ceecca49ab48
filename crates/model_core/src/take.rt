//! The lists of a model, as vectors that can be changed in place.
ghost use Rattle.std.specs.Prelude.{◌≡◌, [], OnErr, OnOk, ◌++◌, ◌∷◌};

use base_names::{NoMemory, Seq};
use model_data::{Model, Row, Term, Var};
use std::alloc::Global;
use std::mem;

/// Takes the variables out. It takes no memory.
pub(crate) fn take_vars(alloc: Global, model: &mut Model) -> Vec<Var>
    ensures vars { result.items ≡ model.old.vars }
    ensures rest { model.new ≡ record model.old { vars = [] } }
{
    mem::replace(&mut model.vars, Seq::of(Vec::new(alloc))).into_vec()
}

/// Takes the rows out. It takes no memory.
pub(crate) fn take_rows(alloc: Global, model: &mut Model) -> Vec<Row>
    ensures rows { result.items ≡ model.old.rows }
    ensures rest { model.new ≡ record model.old { rows = [] } }
{
    mem::replace(&mut model.rows, Seq::of(Vec::new(alloc))).into_vec()
}

/// Takes the terms out. It takes no memory.
pub(crate) fn take_terms(alloc: Global, row: &mut Row) -> Vec<Term>
    ensures terms { result.items ≡ row.old.terms }
    ensures rest { row.new ≡ record row.old { terms = [] } }
{
    mem::replace(&mut row.terms, Seq::of(Vec::new(alloc))).into_vec()
}

/// Adds a variable behind the others.
pub(crate) fn push_var(alloc: Global, model: &mut Model, var: Var) -> Result<(), NoMemory>
    ensures ok { OnOk result (model.new ≡ record model.old { vars = model.old.vars ++ var ∷ [] }) }
    ensures unchanged { OnErr result (model.new ≡ model.old) }
{
    let mut vars = take_vars(alloc, model);
    let pushed = vars.push(var);
    model.vars = Seq::of(vars);
    pushed?;
    Ok(())
}

/// Adds a row behind the others.
pub(crate) fn push_row(alloc: Global, model: &mut Model, row: Row) -> Result<(), NoMemory>
    ensures ok { OnOk result (model.new ≡ record model.old { rows = model.old.rows ++ row ∷ [] }) }
    ensures unchanged { OnErr result (model.new ≡ model.old) }
{
    let mut rows = take_rows(alloc, model);
    let pushed = rows.push(row);
    model.rows = Seq::of(rows);
    pushed?;
    Ok(())
}
