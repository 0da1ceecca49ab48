//! One field of a variable or of a row.
ghost use Rattle.std.specs.Prelude.{◌≡◌, ◌<◌, length};
ghost use Rattle.model_core.specs.Field.{at_place, with_row_field, with_tag, with_var_field};

use crate::take::{take_rows, take_vars};
use base_names::{Seq, Tag};
use frac128::Frac;
use model_data::{Model, Row, Sense, Var, VarKind};
use std::alloc::Global;

/// A field of a variable, with a value.
#[derive(Clone, Copy, Debug)]
pub(crate) enum VarField {
    Lower(Option<Frac>),
    Upper(Option<Frac>),
    Objective(Frac),
    Kind(VarKind),
}

/// A field of a row, with a value.
#[derive(Clone, Copy, Debug)]
pub(crate) enum RowField {
    Rhs(Frac),
    Sense(Sense),
}

/// Sets a field of the variable at the place. It takes no memory.
pub(crate) fn put_var_field(alloc: Global, model: &mut Model, place: usize, field: VarField)
    requires { place < length model.old.vars }
    ensures { model.new ≡ record model.old { vars = at_place place (with_var_field field) model.old.vars } }
{
    let mut vars = take_vars(alloc, model);
    set_var_field(&mut vars[place], field);
    model.vars = Seq::of(vars);
}

fn set_var_field(var: &mut Var, field: VarField)
    ensures { var.new ≡ with_var_field field var.old }
{
    match field {
        VarField::Lower(bound) => var.lower = bound,
        VarField::Upper(bound) => var.upper = bound,
        VarField::Objective(coef) => var.obj = coef,
        VarField::Kind(kind) => var.kind = kind,
    }
}

/// Sets a field of the row at the place. It takes no memory.
pub(crate) fn put_row_field(alloc: Global, model: &mut Model, place: usize, field: RowField)
    requires { place < length model.old.rows }
    ensures { model.new ≡ record model.old { rows = at_place place (with_row_field field) model.old.rows } }
{
    let mut rows = take_rows(alloc, model);
    set_row_field(&mut rows[place], field);
    model.rows = Seq::of(rows);
}

fn set_row_field(row: &mut Row, field: RowField)
    ensures { row.new ≡ with_row_field field row.old }
{
    match field {
        RowField::Rhs(rhs) => row.rhs = rhs,
        RowField::Sense(sense) => row.sense = sense,
    }
}

/// Gives the variable at the place the tag. It takes no memory.
pub(crate) fn put_tag(alloc: Global, model: &mut Model, place: usize, tag: Tag)
    requires { place < length model.old.vars }
    ensures { model.new ≡ record model.old { vars = at_place place (with_tag tag) model.old.vars } }
{
    let mut vars = take_vars(alloc, model);
    vars[place].tag = Some(tag);
    model.vars = Seq::of(vars);
}
