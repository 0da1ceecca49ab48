//! A model as a standard form.
ghost use Rattle.std.specs.Prelude.{◌≡◌, All, Err, IfOk, Ok, flat_map, length, map};
ghost use Rattle.base_names.specs.declared.memory.OrMemory.TheVariants.{Fault};
ghost use Rattle.dictionary.specs.Dictionary.{IsUniform, each};
ghost use Rattle.frac128.specs.declared.operations.Wide.{Wide as Refused};
ghost use Rattle.model_data.specs.Lawful.{IsLawful};
ghost use Rattle.solve_defs.specs.StandardForm.{column_count, constant_with, entries, plus_offset, rows_of, shapes_of, standard_form};
ghost use Rattle.solve_defs.specs.Values.{turned};
ghost use Rattle.std_form.specs.Cuts.{IsCutOf};
ghost use Rattle.std_form.specs.Outcome.{Meets, behind, joined};
ghost use Rattle.std_form.specs.declared.fault.StdFault.TheVariants.{Wide as WideFault};

use crate::columns::Columns;
use crate::fault::StdFault;
use base_names::{NoMemory, OrMemory, Seq};
use dictionary::{Std, StdRow};
use frac128::{Frac, Wide};
use model_data::{Direction, Model, Row, Var};
use solve_defs::Cut;
use std::alloc::Global;

/// The model's standard form where these cuts hold, or the first operation that doesn't fit.
///
/// The cuts name variables of the model, and their bounds are below 2^127 in size. Any model serves: of several terms of one
/// variable in a row the first is its coefficient, and a term of no variable is none.
pub fn to_std(alloc: Global, m: &Model, cuts: &Vec<Cut>) -> Result<Std, OrMemory<StdFault>>
    requires { All (IsCutOf (length m.now.vars)) cuts.now.items }
    ensures ok { IfOk result (λ form. standard_form m.now cuts.now.items ≡ Ok form) }
    ensures fault { (wide : Refused) → result ≡ Err (Fault (WideFault wide)) → standard_form m.now cuts.now.items ≡ Err wide }
    ensures columns { IfOk result (λ form. length form.obj ≡ column_count (shapes_of m.now cuts.now.items)) }
    ensures uniform { IsLawful m.now → IfOk result IsUniform }
{
    let columns = Columns::of(alloc, m, cuts.as_slice())?;
    let mut rows = Vec::new(alloc);
    push_rows(alloc, &columns, m.rows.as_slice(), &mut rows)?;
    columns.push_spans(alloc, &mut rows)?;
    let constant = columns.constant(m).map_err(StdFault::Wide)?;
    let obj = columns.objective(alloc, m)?;
    Ok(Std {
        rows: Seq::of(rows),
        obj: Seq::of(obj),
        constant: turned(m.direction, &constant),
    })
}

/// Adds what the rows of the model say of at most.
fn push_rows(
    alloc: Global,
    columns: &Columns,
    model_rows: &[Row],
    rows: &mut Vec<StdRow>,
) -> Result<(), OrMemory<StdFault>>
    ensures { Meets result (λ _. rows.new.items) (behind rows.old.items (joined (each (rows_of columns.now) model_rows.now))) }
{
    for row in model_rows {
        columns.push_row(alloc, row, rows)?;
    }
    Ok(())
}

impl Columns {
    /// The objective's constant, with the offsets of all variables.
    fn constant(&self, m: &Model) -> Result<Frac, Wide>
        ensures { result ≡ constant_with self.now m.now.constant m.now.vars }
    {
        let mut constant = m.constant;
        for (place, var) in m.vars.as_slice().iter().enumerate() {
            constant = plus_offset(&constant, &var.obj, &self.offset(place))?;
        }
        Ok(constant)
    }

    /// The coefficients of the objective that is maximized.
    fn objective(&self, alloc: Global, m: &Model) -> Result<Vec<Frac>, NoMemory>
        requires { length m.now.vars ≡ length self.now }
        ensures { IfOk result (λ obj. obj.items ≡ map (turned m.now.direction) (entries self.now (map (λ v. v.obj) m.now.vars))) }
    {
        let mut obj = self.zeros(alloc)?;
        for (place, var) in m.vars.as_slice().iter().enumerate() {
            self.write(place, &turned(m.direction, &var.obj), &mut obj);
        }
        Ok(obj)
    }
}

/// A constant, with the offset of a variable with this coefficient.
fn plus_offset(constant: &Frac, coef: &Frac, offset: &Option<Frac>) -> Result<Frac, Wide>
    ensures { result ≡ plus_offset offset.now coef.now constant.now }
{
    match offset {
        Some(offset) => constant.checked_add(&coef.checked_mul(offset)?),
        None => Ok(*constant),
    }
}

/// What is to be minimized is negated, and maximized.
fn turned(direction: Direction, value: &Frac) -> Frac
    ensures { result ≡ turned direction value.now }
{
    match direction {
        Direction::Minimize => value.neg(),
        Direction::Maximize => *value,
    }
}
