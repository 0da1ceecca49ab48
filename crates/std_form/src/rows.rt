//! The rows of a standard form.
ghost use Rattle.std.specs.Prelude.{◌≡◌, ◌+◌, ◌≤◌, IfOk, map};
ghost use Rattle.frac128.specs.Fraction.{negation};
ghost use Rattle.solve_defs.specs.StandardForm.{column_count, less_offset, row_entries, rows_of, side_less, span_row, span_rows, width};
ghost use Rattle.std_form.specs.Outcome.{Meets, behind};
ghost use Rattle.std_form.specs.Shapes.{shape_of};

use crate::columns::{Columns, Placed};
use crate::fault::StdFault;
use crate::shape::Shape;
use base_names::{NoMemory, OrMemory, Seq};
use dictionary::StdRow;
use frac128::{Frac, Wide};
use model_data::{Row, Sense, Term};
use std::alloc::Global;

impl Columns {
    /// Adds what a row of the model says of at most.
    pub(crate) fn push_row(
        &self,
        alloc: Global,
        row: &Row,
        rows: &mut Vec<StdRow>,
    ) -> Result<(), OrMemory<StdFault>>
        ensures { Meets result (λ _. rows.new.items) (behind rows.old.items (rows_of self.now row.now)) }
    {
        let rhs = self.side(row).map_err(StdFault::Wide)?;
        let mut coefs = self.coefs(alloc, row.terms.as_slice())?;
        match row.sense {
            Sense::Less => rows.push(at_most(coefs, rhs))?,
            Sense::Greater => {
                negate(coefs.as_mut_slice());
                rows.push(at_most(coefs, rhs.neg()))?;
            }
            Sense::Equal => {
                let opposite = negations(alloc, coefs.as_slice())?;
                rows.push(at_most(coefs, rhs))?;
                rows.push(at_most(opposite, rhs.neg()))?;
            }
        }
        Ok(())
    }

    /// The right side of a row, to which the offsets of its terms are moved.
    fn side(&self, row: &Row) -> Result<Frac, Wide>
        ensures { result ≡ side_less self.now row.now.rhs row.now.terms }
    {
        let mut side = row.rhs;
        for term in row.terms.as_slice() {
            side = less_offset(&side, &term.coef, &self.offset(term.var as usize))?;
        }
        Ok(side)
    }

    /// The coefficients of all columns. Of several terms of one variable the first one counts, and it is written last.
    fn coefs(&self, alloc: Global, terms: &[Term]) -> Result<Vec<Frac>, NoMemory>
        ensures { IfOk result (λ coefs. coefs.items ≡ row_entries self.now terms.now) }
    {
        let mut coefs = self.zeros(alloc)?;
        for term in terms.iter().rev() {
            self.write(term.var as usize, &term.coef, &mut coefs);
        }
        Ok(coefs)
    }

    /// Adds a row for each variable with two bounds.
    pub(crate) fn push_spans(
        &self,
        alloc: Global,
        rows: &mut Vec<StdRow>,
    ) -> Result<(), OrMemory<StdFault>>
        ensures { Meets result (λ _. rows.new.items) (behind rows.old.items (span_rows (column_count self.now) 0 self.now)) }
    {
        for placed in &self.placed {
            self.push_span(alloc, placed, rows)?;
        }
        Ok(())
    }

    /// Adds a variable's row, where it has two bounds.
    fn push_span(
        &self,
        alloc: Global,
        placed: &Placed,
        rows: &mut Vec<StdRow>,
    ) -> Result<(), OrMemory<StdFault>>
        requires { placed.now.column + width (shape_of placed.now.shape) ≤ column_count self.now }
        ensures { Meets result (λ _. rows.new.items) (behind rows.old.items (span_row (column_count self.now) placed.now.column (shape_of placed.now.shape))) }
    {
        if let Shape::Shifted {
            lower,
            upper: Some(upper),
        } = placed.shape
        {
            let span = upper.checked_sub(&lower).map_err(StdFault::Wide)?;
            let mut coefs = self.zeros(alloc)?;
            coefs[placed.column] = Frac::one();
            rows.push(at_most(coefs, span))?;
        }
        Ok(())
    }
}

/// A right side, to which the offset of a variable with this coefficient is moved.
fn less_offset(side: &Frac, coef: &Frac, offset: &Option<Frac>) -> Result<Frac, Wide>
    ensures { result ≡ less_offset offset.now coef.now side.now }
{
    match offset {
        Some(offset) => side.checked_sub(&coef.checked_mul(offset)?),
        None => Ok(*side),
    }
}

fn at_most(coefs: Vec<Frac>, rhs: Frac) -> StdRow
    ensures coefs { result.coefs ≡ coefs.items }
    ensures rhs { result.rhs ≡ rhs }
{
    StdRow {
        coefs: Seq::of(coefs),
        rhs,
    }
}

/// Each value times -1, in its place.
fn negate(values: &mut [Frac])
    ensures { values.new ≡ map negation values.old }
{
    for value in values.iter_mut() {
        *value = value.neg();
    }
}

fn negations(alloc: Global, values: &[Frac]) -> Result<Vec<Frac>, NoMemory>
    ensures { IfOk result (λ opposites. opposites.items ≡ map negation values.now) }
{
    Ok(values.iter().map(|value| value.neg()).collect(alloc)?)
}
