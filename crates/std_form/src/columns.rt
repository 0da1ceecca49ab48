//! The columns of a model's variables.
ghost use Rattle.std.specs.Prelude.{◌≡◌, All, IfOk, List, length, replicate, slice_index_or, slice_set};
ghost use Rattle.frac128.specs.Fraction.{Fraction, zero_value};
ghost use Rattle.solve_defs.specs.StandardForm.{column_count, entries, free, offset, shapes_of};
ghost use Rattle.std_form.specs.Cuts.{IsCutOf};

use crate::bounds::effective_bounds;
use crate::shape::Shape;
use base_names::NoMemory;
use frac128::Frac;
use model_data::Model as LinearModel;
use solve_defs::Cut;
use std::alloc::Global;
use std::marker::Model;

/// A variable's shape, and the first of its columns.
#[derive(Clone, Copy, Debug)]
pub(crate) struct Placed {
    pub(crate) shape: Shape,
    pub(crate) column: usize,
}

/// The columns of all variables, in the variables' order. Contracts see it as the list of their shapes.
#[derive(Debug, Drop)]
pub(crate) struct Columns {
    pub(crate) placed: Vec<Placed>,
    /// So many columns.
    count: usize,
}

impl Model for Columns {
    ghost use Rattle.std.specs.Prelude.{List};
    ghost use Rattle.solve_defs.specs.StandardForm.{Shape as ShapeDef};
    ghost use Rattle.std_form.specs.Columns.{AreInOrder, shapes_in};

    ghost Value = { List ShapeDef };

    ghost view = { λ c. shapes_in c.placed.items };

    ghost invariant = { λ c. AreInOrder 0 c.placed.items c.count };
}

impl Columns {
    /// Those of a model where these cuts hold.
    pub(crate) fn of(alloc: Global, m: &LinearModel, cuts: &[Cut]) -> Result<Columns, NoMemory>
        requires { All (IsCutOf (length m.now.vars)) cuts.now }
        ensures { IfOk result (λ columns. columns ≡ shapes_of m.now cuts.now) }
    {
        let bounds = effective_bounds(alloc, m.vars.as_slice(), cuts)?;
        let mut placed = Vec::with_capacity(alloc, bounds.len())?;
        let mut count = 0;
        for own in &bounds {
            let shape = Shape::between(own);
            placed.push(Placed {
                shape,
                column: count,
            })?;
            count += shape.width();
        }
        Ok(Columns { placed, count })
    }

    /// What stands beside the columns of the variable of this place, where there is one.
    pub(crate) fn offset(&self, place: usize) -> Option<Frac>
        ensures { result ≡ offset (slice_index_or self.now place free) }
    {
        self.placed.get(place)?.shape.offset()
    }

    /// A 0 for each column.
    pub(crate) fn zeros(&self, alloc: Global) -> Result<Vec<Frac>, NoMemory>
        ensures { IfOk result (λ coefs. coefs.items ≡ replicate (column_count self.now) zero_value) }
    {
        Ok(vec![in alloc; Frac::zero(); self.count]?)
    }

    /// Writes the coefficient of the variable of this place, where there is one, into those of all columns.
    pub(crate) fn write(&self, place: usize, coef: &Frac, coefs: &mut [Frac])
        requires { length coefs.old ≡ column_count self.now }
        ensures { (xs : List Fraction) → length xs ≡ length self.now → coefs.old ≡ entries self.now xs
            → coefs.new ≡ entries self.now (slice_set xs place coef.now) }
    {
        if let Some(placed) = self.placed.get(place) {
            placed.write(coef, coefs);
        }
    }
}

impl Placed {
    ghost use Rattle.std.specs.Prelude.{◌+◌, ◌≤◌};
    ghost use Rattle.solve_defs.specs.StandardForm.{width};
    ghost use Rattle.std_form.specs.Shapes.{shape_of, with_entries};

    /// Writes the variable's coefficient into those of all columns.
    fn write(&self, coef: &Frac, coefs: &mut [Frac])
        requires { self.now.column + width (shape_of self.now.shape) ≤ length coefs.old }
        ensures { coefs.new ≡ with_entries self.now.column (shape_of self.now.shape) coef.now coefs.old }
    {
        match self.shape {
            Shape::Shifted { .. } => coefs[self.column] = *coef,
            Shape::Mirrored { .. } => coefs[self.column] = coef.neg(),
            Shape::Free => {
                coefs[self.column] = *coef;
                coefs[self.column + 1] = coef.neg();
            }
        }
    }
}
