//! How a variable becomes columns.
ghost use Rattle.std.specs.Prelude.{◌≡◌};
ghost use Rattle.solve_defs.specs.StandardForm.{offset, shape_between, width};
ghost use Rattle.std_form.specs.Shapes.{shape_of};

use crate::bounds::Bounds;
use frac128::Frac;

/// How a variable becomes columns, each of which is at least 0.
#[derive(Clone, Copy, Debug)]
pub(crate) enum Shape {
    /// Its lower bound and a column, with its upper bound where it has one.
    Shifted { lower: Frac, upper: Option<Frac> },
    /// Its upper bound less a column.
    Mirrored { upper: Frac },
    /// A column less the next one.
    Free,
}

impl Shape {
    pub(crate) fn between(bounds: &Bounds) -> Shape
        ensures { shape_of result ≡ shape_between bounds.now.lower bounds.now.upper }
    {
        match (bounds.lower(), bounds.upper()) {
            (Some(lower), upper) => Shape::Shifted { lower, upper },
            (None, Some(upper)) => Shape::Mirrored { upper },
            (None, None) => Shape::Free,
        }
    }

    /// So many columns.
    pub(crate) fn width(&self) -> usize
        ensures { result ≡ width (shape_of self.now) }
    {
        match self {
            Shape::Shifted { .. } | Shape::Mirrored { .. } => 1,
            Shape::Free => 2,
        }
    }

    /// What stands beside the columns.
    pub(crate) fn offset(&self) -> Option<Frac>
        ensures { result ≡ offset (shape_of self.now) }
    {
        match self {
            Shape::Shifted { lower, .. } => Some(*lower),
            Shape::Mirrored { upper } => Some(*upper),
            Shape::Free => None,
        }
    }
}
