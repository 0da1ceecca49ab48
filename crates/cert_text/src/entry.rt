//! What a line of a certificate's text says.

use frac128::Frac;
use model_data::{Weight, WideAt};

/// What a line says. `specs/Entries.antt` has its text.
#[derive(Clone, Copy, Debug, PartialEq, Eq)]
pub enum Entry {
    /// How the solve ended, and the counts of pivots, nodes and work.
    Outcome(u8, u64, u64, u64),
    /// The objective at the point that is kept.
    Value(Frac),
    /// What a vector has for a variable.
    Component(Vector, Frac),
    /// The operation that doesn't fit.
    Wide(WideAt),
    /// There is no certificate.
    Nothing,
    /// The certificate is a ray.
    Ray,
    /// Two cases of the variable of this number: at most the whole number, or at least one more.
    Split(u32, i128),
    /// A case that isn't split.
    Leaf(Claim),
    /// A weight of such a case.
    Weight(Side, Weight),
    /// The text is over.
    End,
}

/// A list with a value for each variable.
#[derive(Clone, Copy, Debug, PartialEq, Eq)]
pub enum Vector {
    /// The point that is kept.
    X,
    /// The point of a ray.
    P,
    /// The direction of a ray.
    D,
}

/// What is claimed of a case.
#[derive(Clone, Copy, Debug, PartialEq, Eq)]
pub enum Claim {
    /// No point of it is better than the one that is kept.
    Bound,
    /// It has no point.
    Farkas,
}

/// What is weighed.
#[derive(Clone, Copy, Debug, PartialEq, Eq)]
pub enum Side {
    /// A row.
    Row,
    /// The lower bound of a variable.
    Lower,
    /// The upper bound of a variable.
    Upper,
}
