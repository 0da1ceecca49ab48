//! How far a text has been read: which production is going on.
use crate::quantity::Limit;
use crate::symbol::Spot;
use model_data::{Sense, VarKind};

/// The second word of a constraints word of two.
#[derive(Clone, Copy, Debug, PartialEq, Eq)]
pub(crate) enum SecondWord {
    To,
    That,
}

/// A production that is going on. What has been told so far stands in the draft, and a number that waits for what it
/// belongs to beside it.
#[derive(Clone, Copy, Debug)]
pub(crate) enum Stage<'a> {
    /// Nothing is read.
    Start,
    /// Behind the objective word: a label or the first term.
    ObjectiveStart,
    /// A name at the head of the objective: a label where a colon follows, else a term.
    ObjectiveTitle(Spot, &'a str),
    /// Behind the label: the first term.
    ObjectiveFirst,
    /// Behind a sign, minus or not: a number or a name.
    ObjectiveSign(bool),
    /// Behind a number: its name, or else it belongs to the constant.
    ObjectiveNumber(Spot),
    /// Behind a term: a further one with a sign, or the constraints word.
    ObjectiveNext,
    /// Behind `subject` or `such`.
    SecondWord(SecondWord),
    /// Behind the constraints word: a row, a section or `end`.
    RowsStart,
    /// Behind a row: the same.
    RowsNext,
    /// A name at the head of a row: its label where a colon follows, else the first term's.
    RowTitle(Spot, &'a str),
    /// Behind a label: the first term or the comparison.
    RowFirst,
    /// Behind a sign: whether it is the first term's, and a minus.
    RowSign(bool, bool),
    /// Behind a number, the first term's or a later one's: its name.
    RowNumber(bool, Spot),
    /// Behind a term: a further one with a sign, or the comparison.
    RowNext,
    /// Behind the comparison: a sign or the right side.
    RowSide(Sense),
    /// Behind a sign, minus or not: the right side.
    RowSideSign(bool, Sense),
    /// In a section of bounds: a bound, a section or `end`.
    Bounds,
    /// Behind a name: `free` or a comparison.
    BoundName(&'a str),
    /// Behind a name and a comparison: a sign or the number.
    BoundSide(Sense, &'a str),
    /// Behind a sign, minus or not: the number.
    BoundSideSign(bool, Sense, &'a str),
    /// Behind a sign in front of a bound's first number.
    BoundSign(bool),
    /// Behind a bound's first number: a comparison.
    BoundNumber(Spot, Limit),
    /// Behind a number and a comparison: the name.
    BoundMiddle(Limit, Sense),
    /// Behind a number, a comparison and a name: the same comparison again, or what may follow a bound.
    BoundEnd(Sense, &'a str),
    /// In a list of names that are to have the kind: a name, a section or `end`.
    Kinds(VarKind),
    /// Behind `end`.
    Ended,
}
