//! The words with which lines begin.

ghost use Rattle.std.specs.Prelude.{◌≡◌, bytes_eq};

use crate::entry::{Claim, Side, Vector};

/// The first word of a line.
#[derive(Clone, Copy, Debug, PartialEq, Eq)]
pub enum Mark {
    Outcome,
    Value,
    Component(Vector),
    Wide,
    Nothing,
    Ray,
    Split,
    Leaf(Claim),
    Weight(Side),
    End,
}

impl Mark {
    ghost use Rattle.std.specs.Prelude.{◌≡◌};
    ghost use Rattle.cert_text.specs.Reading.{head_mark_of, mark_of, tree_mark_of};

    /// The mark that a word is.
    pub(crate) fn of(word: &[u8]) -> Option<Mark>
        ensures { result ≡ mark_of word.now }
    {
        match Mark::of_head(word) {
            Some(mark) => Some(mark),
            None => Mark::of_tree(word),
        }
    }

    /// A mark of an outcome, or of a certificate that is no tree.
    fn of_head(word: &[u8]) -> Option<Mark>
        ensures { result ≡ head_mark_of word.now }
    {
        if is(word, "OUTCOME") {
            Some(Mark::Outcome)
        } else if is(word, "VALUE") {
            Some(Mark::Value)
        } else if is(word, "X") {
            Some(Mark::Component(Vector::X))
        } else if is(word, "WIDE") {
            Some(Mark::Wide)
        } else if is(word, "NONE") {
            Some(Mark::Nothing)
        } else if is(word, "RAY") {
            Some(Mark::Ray)
        } else if is(word, "P") {
            Some(Mark::Component(Vector::P))
        } else if is(word, "D") {
            Some(Mark::Component(Vector::D))
        } else {
            None
        }
    }

    /// A mark of a tree, or of the end.
    fn of_tree(word: &[u8]) -> Option<Mark>
        ensures { result ≡ tree_mark_of word.now }
    {
        if is(word, "SPLIT") {
            Some(Mark::Split)
        } else if is(word, "BOUND") {
            Some(Mark::Leaf(Claim::Bound))
        } else if is(word, "FARKAS") {
            Some(Mark::Leaf(Claim::Farkas))
        } else if is(word, "R") {
            Some(Mark::Weight(Side::Row))
        } else if is(word, "L") {
            Some(Mark::Weight(Side::Lower))
        } else if is(word, "U") {
            Some(Mark::Weight(Side::Upper))
        } else if is(word, "END") {
            Some(Mark::End)
        } else {
            None
        }
    }
}

/// Whether a word is this one.
pub(crate) fn is(word: &[u8], text: &str) -> bool
    ensures { result ≡ bytes_eq word.now text.now }
{
    word == text.as_bytes()
}
