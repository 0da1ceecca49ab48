//! The texts of entries, written and read.

ghost use Rattle.std.specs.Prelude.{◌≡◌, ◌==◌, Some, option_map, position};
ghost use Rattle.cert_text.specs.Entries.{claim_word, entry_text, side_word, vector_word};
ghost use Rattle.cert_text.specs.Reading.{cut, entry_of, entry_with, lone_entry, op_of, outcome_of, split_of, weight_of, wide_of};

use crate::entry::{Claim, Entry, Side, Vector};
use crate::mark::{Mark, is};
use crate::numbers::{count, fraction, place, status, whole};
use frac128::{Op, Wide};
use model_data::{Weight, WideAt};
use std::fmt;

impl fmt::Display for Vector {
    ghost output = { λ vector. Some (vector_word vector) };

    fn fmt<W: fmt::Write>(&self, f: &mut fmt::Formatter<W>) -> fmt::Result {
        f.write_str(match self {
            Vector::X => "X",
            Vector::P => "P",
            Vector::D => "D",
        })
    }
}

impl fmt::Display for Claim {
    ghost output = { λ claim. Some (claim_word claim) };

    fn fmt<W: fmt::Write>(&self, f: &mut fmt::Formatter<W>) -> fmt::Result {
        f.write_str(match self {
            Claim::Bound => "BOUND",
            Claim::Farkas => "FARKAS",
        })
    }
}

impl fmt::Display for Side {
    ghost output = { λ side. Some (side_word side) };

    fn fmt<W: fmt::Write>(&self, f: &mut fmt::Formatter<W>) -> fmt::Result {
        f.write_str(match self {
            Side::Row => "R",
            Side::Lower => "L",
            Side::Upper => "U",
        })
    }
}

impl fmt::Display for Entry {
    ghost output = { λ entry. Some (entry_text entry) };

    fn fmt<W: fmt::Write>(&self, f: &mut fmt::Formatter<W>) -> fmt::Result {
        match self {
            Entry::Outcome(status, pivots, nodes, work) => {
                write!(f, "OUTCOME {status} {pivots} {nodes} {work}")
            }
            Entry::Value(value) => write!(f, "VALUE {value}"),
            Entry::Component(vector, value) => write!(f, "{vector} {value}"),
            Entry::Wide(WideAt { at, wide }) => write!(f, "WIDE {at} {wide}"),
            Entry::Nothing => write!(f, "NONE"),
            Entry::Ray => write!(f, "RAY"),
            Entry::Split(var, at) => write!(f, "SPLIT {var} {at}"),
            Entry::Leaf(claim) => write!(f, "{claim}"),
            Entry::Weight(side, Weight { place, weight }) => write!(f, "{side} {place} {weight}"),
            Entry::End => write!(f, "END"),
        }
    }
}

/// What a line says. `None`: it is no line of a certificate's text.
pub(crate) fn read_entry(line: &[u8]) -> Option<Entry>
    ensures { result ≡ entry_of line.now }
{
    match split_word(line) {
        None => lone_entry(Mark::of(line)?),
        Some((word, rest)) => entry_with(Mark::of(word)?, rest),
    }
}

/// What stands before the first space, and what behind it.
fn split_word(text: &[u8]) -> Option<(&[u8], &[u8])>
    ensures { option_map (λ parts. (parts.0.now, parts.1.now)) result ≡ cut text.now }
{
    let space = first_space(text)?;
    Some((&text[..space], &text[space + 1..]))
}

fn first_space(text: &[u8]) -> Option<usize>
    ensures { result ≡ position (λ byte. byte == 32) text.now }
{
    text.iter().position(|byte| *byte == b' ')
}

/// What a line says that is one word.
fn lone_entry(mark: Mark) -> Option<Entry>
    ensures { result ≡ lone_entry mark }
{
    match mark {
        Mark::Nothing => Some(Entry::Nothing),
        Mark::Ray => Some(Entry::Ray),
        Mark::Leaf(claim) => Some(Entry::Leaf(claim)),
        Mark::End => Some(Entry::End),
        _ => None,
    }
}

/// What a line says that begins with the mark and a space.
fn entry_with(mark: Mark, rest: &[u8]) -> Option<Entry>
    ensures { result ≡ entry_with mark rest.now }
{
    match mark {
        Mark::Outcome => outcome(rest),
        Mark::Value => Some(Entry::Value(fraction(rest)?)),
        Mark::Component(vector) => Some(Entry::Component(vector, fraction(rest)?)),
        Mark::Wide => Some(Entry::Wide(wide(rest)?)),
        Mark::Split => split(rest),
        Mark::Weight(side) => Some(Entry::Weight(side, weight(rest)?)),
        _ => None,
    }
}

fn outcome(rest: &[u8]) -> Option<Entry>
    ensures { result ≡ outcome_of rest.now }
{
    let (first, rest) = split_word(rest)?;
    let (second, rest) = split_word(rest)?;
    let (third, fourth) = split_word(rest)?;
    Some(Entry::Outcome(
        status(first)?,
        count(second)?,
        count(third)?,
        count(fourth)?,
    ))
}

fn wide(rest: &[u8]) -> Option<WideAt>
    ensures { result ≡ wide_of rest.now }
{
    let (at, rest) = split_word(rest)?;
    let (op, rest) = split_word(rest)?;
    let (left, right) = split_word(rest)?;
    Some(WideAt {
        at: count(at)?,
        wide: Wide {
            op: op_of(op)?,
            left: fraction(left)?,
            right: fraction(right)?,
        },
    })
}

fn op_of(word: &[u8]) -> Option<Op>
    ensures { result ≡ op_of word.now }
{
    if is(word, "ADD") {
        Some(Op::Add)
    } else if is(word, "SUB") {
        Some(Op::Sub)
    } else if is(word, "MUL") {
        Some(Op::Mul)
    } else if is(word, "DIV") {
        Some(Op::Div)
    } else {
        None
    }
}

fn split(rest: &[u8]) -> Option<Entry>
    ensures { result ≡ split_of rest.now }
{
    let (var, at) = split_word(rest)?;
    Some(Entry::Split(place(var)?, whole(at)?))
}

fn weight(rest: &[u8]) -> Option<Weight>
    ensures { result ≡ weight_of rest.now }
{
    let (number, weight) = split_word(rest)?;
    Some(Weight {
        place: place(number)?,
        weight: fraction(weight)?,
    })
}
