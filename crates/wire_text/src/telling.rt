//! What one word tells in an argument's place.
//!
//! A word that isn't of the argument's kind is LINE, which comes before whatever the other words say. So a reader answers
//! LINE as its own error, and as its value what a word of the kind tells: a value, or NAME or RANGE.

ghost use Rattle.std.specs.Prelude.{◌≡◌};
ghost use Rattle.wire_text.specs.Kinds.{batch, bound_of, comparison, is_far, kind, lower, number, size, told, upper, whole};
ghost use Rattle.wire_text.specs.Telling.{Tells, TellsBound};

use crate::limits::BLOCK_LIMIT;
use crate::words::is;
use base_names::{BatchId, Refusal, are_digits, read_digits, read_id};
use frac_text::NumFault;
use frac128::Frac;
use model_data::{BOUND_SIZE, Sense, VarKind};

/// A word's value, or NAME or RANGE.
pub(crate) type Told<T> = Result<T, Refusal>;

/// A bound as it is written.
#[derive(Clone, Copy, Debug)]
enum Bound {
    Finite(Frac),
    Infinite { below: bool },
}

impl Bound {
    ghost use Rattle.std.specs.Prelude.{Ok};
    ghost use Rattle.wire_text.specs.Kinds.{lower_told, upper_told};
    ghost use Rattle.wire_text.specs.Telling.{bound_seen};

    fn as_lower(&self) -> Told<Option<Frac>>
        ensures { result ≡ lower_told (Ok (bound_seen self.now)) }
    {
        match self {
            Bound::Finite(value) => Ok(Some(*value)),
            Bound::Infinite { below: true } => Ok(None),
            Bound::Infinite { below: false } => Err(Refusal::RANGE),
        }
    }

    fn as_upper(&self) -> Told<Option<Frac>>
        ensures { result ≡ upper_told (Ok (bound_seen self.now)) }
    {
        match self {
            Bound::Finite(value) => Ok(Some(*value)),
            Bound::Infinite { below: true } => Err(Refusal::RANGE),
            Bound::Infinite { below: false } => Ok(None),
        }
    }
}

pub(crate) fn number(word: &[u8]) -> Result<Told<Frac>, Refusal>
    ensures { Tells (told number word.now) result }
{
    match frac_text::read(word) {
        Ok(value) => Ok(Ok(value)),
        Err(NumFault::NotNumber) => Err(Refusal::LINE),
        Err(NumFault::TooWide { .. }) => Ok(Err(Refusal::RANGE)),
    }
}

/// A number whose value is whole.
pub(crate) fn whole(word: &[u8]) -> Result<Told<i128>, Refusal>
    ensures { Tells (told whole word.now) result }
{
    match frac_text::read(word) {
        Ok(value) if value.den() == 1 => Ok(Ok(value.num())),
        Ok(_) | Err(NumFault::NotNumber) => Err(Refusal::LINE),
        Err(NumFault::TooWide { .. }) => Ok(Err(Refusal::RANGE)),
    }
}

/// A lower bound; `None` is infinite.
pub(crate) fn lower(word: &[u8]) -> Result<Told<Option<Frac>>, Refusal>
    ensures { Tells (told lower word.now) result }
{
    match bound_in(word)? {
        Ok(bound) => Ok(bound.as_lower()),
        Err(refusal) => Ok(Err(refusal)),
    }
}

/// An upper bound; `None` is infinite.
pub(crate) fn upper(word: &[u8]) -> Result<Told<Option<Frac>>, Refusal>
    ensures { Tells (told upper word.now) result }
{
    match bound_in(word)? {
        Ok(bound) => Ok(bound.as_upper()),
        Err(refusal) => Ok(Err(refusal)),
    }
}

fn bound_in(word: &[u8]) -> Result<Told<Bound>, Refusal>
    ensures { TellsBound (bound_of word.now) result }
{
    if is(word, "inf") || is(word, "infinity") {
        return Ok(Ok(Bound::Infinite { below: false }));
    }
    if is(word, "-inf") || is(word, "-infinity") {
        return Ok(Ok(Bound::Infinite { below: true }));
    }
    match frac_text::read(word) {
        Ok(value) if is_far(&value) => Ok(Ok(Bound::Infinite {
            below: value.num() < 0,
        })),
        Ok(value) => Ok(Ok(Bound::Finite(value))),
        Err(NumFault::NotNumber) => Err(Refusal::LINE),
        Err(
            NumFault::TooWide {
                negative,
                huge: true,
            },
        ) => Ok(Ok(Bound::Infinite { below: negative })),
        Err(NumFault::TooWide { huge: false, .. }) => Ok(Err(Refusal::RANGE)),
    }
}

/// Whether the value is at least 10^20 in size.
fn is_far(value: &Frac) -> bool
    ensures { result ≡ is_far value.now }
{
    let den = value.den().unsigned_abs();
    match BOUND_SIZE.checked_mul(den) {
        Some(bound) => bound <= value.num().unsigned_abs(),
        None => false,
    }
}

pub(crate) fn comparison(word: &[u8]) -> Result<Sense, Refusal>
    ensures { result ≡ told comparison word.now }
{
    if is(word, "<=") {
        Ok(Sense::Less)
    } else if is(word, ">=") {
        Ok(Sense::Greater)
    } else if is(word, "=") {
        Ok(Sense::Equal)
    } else {
        Err(Refusal::LINE)
    }
}

/// Which values a variable may have.
pub(crate) fn kind(word: &[u8]) -> Result<VarKind, Refusal>
    ensures { result ≡ told kind word.now }
{
    if is(word, "C") {
        Ok(VarKind::Continuous)
    } else if is(word, "I") {
        Ok(VarKind::Integer)
    } else if is(word, "B") {
        Ok(VarKind::Binary)
    } else {
        Err(Refusal::LINE)
    }
}

/// The length of a block in digits, of which there may be any number. `None`: it is too long.
pub(crate) fn size(word: &[u8]) -> Result<Option<u32>, Refusal>
    ensures { result ≡ told size word.now }
{
    if !are_digits(word) {
        return Err(Refusal::LINE);
    }
    match read_digits(word) {
        Some(len) if len <= u64::from(BLOCK_LIMIT) => Ok(Some(len as u32)),
        _ => Ok(None),
    }
}

pub(crate) fn batch(word: &[u8]) -> Result<BatchId, Refusal>
    ensures { result ≡ told batch word.now }
{
    read_id(word).ok_or(Refusal::LINE)
}
