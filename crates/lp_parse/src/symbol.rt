//! What the grammar sees of a token, and where.
ghost use Rattle.std.specs.Prelude.{◌≡◌, IsTrue, codes};
ghost use Rattle.lp_defs.specs.Kinds.{begins_with, front_of};
ghost use Rattle.lp_defs.specs.Symbols as seen;
ghost use Rattle.lp_defs.specs.Tokens.{is_plain};
ghost use Rattle.lp_lex.specs.Class.{kind_with};
ghost use Rattle.lp_parse.specs.Meaning.{spot_of, symbol_of};

use base_names::{FaultWord, OrMemory};
use frac128::Frac;
use lp_defs::{LexFault, ModelFault, Place, SectionWord};
use lp_lex::{ClassedToken, TokenClass};
use model_data::Sense;

/// Where a token begins.
#[derive(Clone, Copy, Debug, PartialEq, Eq)]
pub(crate) struct Spot {
    pub(crate) line: u32,
    pub(crate) column: u32,
}

/// A number, as far as it can be told by itself.
#[derive(Clone, Copy, Debug)]
pub(crate) enum Quantity<'v> {
    Finite(&'v Frac),
    TooWide { negative: bool, huge: bool },
    Infinite { negative: bool },
}

/// A token. Names stand in the text, and the value of a number where the lexer has put it.
#[derive(Clone, Copy, Debug)]
pub(crate) enum Symbol<'a, 'v> {
    Sign {
        negative: bool,
    },
    Colon,
    Comparison(Sense),
    /// `signed` says that the token begins with a sign.
    Number {
        signed: bool,
        quantity: Quantity<'v>,
    },
    Keyword(SectionWord),
    /// The name before the colon.
    Label(&'a str),
    Name(&'a str),
}

impl Spot {
    pub(crate) fn of_token(token: &ClassedToken) -> Spot
        ensures { spot_of result ≡ record { line = token.now.line; column = token.now.column } }
    {
        Spot {
            line: token.line,
            column: token.column,
        }
    }

    pub(crate) fn of_place(place: Place) -> Spot
        ensures { spot_of result ≡ seen.spot_of place }
    {
        Spot {
            line: place.line,
            column: place.column,
        }
    }

    pub(crate) fn model_fault(self, fault: FaultWord) -> ModelFault
        ensures { result ≡ seen.fault_at (spot_of self) fault }
    {
        ModelFault {
            line: self.line,
            column: self.column,
            fault,
        }
    }

    pub(crate) fn fault(self, fault: FaultWord) -> OrMemory<ModelFault>
        ensures { result ≡ OrMemory.Fault (seen.fault_at (spot_of self) fault) }
    {
        OrMemory::Fault(self.model_fault(fault))
    }
}

/// The fault of a run that is no token.
pub(crate) fn fault_of_run(fault: LexFault) -> ModelFault
    ensures { result ≡ record { line = fault.line; column = fault.column; fault = fault.fault } }
{
    ModelFault {
        line: fault.line,
        column: fault.column,
        fault: fault.fault,
    }
}

/// What the grammar sees of a token of the class with this value and these bytes, each of which a token may have.
pub(crate) fn symbol_of<'a, 'v>(
    class: TokenClass,
    value: &'v Frac,
    bytes: &'a [u8],
) -> Symbol<'a, 'v>
    requires { IsTrue (is_plain bytes.now) }
    ensures { symbol_of result ≡ seen.symbol_of (kind_with class value.now) bytes.now }
{
    match class {
        TokenClass::Sign { negative } => Symbol::Sign { negative },
        TokenClass::Colon => Symbol::Colon,
        TokenClass::Comparison(sense) => Symbol::Comparison(sense),
        TokenClass::Number => number(bytes, Quantity::Finite(value)),
        TokenClass::TooWide { negative, huge } => number(
            bytes,
            Quantity::TooWide { negative, huge },
        ),
        TokenClass::Infinite { negative } => number(bytes, Quantity::Infinite { negative }),
        TokenClass::Section(word) => Symbol::Keyword(word),
        TokenClass::Label => Symbol::Label(text_of(front_of(bytes))),
        TokenClass::Name => Symbol::Name(text_of(bytes)),
    }
}

fn number<'a, 'v>(bytes: &'a [u8], quantity: Quantity<'v>) -> Symbol<'a, 'v>
    ensures { result ≡ Symbol.Number (begins_with (codes "+-") bytes.now) quantity.entry }
{
    Symbol::Number {
        signed: begins_with_sign(bytes),
        quantity,
    }
}

fn begins_with_sign(bytes: &[u8]) -> bool
    ensures { result ≡ begins_with (codes "+-") bytes.now }
{
    match bytes {
        [byte, ..] => *byte == b'+' || *byte == b'-',
        [] => false,
    }
}

/// The text of bytes that a token may have, which are ASCII.
fn text_of(bytes: &[u8]) -> &str
    requires { IsTrue (is_plain bytes.now) }
    ensures { result.now ≡ bytes.now }
{
    // A name is looked up as a text, and its bytes aren't looked at once more for that.
    unsafe { str::from_utf8_unchecked(bytes) }
}

/// The bytes before the last one.
fn front_of(bytes: &[u8]) -> &[u8]
    ensures { result.now ≡ front_of bytes.now }
{
    match bytes {
        [front @ .., _] => front,
        [] => bytes,
    }
}
