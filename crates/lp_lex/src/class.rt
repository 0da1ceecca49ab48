//! What a token is, with the value of a number apart.
//!
//! A number's value takes more room than all else of a token. A caller that has one place for it is given tokens that fit
//! into registers.
ghost use Rattle.std.specs.Prelude.{◌≡◌};
ghost use Rattle.lp_lex.specs.Class.{class_told, kind_with, token_with};

use frac128::Frac;
use lp_defs::{SectionWord, Token, TokenKind};
use model_data::Sense;

/// What a token is, but for the value of a number.
#[derive(Clone, Copy, Debug, PartialEq, Eq)]
pub enum TokenClass {
    Sign { negative: bool },
    Colon,
    Comparison(Sense),
    /// A number whose parts fit. Its value stands elsewhere.
    Number,
    TooWide { negative: bool, huge: bool },
    Infinite { negative: bool },
    Section(SectionWord),
    Label,
    Name,
}

/// A token, but for the value of a number.
#[derive(Clone, Copy, Debug, PartialEq, Eq)]
pub struct ClassedToken {
    /// The line of the first byte, from 1.
    pub line: u32,
    /// The column of the first byte, in bytes from 1.
    pub column: u32,
    pub start: u32,
    pub end: u32,
    pub class: TokenClass,
}

impl ClassedToken {
    /// The token with its value, which counts where it is a number.
    pub fn with_value(&self, value: &Frac) -> Token
        ensures { result ≡ token_with self.now value.now }
    {
        Token {
            line: self.line,
            column: self.column,
            start: self.start,
            end: self.end,
            kind: self.class.with_value(value),
        }
    }
}

impl TokenClass {
    /// The kind with its value, which counts where it is a number.
    pub fn with_value(&self, value: &Frac) -> TokenKind
        ensures { result ≡ kind_with self.now value.now }
    {
        match self {
            TokenClass::Sign { negative } => TokenKind::Sign {
                negative: *negative,
            },
            TokenClass::Colon => TokenKind::Colon,
            TokenClass::Comparison(sense) => TokenKind::Comparison(*sense),
            TokenClass::Number => TokenKind::Number(*value),
            TokenClass::TooWide { negative, huge } => TokenKind::TooWide {
                negative: *negative,
                huge: *huge,
            },
            TokenClass::Infinite { negative } => TokenKind::Infinite {
                negative: *negative,
            },
            TokenClass::Section(word) => TokenKind::Section(*word),
            TokenClass::Label => TokenKind::Label,
            TokenClass::Name => TokenKind::Name,
        }
    }

    /// The class of a kind. The value of a number is put into its place.
    pub(crate) fn of_kind(kind: &TokenKind, value: &mut Frac) -> TokenClass
        ensures { kind_with result value.new ≡ kind.now }
    {
        match kind {
            TokenKind::Sign { negative } => TokenClass::Sign {
                negative: *negative,
            },
            TokenKind::Colon => TokenClass::Colon,
            TokenKind::Comparison(sense) => TokenClass::Comparison(*sense),
            TokenKind::Number(number) => {
                *value = *number;
                TokenClass::Number
            }
            TokenKind::TooWide { negative, huge } => TokenClass::TooWide {
                negative: *negative,
                huge: *huge,
            },
            TokenKind::Infinite { negative } => TokenClass::Infinite {
                negative: *negative,
            },
            TokenKind::Section(word) => TokenClass::Section(*word),
            TokenKind::Label => TokenClass::Label,
            TokenKind::Name => TokenClass::Name,
        }
    }
}
