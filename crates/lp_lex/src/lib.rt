//! The tokens of a model's text, in one pass and without a copy of the text.
//!
//! [`tokens`] gives all of them, or the first run of bytes that is none. [`Lexer`] gives one at a time, for a parser that
//! has to see the tokens before such a run, and with a number's value in a place of the parser's ([`ClassedToken`]) where
//! time counts. What the tokens of a text are stands in `lp_defs`; `specs/Ahead.antt` says what of them lies ahead of a
//! place.
#![tactic(auto)]

mod all_tokens;
mod class;
mod kinds;
mod lexer;
mod runs;
mod words;

pub use all_tokens::tokens;
pub use class::{ClassedToken, TokenClass};
pub use lexer::Lexer;
pub use lp_defs::{LexFault, Place, SectionWord, Token, TokenKind};
