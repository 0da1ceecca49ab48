//! Tokens, one at a time.
ghost use Rattle.std.specs.Prelude.{◌≡◌, ◌+◌, ◌^◌, ◌<◌, IfSome, length, not, option_map, position};
ghost use Rattle.lp_defs.specs.Items.{fault_at, forbidden_after, is_next_on_line, item_alone, item_of};
ghost use Rattle.lp_defs.specs.Tokens.{is_plain_byte};
ghost use Rattle.lp_lex.specs.Ahead.{IsWithin, item_of_outcome, runs_ahead};
ghost use Rattle.lp_lex.specs.Class.{class_told};
ghost use Rattle.lp_lex.specs.Runs.{IsMarked, run_of};

use crate::class::{ClassedToken, TokenClass};
use crate::kinds::class;
use crate::runs::{Run, along, next_run, text_end};
use crate::words::{is_any_word, is_word};
use base_names::FaultWord;
use frac128::Frac;
use lp_defs::{LexFault, Place, Token};

/// A text, and how far it has been read.
#[derive(Clone, Copy, Debug)]
pub struct Lexer<'a> {
    text: &'a [u8],
    place: Place,
    ghost within: { IsWithin text.now place },
}

impl<'a> Lexer<'a> {
    ghost use Rattle.std.specs.Prelude.{◌-◌, IfOk};
    ghost use Rattle.lp_defs.specs.Items.{items};
    ghost use Rattle.lp_defs.specs.Tokens.{end_of};
    ghost use Rattle.lp_lex.specs.Ahead.{IsSlice, first_bytes, items_behind, next_of};
    ghost use Rattle.lp_lex.specs.Class.{next_told, token_with};
    ghost use Rattle.lp_lex.specs.Lexer.{end_of as end_for, items_ahead, offset_of, text_of};

    /// A lexer before the first token. The text has fewer than 2^32 - 1 bytes.
    pub fn new(text: &'a [u8]) -> Lexer<'a>
        requires { length text.now < 2 ^ 32 - 1 }
        ensures text { text_of result ≡ text.now }
        ensures items { items_ahead result ≡ items text.now }
        ensures end { end_for result ≡ end_of text.now }
        ensures offset { offset_of result ≡ 0 }
    {
        Lexer {
            text,
            place: Place {
                line: 1,
                column: 1,
                offset: 0,
            },
        }
    }

    /// The place of the text's end: one past the last byte, and on a new line where that is a line feed.
    pub fn end(&self) -> Place
        ensures { result ≡ end_for self.now }
    {
        text_end(self.text, self.place)
    }

    /// The next token, or `None` at the end. A run that is no token stays ahead.
    pub fn next_token(&mut self) -> Result<Option<Token>, LexFault>
        ensures next { result ≡ next_of (items_ahead self.old) }
        ensures items { items_ahead self.new ≡ items_behind (items_ahead self.old) }
        ensures slice { IfOk result (λ next. IfSome next (IsSlice (text_of self.old) (offset_of self.old) (first_bytes (items_ahead self.old)))) }
        ensures offset { IfOk result (λ next. IfSome next (λ token. offset_of self.new ≡ token.end)) }
        ensures same_text { text_of self.new ≡ text_of self.old }
        ensures same_end { end_for self.new ≡ end_for self.old }
    {
        let mut value = Frac::zero();
        match self.next_classed(&mut value) {
            Ok(Some(token)) => Ok(Some(token.with_value(&value))),
            Ok(None) => Ok(None),
            Err(fault) => Err(fault),
        }
    }

    /// The next token, or `None` at the end, with the value of a number in a place of its own. A run that is no token stays
    /// ahead.
    pub fn next_classed(&mut self, value: &mut Frac) -> Result<Option<ClassedToken>, LexFault>
        ensures next { next_told result value.new ≡ next_of (items_ahead self.old) }
        ensures items { items_ahead self.new ≡ items_behind (items_ahead self.old) }
        ensures slice { IfOk result (λ next. IfSome next (λ token. IsSlice (text_of self.old) (offset_of self.old) (first_bytes (items_ahead self.old)) (token_with token value.new))) }
        ensures offset { IfOk result (λ next. IfSome next (λ token. offset_of self.new ≡ token.end)) }
        ensures same_text { text_of self.new ≡ text_of self.old }
        ensures same_end { end_for self.new ≡ end_for self.old }
    {
        let Some(run) = next_run(self.text, self.place) else {
            return Ok(None);
        };
        let end = along(run.place, run.bytes.len());
        let class = class_before(self.text, run, end, value)?;
        self.place = end;
        Ok(Some(ClassedToken {
            line: run.place.line,
            column: run.place.column,
            start: run.place.offset,
            end: end.offset,
            class,
        }))
    }
}

/// What a run that ends there is, or its fault.
fn class_before(
    text: &[u8],
    run: Run<'_>,
    end: Place,
    value: &mut Frac,
) -> Result<TokenClass, LexFault>
    requires within { IsWithin text.now end }
    requires marked { IsMarked run }
    requires column_fits { run.place.column + length run.bytes.now < 2 ^ 32 }
    requires offset_fits { run.place.offset + length run.bytes.now < 2 ^ 32 }
    ensures { item_of_outcome (run_of run.entry) (class_told result value.new) ≡ item_of (run_of run.entry) (runs_ahead text.now end) }
{
    if is_before_forbidden(text, run, end) {
        return Err(fault_at(run.place, FaultWord::Unsupported));
    }
    class_alone(run, value)
}

/// Whether the run and the next one on its line are two words that no text may have.
fn is_before_forbidden(text: &[u8], run: Run<'_>, end: Place) -> bool
    requires { IsWithin text.now end }
    ensures { result ≡ is_next_on_line (forbidden_after run.entry.bytes.now) run.entry.place.line (runs_ahead text.now end) }
{
    match forbidden_after(run.bytes) {
        Some(word) => match next_run(text, end) {
            Some(next) => next.place.line == run.place.line && is_word(next.bytes, word),
            None => false,
        },
        None => false,
    }
}

/// The word that may not follow on the line.
#[tactic(auto, unfolding(lp_defs::specs::Items::forbidden_after))]
fn forbidden_after(first: &[u8]) -> Option<&'static str>
    ensures { option_map (λ word. word.now) result ≡ forbidden_after first.now }
{
    if is_any_word(first, &["lazy", "general"]) {
        Some("constraints")
    } else if is_any_word(first, &["user"]) {
        Some("cuts")
    } else {
        None
    }
}

/// What a run is, whatever comes next.
fn class_alone(run: Run<'_>, value: &mut Frac) -> Result<TokenClass, LexFault>
    requires marked { IsMarked run }
    requires column_fits { run.place.column + length run.bytes.now < 2 ^ 32 }
    requires offset_fits { run.place.offset + length run.bytes.now < 2 ^ 32 }
    ensures { item_of_outcome (run_of run.entry) (class_told result value.new) ≡ item_alone (run_of run.entry) }
{
    if let Some(bad) = bad_byte(run) {
        return Err(fault_at(along(run.place, bad), FaultWord::Word));
    }
    match class(run.bytes, run.is_simple, value) {
        Ok(class) => Ok(class),
        Err(fault) => Err(fault_at(run.place, fault)),
    }
}

/// Where the first byte is that no token has.
fn bad_byte(run: Run<'_>) -> Option<usize>
    requires { IsMarked run }
    ensures first { result ≡ position (λ byte. not (is_plain_byte byte)) run.entry.bytes.now }
    ensures in_run { IfSome result (λ bad. bad < length run.entry.bytes.now) }
{
    if run.is_simple {
        return None;
    }
    run.bytes.iter().position(|byte| !is_plain_byte(*byte))
}

/// Whether a token may have the byte.
fn is_plain_byte(byte: u8) -> bool
    ensures { result ≡ is_plain_byte byte }
{
    byte.is_ascii_graphic() && byte != b'\\'
}

fn fault_at(place: Place, fault: FaultWord) -> LexFault
    ensures { result ≡ fault_at place fault }
{
    LexFault {
        line: place.line,
        column: place.column,
        fault,
    }
}
