//! What kind of token a run is.
//!
//! The first byte decides which kinds can fit at all, so most runs are compared with no word.
ghost use Rattle.std.specs.Prelude.{◌≡◌, IsTrue, codes, false};
ghost use Rattle.frac_text.specs.Reading.{reading};
ghost use Rattle.model_data.specs.Names.{is_one_of};
ghost use Rattle.model_data.specs.Words.{infinite_words};
ghost use Rattle.lp_defs.specs.Kinds.{colon, is_any_word, is_infinite, is_word_of_its_own, kind_of, label_of, name_of, number_kind, quantity_of, section_of, symbol_of};
ghost use Rattle.lp_lex.specs.Class.{class_told};
ghost use Rattle.lp_lex.specs.Runs.{IsSimple};
ghost use Rattle.lp_lex.specs.Words.{begins_symbol, begins_unsigned, begins_word, label_or_name, section_in_b, section_in_m, section_in_s, unsupported_section, word_if, word_or_name};

use crate::class::TokenClass;
use crate::words::{begins_with, is_any_word, is_one_of, is_text};
use base_names::FaultWord;
use frac_text::NumFault;
use frac128::Frac;
use lp_defs::{SectionWord, TokenKind};
use model_data::{MAX_NAME_LEN, Sense};

type Kind = Result<TokenKind, FaultWord>;

/// What a run is, or its fault. The value of a number is put into its place.
pub(crate) fn class(run: &[u8], is_simple: bool, value: &mut Frac) -> Result<TokenClass, FaultWord>
    requires { IsTrue is_simple → IsSimple run.now }
    ensures { class_told result value.new ≡ kind_of run.now }
{
    let [first, ..] = run else {
        return classed(kind_by_order(run), value);
    };
    if begins_symbol(*first) {
        match *first {
            b'+' if run.len() == 1 => Ok(TokenClass::Sign { negative: false }),
            b'-' if run.len() == 1 => Ok(TokenClass::Sign { negative: true }),
            _ => classed(kind_by_order(run), value),
        }
    } else if begins_unsigned(*first) {
        unsigned_number(run, value)
    } else if begins_word(*first) {
        classed(word_or_name(run, is_simple), value)
    } else {
        classed(label_or_name(run, is_simple), value)
    }
}

/// The kind, with the value of a number in its place.
fn classed(kind: Kind, value: &mut Frac) -> Result<TokenClass, FaultWord>
    ensures { class_told result value.new ≡ kind }
{
    match kind {
        Ok(kind) => Ok(TokenClass::of_kind(&kind, value)),
        Err(fault) => Err(fault),
    }
}

/// The kind by one test after the other.
#[tactic(auto, unfolding(lp_defs::specs::Kinds::kind_of))]
fn kind_by_order(run: &[u8]) -> Kind
    ensures { result ≡ kind_of run.now }
{
    if let Some(kind) = symbol(run) {
        return kind;
    }
    if let Some(kind) = quantity(run) {
        return kind;
    }
    if let Some(kind) = section(run) {
        return kind;
    }
    label_or_name(run, false)
}

/// Whether a sign, a colon, a comparison or a bracket begins with the byte.
fn begins_symbol(byte: u8) -> bool
    ensures { result ≡ begins_symbol byte }
{
    matches!(byte, b'+' | b'-' | b':' | b'<' | b'=' | b'>' | b'[')
}

/// Whether a number without a sign begins with the byte.
fn begins_unsigned(byte: u8) -> bool
    ensures { result ≡ begins_unsigned byte }
{
    byte.is_ascii_digit() || byte == b'.'
}

/// Whether a word with a meaning of its own may begin with the byte.
fn begins_word(byte: u8) -> bool
    ensures { result ≡ begins_word byte }
{
    matches!(
        byte.to_ascii_lowercase(),
        b'b' | b'e' | b'f' | b'g' | b'i' | b'm' | b'p' | b's'
    )
}

/// The kind of a run that begins as a word does, and as no symbol or number.
fn word_or_name(run: &[u8], is_simple: bool) -> Kind
    requires { IsTrue is_simple → IsSimple run.now }
    ensures { result ≡ word_or_name run.now }
{
    if is_infinite_size(run) {
        return Ok(TokenKind::Infinite { negative: false });
    }
    match section(run) {
        Some(kind) => kind,
        None => label_or_name(run, is_simple),
    }
}

/// Signs, colons, comparisons, and what begins with a bracket.
#[tactic(auto, unfolding(lp_defs::specs::Kinds::symbol_of))]
fn symbol(run: &[u8]) -> Option<Kind>
    ensures { result ≡ symbol_of run.now }
{
    if is_text(run, "+") {
        Some(Ok(TokenKind::Sign { negative: false }))
    } else if is_text(run, "-") {
        Some(Ok(TokenKind::Sign { negative: true }))
    } else if is_text(run, ":") {
        Some(Ok(TokenKind::Colon))
    } else if is_text(run, "<") || is_text(run, "<=") || is_text(run, "=<") {
        Some(Ok(TokenKind::Comparison(Sense::Less)))
    } else if is_text(run, ">") || is_text(run, ">=") || is_text(run, "=>") {
        Some(Ok(TokenKind::Comparison(Sense::Greater)))
    } else if is_text(run, "=") {
        Some(Ok(TokenKind::Comparison(Sense::Equal)))
    } else if is_text(run, "->") || begins_with(run, "[") {
        Some(Err(FaultWord::Unsupported))
    } else {
        None
    }
}

/// Infinite numbers, and what begins as a number does.
#[tactic(auto, unfolding(lp_defs::specs::Kinds::quantity_of))]
fn quantity(run: &[u8]) -> Option<Kind>
    ensures { result ≡ quantity_of run.now }
{
    if is_infinite(run) {
        let negative = begins_with(run, "-");
        return Some(Ok(TokenKind::Infinite { negative }));
    }
    match run {
        [b'0'..=b'9' | b'.' | b'+' | b'-', ..] => Some(number(run)),
        _ => None,
    }
}

/// A number that begins with a digit or a point.
fn unsigned_number(run: &[u8], value: &mut Frac) -> Result<TokenClass, FaultWord>
    ensures { class_told result value.new ≡ number_kind (reading run.now) }
{
    match frac_text::read(run) {
        Ok(number) => {
            *value = number;
            Ok(TokenClass::Number)
        }
        Err(NumFault::NotNumber) => Err(FaultWord::Number),
        Err(NumFault::TooWide { negative, huge }) => Ok(TokenClass::TooWide { negative, huge }),
    }
}

fn number(run: &[u8]) -> Kind
    ensures { result ≡ number_kind (reading run.now) }
{
    match frac_text::read(run) {
        Ok(value) => Ok(TokenKind::Number(value)),
        Err(NumFault::NotNumber) => Err(FaultWord::Number),
        Err(NumFault::TooWide { negative, huge }) => Ok(TokenKind::TooWide { negative, huge }),
    }
}

/// Whether the run is an infinite number, with or without a sign.
fn is_infinite(run: &[u8]) -> bool
    ensures { result ≡ is_infinite run.now }
{
    match run {
        [b'+' | b'-', size @ ..] => is_infinite_size(size),
        _ => is_infinite_size(run),
    }
}

fn is_infinite_size(run: &[u8]) -> bool
    ensures { result ≡ is_any_word infinite_words run.now }
{
    is_any_word(run, &["inf", "infinity"])
}

/// Section words.
fn section(run: &[u8]) -> Option<Kind>
    ensures { result ≡ section_of run.now }
{
    let [first, ..] = run else {
        return None;
    };
    match first.to_ascii_lowercase() {
        b'm' => section_in_m(run),
        b's' => section_in_s(run),
        b'b' => section_in_b(run),
        b'g' => word_if(
            is_any_word(run, &["general", "generals", "gen"]),
            SectionWord::General,
        ),
        b'f' => word_if(is_any_word(run, &["free"]), SectionWord::Free),
        b'e' => word_if(is_any_word(run, &["end"]), SectionWord::End),
        b'p' => unsupported_section(run),
        _ => None,
    }
}

fn word_if(is_word: bool, word: SectionWord) -> Option<Kind>
    ensures { result ≡ word_if is_word word }
{
    if is_word {
        Some(Ok(TokenKind::Section(word)))
    } else {
        None
    }
}

/// Section words that begin with M.
fn section_in_m(run: &[u8]) -> Option<Kind>
    ensures { result ≡ section_in_m run.now }
{
    if is_any_word(run, &["minimize", "minimise", "minimum", "min"]) {
        Some(Ok(TokenKind::Section(SectionWord::Minimize)))
    } else if is_any_word(run, &["maximize", "maximise", "maximum", "max"]) {
        Some(Ok(TokenKind::Section(SectionWord::Maximize)))
    } else {
        unsupported_section(run)
    }
}

/// Section words that begin with S.
fn section_in_s(run: &[u8]) -> Option<Kind>
    ensures { result ≡ section_in_s run.now }
{
    if is_any_word(run, &["subject"]) {
        Some(Ok(TokenKind::Section(SectionWord::Subject)))
    } else if is_any_word(run, &["such"]) {
        Some(Ok(TokenKind::Section(SectionWord::Such)))
    } else if is_any_word(run, &["st", "st.", "s.t."]) {
        Some(Ok(TokenKind::Section(SectionWord::Constraints)))
    } else {
        unsupported_section(run)
    }
}

/// Section words that begin with B.
fn section_in_b(run: &[u8]) -> Option<Kind>
    ensures { result ≡ section_in_b run.now }
{
    if is_any_word(run, &["bounds", "bound"]) {
        Some(Ok(TokenKind::Section(SectionWord::Bounds)))
    } else {
        word_if(
            is_any_word(run, &["binary", "binaries", "bin"]),
            SectionWord::Binary,
        )
    }
}

/// Words of sections that are left out.
fn unsupported_section(run: &[u8]) -> Option<Kind>
    ensures { result ≡ unsupported_section run.now }
{
    if is_any_word(
        run,
        &[
            "semi-continuous",
            "semis",
            "semi",
            "sos",
            "pwlobj",
            "multi-objectives",
            "scenario",
        ],
    ) {
        Some(Err(FaultWord::Unsupported))
    } else {
        None
    }
}

/// A label or a name, where no other kind fits.
fn label_or_name(run: &[u8], is_simple: bool) -> Kind
    requires { IsTrue is_simple → IsSimple run.now }
    ensures { result ≡ label_or_name run.now }
{
    if is_simple {
        return name_of_length(run);
    }
    match run {
        [front @ .., b':'] => label(front),
        _ => name(run),
    }
}

/// What stands before a colon at the end.
#[tactic(auto, unfolding(lp_defs::specs::Kinds::label_of))]
fn label(front: &[u8]) -> Kind
    ensures { result ≡ label_of front.now }
{
    if is_word_of_its_own(front) {
        return Err(FaultWord::Word);
    }
    name(front)?;
    Ok(TokenKind::Label)
}

/// Whether the run is a word with a meaning of its own.
fn is_word_of_its_own(run: &[u8]) -> bool
    ensures { result ≡ is_word_of_its_own run.now }
{
    section(run).is_some() || is_infinite_size(run)
}

/// A name, where no other kind fits.
fn name(run: &[u8]) -> Kind
    ensures { result ≡ name_of run.now }
{
    if is_one_of(run, b':') {
        Err(FaultWord::Word)
    } else {
        name_of_length(run)
    }
}

/// A name that has no colon.
#[tactic(auto, unfolding(lp_defs::specs::Kinds::name_of))]
fn name_of_length(run: &[u8]) -> Kind
    requires { is_one_of run.now colon ≡ false }
    ensures { result ≡ name_of run.now }
{
    match run {
        [first, ..] if begins_no_name(*first) => Err(FaultWord::Word),
        _ if run.len() <= MAX_NAME_LEN => Ok(TokenKind::Name),
        _ => Err(FaultWord::NameLength),
    }
}

/// Whether no name begins with the byte.
fn begins_no_name(byte: u8) -> bool
    ensures { result ≡ is_one_of (codes "*^<>=()],") byte }
{
    matches!(
        byte,
        b'*' | b'^' | b'<' | b'>' | b'=' | b'(' | b')' | b']' | b','
    )
}
