//! Which texts name a variable or a row, and which tag a variable.
ghost use Rattle.std.specs.Prelude.{◌≡◌};
ghost use Rattle.std.specs.List.{list_all, list_any};
ghost use Rattle.std.specs.Str.{str_eq_ignore_ascii_case};
ghost use Rattle.model_data.specs.Names.{begins_as_name, begins_name, is_name, is_name_byte, is_one_of, is_reserved, is_tag, is_visible};

use crate::limits::{MAX_NAME_LEN, MAX_TAG_LEN};

/// Whether the text may be the name of a variable or of a row.
#[tactic(auto, unfolding(crate::specs::Names::is_name))]
pub fn is_name(text: &[u8]) -> bool
    ensures { result ≡ is_name text.now }
{
    begins_as_name(text) && are_name_bytes(text) && text.len() <= MAX_NAME_LEN && !is_reserved(text)
}

/// Whether the text may be the tag of a variable.
#[tactic(auto, unfolding(crate::specs::Names::is_tag))]
pub fn is_tag(text: &[u8]) -> bool
    ensures { result ≡ is_tag text.now }
{
    !text.is_empty() && are_visible(text) && text.len() <= MAX_TAG_LEN
}

fn begins_as_name(text: &[u8]) -> bool
    ensures { result ≡ begins_as_name text.now }
{
    match text {
        [byte, ..] => begins_name(*byte),
        [] => false,
    }
}

fn begins_name(byte: u8) -> bool
    ensures { result ≡ begins_name byte }
{
    !(byte.is_ascii_digit() || is_one_of(b".+-[*^<>=()],", byte))
}

fn are_name_bytes(text: &[u8]) -> bool
    ensures { result ≡ list_all is_name_byte text.now }
{
    text.iter().all(|byte| is_name_byte(*byte))
}

fn is_name_byte(byte: u8) -> bool
    ensures { result ≡ is_name_byte byte }
{
    byte.is_ascii_graphic() && !is_one_of(b"\\:", byte)
}

fn are_visible(text: &[u8]) -> bool
    ensures { result ≡ list_all is_visible text.now }
{
    text.iter().all(|byte| byte.is_ascii_graphic())
}

fn is_one_of(bytes: &[u8], byte: u8) -> bool
    ensures { result ≡ is_one_of bytes.now byte }
{
    bytes.iter().any(|b| *b == byte)
}

/// Whether the text is a word with a meaning of its own in a model's text, in letters of any case.
fn is_reserved(text: &[u8]) -> bool
    ensures { result ≡ is_reserved text.now }
{
    let words = [
        "minimize",
        "minimise",
        "minimum",
        "min",
        "maximize",
        "maximise",
        "maximum",
        "max",
        "subject",
        "such",
        "st",
        "st.",
        "s.t.",
        "bounds",
        "bound",
        "general",
        "generals",
        "gen",
        "binary",
        "binaries",
        "bin",
        "free",
        "end",
        "semi-continuous",
        "semis",
        "semi",
        "sos",
        "pwlobj",
        "multi-objectives",
        "scenario",
        "inf",
        "infinity",
    ];
    is_any_word(text, &words)
}

/// Whether the text is one of the words, in letters of any case.
fn is_any_word(text: &[u8], words: &[&str]) -> bool
    ensures { result ≡ list_any (λ word. str_eq_ignore_ascii_case word.now text.now) words.now }
{
    words
        .iter()
        .any(|word| word.as_bytes().eq_ignore_ascii_case(text))
}
