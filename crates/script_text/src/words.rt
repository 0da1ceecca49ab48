//! What single words of a script tell.

ghost use Rattle.std.specs.Prelude.{◌≡◌, ◌∷◌, [], ◌≤◌, ◌<◌, ◌+◌, ◌^◌, All, IfSome, MatchOption, bytes_eq, length, take, slice_index, not};
ghost use Rattle.wire_text.specs.Line.{is_blank, words_of};
ghost use Rattle.script_text.specs.declared.limits.TheConstants.{LEAST_JOURNAL, MOST_JOURNAL};
ghost use Rattle.script_text.specs.Steps.{byte_number, no_more, number_within, role_of, seat_number};

use crate::limits::{LEAST_JOURNAL, MOST_JOURNAL};
use base_names::{Role, read_digits};

/// Whether a byte stands between words: a space or a tab.
fn is_blank(byte: u8) -> bool
    ensures { result ≡ is_blank byte }
{
    byte == b' ' || byte == b'\t'
}

/// How many bytes at the front of a text are blanks, or how many are none.
fn run_len(text: &[u8], blank: bool) -> usize
    ensures within { result ≤ length text.now }
    ensures run { All (λ byte. is_blank byte ≡ blank) (take result text.now) }
    ensures ended { result < length text.now → is_blank (slice_index text.now result) ≡ not blank }
{
    let mut len = 0;
    while len < text.len() && is_blank(text[len]) == blank {
        len += 1;
    }
    len
}

/// The first word of a line and what stands behind it. `None`: the line has no word.
pub(crate) fn first_word(line: &[u8]) -> Option<(&[u8], &[u8])>
    ensures words { MatchOption result (words_of line.now ≡ []) (λ cut. words_of line.now ≡ cut.0.now ∷ words_of cut.1.now) }
    ensures shorter { IfSome result (λ cut. length cut.1.now < length line.now) }
{
    let (_, line) = line.split_at(run_len(line, true));
    if line.is_empty() {
        return None;
    }
    Some(line.split_at(run_len(line, false)))
}

/// The number from 1 on that a word spells as a seat's.
pub(crate) fn seat_number(word: &[u8]) -> Option<u8>
    ensures { result ≡ seat_number word.now }
{
    match read_digits(word)? {
        0 => None,
        number => u8::try_from(number).ok(),
    }
}

/// The byte whose number a word spells.
pub(crate) fn byte_number(word: &[u8]) -> Option<u8>
    ensures { result ≡ byte_number word.now }
{
    u8::try_from(read_digits(word)?).ok()
}

/// The greatest number of an owner's commands that a word spells.
pub(crate) fn commands_number(word: &[u8]) -> Option<u32>
    ensures { result ≡ number_within 0 (2 ^ 32) word.now }
{
    u32::try_from(read_digits(word)?).ok()
}

/// The greatest number of bytes that a word spells.
pub(crate) fn bytes_number(word: &[u8]) -> Option<u64>
    ensures { result ≡ number_within 0 (2 ^ 64) word.now }
{
    read_digits(word)
}

/// The journal's limit that a word spells.
pub(crate) fn journal_number(word: &[u8]) -> Option<u64>
    ensures { result ≡ number_within LEAST_JOURNAL (MOST_JOURNAL + 1) word.now }
{
    let number = read_digits(word)?;
    if number < LEAST_JOURNAL || number > MOST_JOURNAL {
        return None;
    }
    Some(number)
}

pub(crate) fn role(word: &[u8]) -> Option<Role>
    ensures { result ≡ role_of word.now }
{
    if is(word, "STANDARD") {
        Some(Role::Standard)
    } else if is(word, "ADMIN") {
        Some(Role::Admin)
    } else {
        None
    }
}

/// `None` where the line has a word.
pub(crate) fn no_more(line: &[u8]) -> Option<()>
    ensures { result ≡ no_more (words_of line.now) }
{
    match first_word(line) {
        Some(_) => None,
        None => Some(()),
    }
}

/// Whether a word is this one.
pub(crate) fn is(word: &[u8], text: &str) -> bool
    ensures { result ≡ bytes_eq word.now text.now }
{
    word == text.as_bytes()
}
