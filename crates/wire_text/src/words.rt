//! Lines cut into their words.

ghost use Rattle.std.specs.Prelude.{◌≡◌, ◌∷◌, [], ◌≤◌, ◌<◌, All, IfOk, IfSome, MatchOption, MatchResult, bytes_eq, false, length, take, slice_index, not};
ghost use Rattle.base_names.specs.declared.refusal.Refusal.TheVariants.{LINE};
ghost use Rattle.wire_text.specs.Commands.{fit};
ghost use Rattle.wire_text.specs.Forms.{nothing};
ghost use Rattle.wire_text.specs.Line.{is_blank, words_of};

use base_names::Refusal;

/// Whether a byte stands between words: a space or a tab.
fn is_blank(byte: u8) -> bool
    ensures { result ≡ is_blank byte }
{
    byte == b' ' || byte == b'\t'
}

/// How many bytes at the front of a text are blanks, or how many are none.
fn run_len(text: &[u8], blank: bool) -> usize
    ensures within { result ≤ length text.now }
    ensures run { All (λ byte. is_blank byte ≡ blank) (take result text.now) }
    ensures ended { result < length text.now → is_blank (slice_index text.now result) ≡ not blank }
{
    let mut len = 0;
    while len < text.len() && is_blank(text[len]) == blank {
        len += 1;
    }
    len
}

/// The first word of a line and what stands behind it. `None`: the line has no word.
pub(crate) fn first_word(line: &[u8]) -> Option<(&[u8], &[u8])>
    ensures words { MatchOption result (words_of line.now ≡ []) (λ cut. words_of line.now ≡ cut.0.now ∷ words_of cut.1.now) }
    ensures shorter { IfSome result (λ cut. length cut.1.now < length line.now) }
{
    let (_, line) = line.split_at(run_len(line, true));
    if line.is_empty() {
        return None;
    }
    Some(line.split_at(run_len(line, false)))
}

/// The same, and LINE where there is no word.
pub(crate) fn next_word(line: &[u8]) -> Result<(&[u8], &[u8]), Refusal>
    ensures words { MatchResult result (λ cut. words_of line.now ≡ cut.0.now ∷ words_of cut.1.now) (λ refusal. (refusal ≡ LINE) × (words_of line.now ≡ [])) }
    ensures shorter { IfOk result (λ cut. length cut.1.now < length line.now) }
{
    first_word(line).ok_or(Refusal::LINE)
}

/// LINE where the line has a word.
pub(crate) fn no_more(line: &[u8]) -> Result<(), Refusal>
    ensures { MatchResult result (λ _. words_of line.now ≡ []) (λ refusal. (refusal ≡ LINE) × (fit nothing (words_of line.now) ≡ false)) }
{
    match first_word(line) {
        Some(_) => Err(Refusal::LINE),
        None => Ok(()),
    }
}

/// Whether a word is this one.
pub(crate) fn is(word: &[u8], text: &str) -> bool
    ensures { result ≡ bytes_eq word.now text.now }
{
    word == text.as_bytes()
}
