//! Runs compared with fixed texts.
ghost use Rattle.std.specs.Prelude.{◌≡◌};
ghost use Rattle.std.specs.List.{list_any};
ghost use Rattle.std.specs.Str.{bytes_eq, str_eq_ignore_ascii_case};
ghost use Rattle.model_data.specs.Names.{is_one_of};
ghost use Rattle.lp_defs.specs.Kinds.{begins_with};

/// Whether the run is the text.
pub(crate) fn is_text(run: &[u8], text: &str) -> bool
    ensures { result ≡ bytes_eq text.now run.now }
{
    text.as_bytes() == run
}

/// Whether the run is one of the words, without regard to case.
pub(crate) fn is_any_word(run: &[u8], words: &[&str]) -> bool
    ensures { result ≡ list_any (λ word. str_eq_ignore_ascii_case word.now run.now) words.now }
{
    words.iter().any(|word| is_word(run, word))
}

/// Whether the run is the word, without regard to case.
pub(crate) fn is_word(run: &[u8], word: &str) -> bool
    ensures { result ≡ str_eq_ignore_ascii_case word.now run.now }
{
    word.as_bytes().eq_ignore_ascii_case(run)
}

/// Whether the run begins with one of the bytes.
pub(crate) fn begins_with(run: &[u8], bytes: &str) -> bool
    ensures { result ≡ begins_with bytes.now run.now }
{
    match run {
        [byte, ..] => is_one_of(bytes.as_bytes(), *byte),
        [] => false,
    }
}

/// Whether the byte is one of the bytes.
pub(crate) fn is_one_of(bytes: &[u8], byte: u8) -> bool
    ensures { result ≡ is_one_of bytes.now byte }
{
    bytes.iter().any(|b| *b == byte)
}
