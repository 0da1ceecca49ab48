//! The parts of an input.

ghost use Rattle.std.specs.Prelude.{◌≡◌, ◌≢◌, ◌<◌, ◌==◌, ◌++◌, ◌^◌, List, ℕ, MatchOption, codes, length, position};
ghost use Rattle.verify_command.specs.Input.{HasNoParts, HasParts, IsCounted};

use base_names::read_digits;

/// The block of an input and the text behind it. `None`: it doesn't begin with a line that tells a length, or it ends before the
/// block does.
pub fn parts_of(input: &[u8]) -> Option<(&[u8], &[u8])>
    requires { length input.now < 2 ^ 64 }
    ensures { MatchOption result (HasNoParts input.now) (λ parts. HasParts input.now parts.0.now parts.1.now) }
{
    match behind_word(input) {
        Some(bytes) => counted_parts(bytes),
        None => None,
    }
}

fn behind_word(input: &[u8]) -> Option<&[u8]>
    ensures { MatchOption result ((bytes : List ℕ) → input.now ≢ codes "MODEL " ++ bytes) (λ bytes. input.now ≡ codes "MODEL " ++ bytes.now) }
{
    input.strip_prefix(b"MODEL ".as_slice())
}

/// The same of what stands behind the word of its first line.
fn counted_parts(bytes: &[u8]) -> Option<(&[u8], &[u8])>
    requires { length bytes.now < 2 ^ 64 }
    ensures { MatchOption result ((block text : List ℕ) → IsCounted bytes.now block text → ⊥) (λ parts. IsCounted bytes.now parts.0.now parts.1.now) }
{
    match line_feed(bytes) {
        Some(end) => match read_digits(&bytes[..end]) {
            Some(len) => front_of(&bytes[end + 1..], len),
            None => None,
        },
        None => None,
    }
}

fn line_feed(bytes: &[u8]) -> Option<usize>
    ensures { result ≡ position (λ byte. byte == 10) bytes.now }
{
    bytes.iter().position(|byte| *byte == b'\n')
}

/// So many first bytes, and those behind them.
fn front_of(bytes: &[u8], len: u64) -> Option<(&[u8], &[u8])>
    ensures { MatchOption result (length bytes.now < len) (λ parts. (bytes.now ≡ parts.0.now ++ parts.1.now) × (length parts.0.now ≡ len)) }
{
    match usize::try_from(len) {
        Ok(len) if len <= bytes.len() => Some(bytes.split_at(len)),
        _ => None,
    }
}
