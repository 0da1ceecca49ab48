//! Numbers in the one text that each of them has.

ghost use Rattle.std.specs.Prelude.{◌≡◌, bytes_eq};
ghost use Rattle.frac_text.specs.Writing.{canonical_text, denominator_text};
ghost use Rattle.cert_text.specs.Reading.{count_of, fraction_of, whole_of};

use base_names::read_decimal;
use frac128::Frac;
use itoa::Buffer;

/// The text of -2^127, the one number of the type that is no fraction.
const LEAST: &str = "-170141183460469231731687303715884105728";

/// The value that is written so.
#[tactic(auto, unfolding(crate::specs::Reading::fraction_of))]
pub(crate) fn fraction(text: &[u8]) -> Option<Frac>
    ensures { result ≡ fraction_of text.now }
{
    let value = frac_text::read(text).ok()?;
    if is_text_of(text, &value) {
        Some(value)
    } else {
        None
    }
}

/// The whole number that is written so.
#[tactic(auto, unfolding(crate::specs::Reading::whole_of))]
pub(crate) fn whole(text: &[u8]) -> Option<i128>
    ensures { result ≡ whole_of text.now }
{
    match fraction(text) {
        Some(value) if value.den() == 1 => Some(value.num()),
        Some(_) => None,
        None if text == LEAST.as_bytes() => Some(i128::MIN),
        None => None,
    }
}

/// The count that is written so.
pub(crate) fn count(text: &[u8]) -> Option<u64>
    ensures { result ≡ count_of 64 text.now }
{
    read_decimal(text)
}

/// The number of a row or a variable that is written so.
pub(crate) fn place(text: &[u8]) -> Option<u32>
    ensures { result ≡ count_of 32 text.now }
{
    u32::try_from(read_decimal(text)?).ok()
}

/// The status that is written so.
pub(crate) fn status(text: &[u8]) -> Option<u8>
    ensures { result ≡ count_of 8 text.now }
{
    u8::try_from(read_decimal(text)?).ok()
}

/// Whether this is the canonical text of the value.
#[tactic(auto, using(crate::proofs::NumberTexts::compared_in_parts))]
fn is_text_of(text: &[u8], value: &Frac) -> bool
    ensures { result ≡ bytes_eq text.now (canonical_text value.now) }
{
    let mut digits = Buffer::new();
    let num = digits.format(value.num()).as_bytes();
    text.starts_with(num) && is_denominator(&text[num.len()..], value)
}

/// Whether this is what stands behind the numerator.
fn is_denominator(text: &[u8], value: &Frac) -> bool
    ensures { result ≡ bytes_eq text.now (denominator_text value.now.below) }
{
    let den = value.den();
    if den == 1 {
        return text.is_empty();
    }
    let mut digits = Buffer::new();
    match text {
        [b'/', under @ ..] => under == digits.format(den).as_bytes(),
        _ => false,
    }
}
