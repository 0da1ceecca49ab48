//! Numbers in decimal digits.

ghost use Rattle.std.specs.Prelude.{◌≡◌, ℕ, ◌<◌, ◌^◌, IfOk, IfSome, decimal};
ghost use Rattle.std.specs.Char.{is_ascii_digit};
ghost use Rattle.std.specs.List.{list_all};
ghost use Rattle.base_names.specs.Decimal.{are_digits, below, decimal_of, is_decimal, number_of};

use crate::memory::NoMemory;
use crate::text::Text;
use crate::writing::append;
use std::alloc::Global;
use std::str;

/// Whether the text is one decimal digit or more, and nothing else.
pub fn are_digits(text: &[u8]) -> bool
    ensures { result ≡ are_digits text.now }
{
    !text.is_empty() && has_only_digits(text)
}

/// The number that digits spell; zeros may lead. `None` where the text is no digits, or the number
/// passes the type.
pub fn read_digits(text: &[u8]) -> Option<u64>
    ensures { result ≡ below (2 ^ 64) (number_of text.now) }
{
    if !are_digits(text) {
        return None;
    }
    match str::from_utf8(text) {
        Ok(digits) => digits.parse().ok(),
        Err(_) => None,
    }
}

/// The number that digits without a leading zero spell, as [`write_decimal`] writes it. `None` for any
/// other text, and where the number passes the type.
pub fn read_decimal(text: &[u8]) -> Option<u64>
    ensures exact { result ≡ below (2 ^ 64) (decimal_of text.now) }
    ensures spelled { IfSome result (λ number. decimal number ≡ text.now) }
    ensures only { (number : ℕ) → number < 2 ^ 64 → decimal number ≡ text.now → result ≡ Some number }
{
    if !is_decimal(text) {
        return None;
    }
    read_digits(text)
}

/// The number in digits, without a leading zero.
pub fn write_decimal(alloc: Global, number: u64) -> Result<Text, NoMemory>
    ensures { IfOk result (λ text. text ≡ decimal number) }
{
    let mut text = Vec::new(alloc);
    append(&mut text, number)?;
    Ok(Text::of(text))
}

fn is_decimal(text: &[u8]) -> bool
    ensures { result ≡ is_decimal text.now }
{
    are_digits(text) && (text.len() == 1 || text[0] != b'0')
}

fn has_only_digits(text: &[u8]) -> bool
    ensures { result ≡ list_all is_ascii_digit text.now }
{
    text.iter().all(|byte| byte.is_ascii_digit())
}
