//! The canonical text of a value.
ghost use Rattle.std.specs.Prelude.{◌≡◌, ◌≤◌, ◌++◌, IfOk, OnErr, OnOk, Ok, length};
ghost use Rattle.frac_text.specs.Reading.{reading};
ghost use Rattle.frac_text.specs.Writing.{canonical_text, denominator_text, size_text};

use base_names::{NoMemory, Text};
use frac128::Frac;
use itoa::Buffer;
use std::alloc::Global;

/// `p` where the denominator is 1, else `p/q`. Equal values have equal texts, and no others have.
pub fn write(alloc: Global, value: &Frac) -> Result<Text, NoMemory>
    ensures text { IfOk result (λ text. text ≡ canonical_text value.now) }
    ensures read_again { IfOk result (λ text. reading text ≡ Ok value.now) }
{
    let mut out = Vec::new(alloc);
    write_onto(&mut out, value)?;
    Ok(Text::of(out))
}

/// Adds the text that [`write`] gives to the end of `out`, without a text in between. Want of memory leaves `out` as it was.
pub fn write_onto(out: &mut Vec<u8>, value: &Frac) -> Result<(), NoMemory>
    ensures text { OnOk result (out.new.items ≡ out.old.items ++ canonical_text value.now) }
    ensures unchanged { OnErr result (out.new.items ≡ out.old.items) }
    ensures read_again { reading (canonical_text value.now) ≡ Ok value.now }
{
    let mut digits = Buffer::new();
    let size = digits.format(value.num()).as_bytes();
    write_over(out, size, value)
}

/// Adds the text of the value's size, which has no sign. Want of memory leaves `out` as it was.
pub fn write_size_onto(out: &mut Vec<u8>, value: &Frac) -> Result<(), NoMemory>
    ensures text { OnOk result (out.new.items ≡ out.old.items ++ size_text value.now) }
    ensures unchanged { OnErr result (out.new.items ≡ out.old.items) }
{
    let mut digits = Buffer::new();
    let size = digits.format(value.num().unsigned_abs()).as_bytes();
    write_over(out, size, value)
}

/// Adds what stands over the denominator, and the denominator where it isn't 1. Room for both is made first.
fn write_over(out: &mut Vec<u8>, over: &[u8], value: &Frac) -> Result<(), NoMemory>
    requires { length over.now ≤ 40 }
    ensures text { OnOk result (out.new.items ≡ out.old.items ++ (over.now ++ denominator_text value.now.below)) }
    ensures unchanged { OnErr result (out.new.items ≡ out.old.items) }
{
    let den = value.den();
    if den == 1 {
        out.extend_from_slice(over)?;
        return Ok(());
    }
    let mut digits = Buffer::new();
    let under = digits.format(den).as_bytes();
    out.reserve(over.len() + 1 + under.len())?;
    out.extend_from_slice(over)?;
    out.push(b'/')?;
    out.extend_from_slice(under)?;
    Ok(())
}
