//! What stands within a line.
ghost use Rattle.std.specs.Prelude.{◌≡◌, ◌++◌, ◌∷◌, [], OnOk};
ghost use Rattle.frac_text.specs.Writing.{canonical_text as number_text};
ghost use Rattle.lp_defs.specs.Canonical.{line, line_feed, sign_text, signed_text, spaced_word, term_text};

use base_names::NoMemory;
use frac_text::{write_onto, write_size_onto};
use frac128::Frac;

/// Adds the text and the end of its line.
pub(crate) fn write_line(out: &mut Vec<u8>, text: &[u8]) -> Result<(), NoMemory>
    ensures { OnOk result (out.new.items ≡ out.old.items ++ line text.now) }
{
    out.extend_from_slice(text)?;
    end_line(out)
}

/// Adds the end of a line.
pub(crate) fn end_line(out: &mut Vec<u8>) -> Result<(), NoMemory>
    ensures { OnOk result (out.new.items ≡ out.old.items ++ line_feed ∷ []) }
{
    out.push(b'\n')?;
    Ok(())
}

/// Adds the text, with a space before it.
pub(crate) fn write_word(out: &mut Vec<u8>, word: &[u8]) -> Result<(), NoMemory>
    ensures { OnOk result (out.new.items ≡ out.old.items ++ spaced_word word.now) }
{
    out.push(b' ')?;
    out.extend_from_slice(word)?;
    Ok(())
}

/// Adds a number, with a space before it.
pub(crate) fn write_number(out: &mut Vec<u8>, value: &Frac) -> Result<(), NoMemory>
    ensures { OnOk result (out.new.items ≡ out.old.items ++ spaced_word (number_text value.now)) }
{
    out.push(b' ')?;
    write_onto(out, value)
}

/// Adds the sign and the size of a number, with a space before each.
pub(crate) fn write_signed(out: &mut Vec<u8>, value: &Frac) -> Result<(), NoMemory>
    ensures { OnOk result (out.new.items ≡ out.old.items ++ spaced_word (signed_text value.now)) }
{
    write_word(out, sign(value))?;
    out.push(b' ')?;
    write_size_onto(out, value)
}

/// Adds a coefficient and its variable, with a space before each of the three words.
pub(crate) fn write_term(out: &mut Vec<u8>, coef: &Frac, name: &[u8]) -> Result<(), NoMemory>
    ensures { OnOk result (out.new.items ≡ out.old.items ++ spaced_word (term_text coef.now name.now)) }
{
    write_signed(out, coef)?;
    write_word(out, name)
}

fn sign(value: &Frac) -> &'static [u8]
    ensures { result.now ≡ sign_text value.now }
{
    if value.num() < 0 { b"-" } else { b"+" }
}
