//! Texts at the end of a buffer that is kept.

ghost use Rattle.std.specs.Prelude.{◌≡◌, ◌++◌, IfSome, OnOk};

use crate::memory::NoMemory;
use std::fmt::Display;
use std::io::Write;

/// Adds what `{}` writes of the value to the end of `out`, with no text in between. `format_args!` makes one value of
/// many: `append(&mut out, format_args!("BATCH {id}\n"))`. Where memory is wanting a part of the text may stand there.
pub fn append<D: Display + Drop>(out: &mut Vec<u8>, value: D) -> Result<(), NoMemory>
    ensures { OnOk result (IfSome (D.output value) (λ text. out.new.items ≡ out.old.items ++ text)) }
{
    match out.write_fmt(value) {
        Ok(()) => Ok(()),
        // A `Vec` fails only for want of memory.
        Err(_) => Err(NoMemory),
    }
}
