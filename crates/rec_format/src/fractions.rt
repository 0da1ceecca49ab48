//! The spelling of fractions.
ghost use Rattle.std.specs.Prelude.{◌≡◌, ◌<◌, ◌↔◌, IsTrue, pos, unsigned_abs};
ghost use Rattle.frac128.specs.Fraction.{den as den_of};
ghost use Rattle.frac128.specs.Lowest.{IsInLowestTerms};
ghost use Rattle.frac128.specs.Numbers.{limit};
ghost use Rattle.rec_format.specs.Models.{fraction_of};

use crate::numbers::put_part;
use crate::reader::{NoSpelling, Reader};
use crate::spelled::Spelled;
use base_names::{NoMemory, OrMemory};
use frac128::Frac;

impl Spelled for Frac {
    ghost use Rattle.rec_format.specs.Models.{fraction};

    ghost format = { fraction };

    fn read_from(reader: &mut Reader) -> Result<Frac, OrMemory<NoSpelling>> {
        let num = reader.part()?;
        let den = reader.part()?;
        match of_parts(num, den) {
            Some(value) => Ok(value),
            None => Err(OrMemory::Fault(NoSpelling)),
        }
    }

    fn write_to(&self, out: &mut Vec<u8>) -> Result<(), NoMemory> {
        put_part(out, self.num())?;
        put_part(out, self.den())
    }
}

/// Whether these are the parts of the fraction.
fn has_parts(value: &Frac, num: i128, den: i128) -> bool
    ensures same { IsTrue result ↔ ((value.now.num ≡ num) × (pos (den_of value.now) ≡ den)) }
    ensures lowest { IsInLowestTerms value.now }
{
    value.num() == num && value.den() == den
}

/// The fraction of these parts, where they are in lowest terms with the denominator above 0.
#[tactic(auto, using(crate::proofs::FractionSpelled::of_none, crate::proofs::FractionSpelled::of_same, crate::proofs::FractionSpelled::of_other))]
fn of_parts(num: i128, den: i128) -> Option<Frac>
    requires num_fits { unsigned_abs num < limit }
    requires den_fits { unsigned_abs den < limit }
    ensures { result ≡ fraction_of (num, den) }
{
    let Some(value) = Frac::make(num, den) else {
        return None;
    };
    if has_parts(&value, num, den) {
        Some(value)
    } else {
        None
    }
}
