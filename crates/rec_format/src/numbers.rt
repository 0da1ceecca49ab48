//! The spelling of numbers.
ghost use Rattle.std.specs.Prelude.{◌≡◌, ◌++◌, OnOk};
ghost use Rattle.rec_format.specs.Format.{number};
ghost use Rattle.rec_format.specs.Models.{part};

use crate::reader::{NoSpelling, Reader};
use crate::spelled::Spelled;
use base_names::{NoMemory, OrMemory};
use byteorder::{BigEndian, ByteOrder};

impl Spelled for u8 {
    ghost use Rattle.rec_format.specs.Format.{number};

    ghost format = { number 1 };

    fn read_from(reader: &mut Reader) -> Result<u8, OrMemory<NoSpelling>> {
        reader.byte()
    }

    #[tactic(auto, unfolding(crate::specs::Format::number))]
    fn write_to(&self, out: &mut Vec<u8>) -> Result<(), NoMemory> {
        out.push(*self)?;
        Ok(())
    }
}

impl Spelled for u32 {
    ghost use Rattle.rec_format.specs.Format.{number};

    ghost format = { number 4 };

    fn read_from(reader: &mut Reader) -> Result<u32, OrMemory<NoSpelling>> {
        reader.number()
    }

    fn write_to(&self, out: &mut Vec<u8>) -> Result<(), NoMemory> {
        put_number(out, *self)
    }
}

impl Spelled for u64 {
    ghost use Rattle.rec_format.specs.Format.{number};

    ghost format = { number 8 };

    fn read_from(reader: &mut Reader) -> Result<u64, OrMemory<NoSpelling>> {
        reader.long()
    }

    #[tactic(auto, unfolding(crate::specs::Format::number))]
    fn write_to(&self, out: &mut Vec<u8>) -> Result<(), NoMemory> {
        let mut bytes = [0; 8];
        BigEndian::write_u64(&mut bytes, *self);
        out.extend_from_slice(&bytes)?;
        Ok(())
    }
}

/// Writes a number of 4 bytes.
#[tactic(auto, unfolding(crate::specs::Format::number))]
pub(crate) fn put_number(out: &mut Vec<u8>, n: u32) -> Result<(), NoMemory>
    ensures { OnOk result (out.new.items ≡ out.old.items ++ (number 4).write n) }
{
    let mut bytes = [0; 4];
    BigEndian::write_u32(&mut bytes, n);
    out.extend_from_slice(&bytes)?;
    Ok(())
}

/// Writes a numerator or a denominator.
#[tactic(auto, unfolding(crate::specs::Format::number))]
pub(crate) fn put_part(out: &mut Vec<u8>, n: i128) -> Result<(), NoMemory>
    ensures { OnOk result (out.new.items ≡ out.old.items ++ part.write n) }
{
    let mut bytes = [0; 16];
    BigEndian::write_i128(&mut bytes, n);
    out.extend_from_slice(&bytes)?;
    Ok(())
}
