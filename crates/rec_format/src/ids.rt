//! The spelling of texts, owners, batches and attempts.
ghost use Rattle.std.specs.Prelude.{◌≡◌, ◌++◌, ◌<◌, ◌^◌, OnOk, length};
ghost use Rattle.rec_format.specs.Format.{text};

use crate::numbers::put_number;
use crate::reader::{NoSpelling, Reader};
use crate::spelled::Spelled;
use base_names::{BatchId, NoMemory, OrMemory, Owner, Text};
use model_data::AttemptOf;

/// Writes a text with a length of one byte.
pub(crate) fn put_text(out: &mut Vec<u8>, bytes: &[u8]) -> Result<(), NoMemory>
    requires { length bytes.now < 2 ^ 8 }
    ensures { OnOk result (out.new.items ≡ out.old.items ++ (text 1).write bytes.now) }
{
    out.push(bytes.len() as u8)?;
    out.extend_from_slice(bytes)?;
    Ok(())
}

impl Spelled for Text {
    ghost use Rattle.rec_format.specs.Format.{text};

    ghost format = { text 4 };

    fn read_from(reader: &mut Reader) -> Result<Text, OrMemory<NoSpelling>> {
        let bytes = reader.long_text()?;
        Ok(Text::of(bytes.to_vec(reader.alloc)?))
    }

    #[tactic(auto, unfolding(crate::specs::Format::number))]
    fn write_to(&self, out: &mut Vec<u8>) -> Result<(), NoMemory> {
        put_number(out, self.len() as u32)?;
        out.extend_from_slice(self.as_bytes())?;
        Ok(())
    }
}

impl Spelled for Owner {
    ghost use Rattle.rec_format.specs.Ids.{owner};

    ghost format = { owner };

    fn read_from(reader: &mut Reader) -> Result<Owner, OrMemory<NoSpelling>> {
        match Owner::read(reader.text()?) {
            Some(owner) => Ok(owner),
            None => Err(OrMemory::Fault(NoSpelling)),
        }
    }

    fn write_to(&self, out: &mut Vec<u8>) -> Result<(), NoMemory> {
        put_text(out, self.as_bytes())
    }
}

impl Spelled for BatchId {
    ghost use Rattle.rec_format.specs.Ids.{batch};

    ghost format = { batch };

    fn read_from(reader: &mut Reader) -> Result<BatchId, OrMemory<NoSpelling>> {
        let owner = Owner::read_from(reader)?;
        let number = u32::read_from(reader)?;
        Ok(BatchId { owner, number })
    }

    fn write_to(&self, out: &mut Vec<u8>) -> Result<(), NoMemory> {
        self.owner.write_to(out)?;
        self.number.write_to(out)
    }
}

impl Spelled for AttemptOf {
    ghost use Rattle.rec_format.specs.Ids.{attempt};

    ghost format = { attempt };

    fn read_from(reader: &mut Reader) -> Result<AttemptOf, OrMemory<NoSpelling>> {
        let id = BatchId::read_from(reader)?;
        let attempt = u32::read_from(reader)?;
        Ok(AttemptOf { id, attempt })
    }

    fn write_to(&self, out: &mut Vec<u8>) -> Result<(), NoMemory> {
        self.id.write_to(out)?;
        self.attempt.write_to(out)
    }
}
