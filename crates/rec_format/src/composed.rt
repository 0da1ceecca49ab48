//! The spelling of options and lists.
ghost use Rattle.std.specs.Prelude.{◌≡◌, ◌++◌, All, OnOk, flat_map};
ghost use Rattle.rec_format.specs.Format.{items_read};
ghost use Rattle.rec_format.specs.Taking.{TookSeen};

use crate::numbers::put_number;
use crate::reader::{NoSpelling, Reader};
use crate::spelled::Spelled;
use base_names::{NoMemory, OrMemory, Seq};

impl<T: Spelled> Spelled for Option<T> {
    ghost use Rattle.rec_format.specs.Format.{optional};

    ghost format = { optional T.format };

    #[tactic(auto, unfolding(crate::specs::Format::number))]
    fn read_from(reader: &mut Reader) -> Result<Option<T>, OrMemory<NoSpelling>> {
        match reader.byte()? {
            0 => Ok(None),
            1 => Ok(Some(T::read_from(reader)?)),
            _ => Err(OrMemory::Fault(NoSpelling)),
        }
    }

    fn write_to(&self, out: &mut Vec<u8>) -> Result<(), NoMemory> {
        match self {
            None => {
                out.push(0)?;
                Ok(())
            }
            Some(value) => {
                out.push(1)?;
                value.write_to(out)
            }
        }
    }
}

impl<T: Spelled> Spelled for Seq<T> {
    ghost use Rattle.rec_format.specs.Format.{list_of};

    ghost format = { list_of 4 T.format };

    fn read_from(reader: &mut Reader) -> Result<Seq<T>, OrMemory<NoSpelling>> {
        let count = reader.number()?;
        let items = read_items(reader, count)?;
        Ok(Seq::of(items))
    }

    #[tactic(auto, unfolding(crate::specs::Format::number))]
    fn write_to(&self, out: &mut Vec<u8>) -> Result<(), NoMemory> {
        put_number(out, self.len() as u32)?;
        write_items(self.as_slice(), out)
    }
}

/// So many values, one after the other. Room is made for one at a time, which is there.
fn read_items<T: Spelled>(reader: &mut Reader, count: u32) -> Result<Vec<T>, OrMemory<NoSpelling>>
    ensures { TookSeen (λ v. v.items) (items_read T.format.read count reader.old.bytes.now) result reader.new.bytes.now }
{
    let mut items = Vec::new(reader.alloc);
    for taken in 0..count {
        match T::read_from(reader) {
            Ok(item) => items.push(item)?,
            Err(fault) => return Err(fault),
        }
    }
    Ok(items)
}

/// Writes the values one after the other.
fn write_items<T: Spelled>(items: &[T], out: &mut Vec<u8>) -> Result<(), NoMemory>
    requires { All T.format.Fits items.now }
    ensures { OnOk result (out.new.items ≡ out.old.items ++ flat_map T.format.write items.now) }
{
    for item in items {
        item.write_to(out)?;
    }
    Ok(())
}
