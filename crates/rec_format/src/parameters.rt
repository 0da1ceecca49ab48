//! The spelling of parameters.
ghost use Rattle.std.specs.Prelude.{◌≡◌, ◌++◌, OnOk};
ghost use Rattle.rec_format.specs.Parameters.{limited, priority};
ghost use Rattle.rec_format.specs.Taking.{Takes};

use crate::reader::{NoSpelling, Reader};
use crate::spelled::Spelled;
use base_names::{NoMemory, OrMemory};
use model_data::{MAX_DETAIL, MAX_ITERATIONS, MAX_NODES, MAX_PRIORITY, MAX_WORK, Params};

/// A number of 8 bytes that is at most so great.
fn limited(reader: &mut Reader, most: u64) -> Result<u64, OrMemory<NoSpelling>>
    ensures { Takes (limited 8 most) reader.old.bytes.now result reader.new.bytes.now }
{
    let n = reader.long()?;
    if n > most {
        return Err(OrMemory::Fault(NoSpelling));
    }
    Ok(n)
}

fn priority(reader: &mut Reader) -> Result<i8, OrMemory<NoSpelling>>
    ensures { Takes priority reader.old.bytes.now result reader.new.bytes.now }
{
    let n = reader.byte()?.cast_signed();
    if n.unsigned_abs() > MAX_PRIORITY.unsigned_abs() {
        return Err(OrMemory::Fault(NoSpelling));
    }
    Ok(n)
}

fn detail(reader: &mut Reader) -> Result<u8, OrMemory<NoSpelling>>
    ensures { Takes (limited 1 MAX_DETAIL) reader.old.bytes.now result reader.new.bytes.now }
{
    let n = reader.byte()?;
    if n > MAX_DETAIL {
        return Err(OrMemory::Fault(NoSpelling));
    }
    Ok(n)
}

impl Spelled for Params {
    ghost use Rattle.rec_format.specs.Parameters.{params};

    ghost format = { params };

    fn read_from(reader: &mut Reader) -> Result<Params, OrMemory<NoSpelling>> {
        let iterations = limited(reader, MAX_ITERATIONS)?;
        let nodes = limited(reader, MAX_NODES)?;
        let work = limited(reader, MAX_WORK)?;
        let priority = priority(reader)?;
        let detail = detail(reader)?;
        Ok(Params {
            iterations,
            nodes,
            work,
            priority,
            detail,
        })
    }

    fn write_to(&self, out: &mut Vec<u8>) -> Result<(), NoMemory> {
        self.iterations.write_to(out)?;
        self.nodes.write_to(out)?;
        self.work.write_to(out)?;
        self.priority.cast_unsigned().write_to(out)?;
        self.detail.write_to(out)
    }
}
