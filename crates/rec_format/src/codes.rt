//! The spelling of what has a byte for each of its values.
use crate::reader::{NoSpelling, Reader};
use crate::spelled::Spelled;
use base_names::{NoMemory, OrMemory};
use frac128::Op;
use model_data::{Direction, Sense, VarKind};

impl Spelled for Direction {
    ghost use Rattle.rec_format.specs.Models.{direction};

    ghost format = { direction };

    fn read_from(reader: &mut Reader) -> Result<Direction, OrMemory<NoSpelling>> {
        match reader.byte()? {
            0 => Ok(Direction::Minimize),
            1 => Ok(Direction::Maximize),
            _ => Err(OrMemory::Fault(NoSpelling)),
        }
    }

    fn write_to(&self, out: &mut Vec<u8>) -> Result<(), NoMemory> {
        let code: u8 = match self {
            Direction::Minimize => 0,
            Direction::Maximize => 1,
        };
        code.write_to(out)
    }
}

impl Spelled for Sense {
    ghost use Rattle.rec_format.specs.Models.{sense};

    ghost format = { sense };

    fn read_from(reader: &mut Reader) -> Result<Sense, OrMemory<NoSpelling>> {
        match reader.byte()? {
            0 => Ok(Sense::Less),
            1 => Ok(Sense::Greater),
            2 => Ok(Sense::Equal),
            _ => Err(OrMemory::Fault(NoSpelling)),
        }
    }

    fn write_to(&self, out: &mut Vec<u8>) -> Result<(), NoMemory> {
        let code: u8 = match self {
            Sense::Less => 0,
            Sense::Greater => 1,
            Sense::Equal => 2,
        };
        code.write_to(out)
    }
}

impl Spelled for VarKind {
    ghost use Rattle.rec_format.specs.Models.{kind};

    ghost format = { kind };

    fn read_from(reader: &mut Reader) -> Result<VarKind, OrMemory<NoSpelling>> {
        match reader.byte()? {
            0 => Ok(VarKind::Continuous),
            1 => Ok(VarKind::Integer),
            2 => Ok(VarKind::Binary),
            _ => Err(OrMemory::Fault(NoSpelling)),
        }
    }

    fn write_to(&self, out: &mut Vec<u8>) -> Result<(), NoMemory> {
        let code: u8 = match self {
            VarKind::Continuous => 0,
            VarKind::Integer => 1,
            VarKind::Binary => 2,
        };
        code.write_to(out)
    }
}

impl Spelled for Op {
    ghost use Rattle.rec_format.specs.Results.{op};

    ghost format = { op };

    fn read_from(reader: &mut Reader) -> Result<Op, OrMemory<NoSpelling>> {
        match reader.byte()? {
            0 => Ok(Op::Add),
            1 => Ok(Op::Sub),
            2 => Ok(Op::Mul),
            3 => Ok(Op::Div),
            _ => Err(OrMemory::Fault(NoSpelling)),
        }
    }

    fn write_to(&self, out: &mut Vec<u8>) -> Result<(), NoMemory> {
        let code: u8 = match self {
            Op::Add => 0,
            Op::Sub => 1,
            Op::Mul => 2,
            Op::Div => 3,
        };
        code.write_to(out)
    }
}
