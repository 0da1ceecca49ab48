//! The spelling of what a batch found.
use crate::reader::{NoSpelling, Reader};
use crate::spelled::Spelled;
use base_names::{NoMemory, OrMemory, Seq, Text};
use frac128::{Frac, Op, Wide};
use model_data::{BatchResult, Outcome, Point, WideAt};

impl Spelled for Point {
    ghost use Rattle.rec_format.specs.Results.{point};

    ghost format = { point };

    fn read_from(reader: &mut Reader) -> Result<Point, OrMemory<NoSpelling>> {
        let xs = <Seq<Frac>>::read_from(reader)?;
        let value = Frac::read_from(reader)?;
        Ok(Point { xs, value })
    }

    fn write_to(&self, out: &mut Vec<u8>) -> Result<(), NoMemory> {
        self.xs.write_to(out)?;
        self.value.write_to(out)
    }
}

impl Spelled for WideAt {
    ghost use Rattle.rec_format.specs.Results.{wide};

    ghost format = { wide };

    fn read_from(reader: &mut Reader) -> Result<WideAt, OrMemory<NoSpelling>> {
        let at = u64::read_from(reader)?;
        let op = Op::read_from(reader)?;
        let left = Frac::read_from(reader)?;
        let right = Frac::read_from(reader)?;
        Ok(WideAt {
            at,
            wide: Wide { op, left, right },
        })
    }

    fn write_to(&self, out: &mut Vec<u8>) -> Result<(), NoMemory> {
        self.at.write_to(out)?;
        self.wide.op.write_to(out)?;
        self.wide.left.write_to(out)?;
        self.wide.right.write_to(out)
    }
}

impl Spelled for BatchResult {
    ghost use Rattle.rec_format.specs.Results.{found};

    ghost format = { found };

    fn read_from(reader: &mut Reader) -> Result<BatchResult, OrMemory<NoSpelling>> {
        let status = u8::read_from(reader)?;
        let pivots = u64::read_from(reader)?;
        let nodes = u64::read_from(reader)?;
        let work = u64::read_from(reader)?;
        let point = <Option<Point>>::read_from(reader)?;
        let wide = <Option<WideAt>>::read_from(reader)?;
        let cert = <Option<Text>>::read_from(reader)?;
        Ok(BatchResult {
            outcome: Outcome {
                status,
                pivots,
                nodes,
                work,
                point,
                wide,
            },
            cert,
        })
    }

    fn write_to(&self, out: &mut Vec<u8>) -> Result<(), NoMemory> {
        self.outcome.status.write_to(out)?;
        self.outcome.pivots.write_to(out)?;
        self.outcome.nodes.write_to(out)?;
        self.outcome.work.write_to(out)?;
        self.outcome.point.write_to(out)?;
        self.outcome.wide.write_to(out)?;
        self.cert.write_to(out)
    }
}
