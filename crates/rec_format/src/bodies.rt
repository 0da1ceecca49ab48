//! The spelling of what a batch solves.
use crate::reader::{NoSpelling, Reader};
use crate::spelled::Spelled;
use base_names::{NoMemory, OrMemory};
use model_data::{BatchBody, Model, Params};

impl Spelled for BatchBody {
    ghost use Rattle.rec_format.specs.Bodies.{body};

    ghost format = { body };

    fn read_from(reader: &mut Reader) -> Result<BatchBody, OrMemory<NoSpelling>> {
        let params = Params::read_from(reader)?;
        let model = Model::read_from(reader)?;
        Ok(BatchBody { model, params })
    }

    fn write_to(&self, out: &mut Vec<u8>) -> Result<(), NoMemory> {
        self.params.write_to(out)?;
        self.model.write_to(out)
    }
}
