//! Types whose values are spelled in bytes.
ghost use Rattle.std.specs.Prelude.{◌≡◌, ◌++◌, OnOk};

use crate::reader::{NoSpelling, Reader};
use base_names::{NoMemory, OrMemory};

/// A type with a format.
pub(crate) trait Spelled: Drop {
    ghost use Rattle.rec_format.specs.Format.{Format};
    ghost use Rattle.rec_format.specs.Taking.{Takes};

    // How a value is spelled.
    ghost format: { Format Self };

    /// The value at the front of the bytes.
    fn read_from(reader: &mut Reader) -> Result<Self, OrMemory<NoSpelling>>
        ensures { Takes format reader.old.bytes.now result reader.new.bytes.now };

    /// Writes the value behind what is there.
    fn write_to(&self, out: &mut Vec<u8>) -> Result<(), NoMemory>
        requires { format.Fits self.now }
        ensures { OnOk result (out.new.items ≡ out.old.items ++ format.write self.now) };
}
