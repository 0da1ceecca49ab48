//! One body is taken into a table.

ghost use Rattle.hub_core.specs.Folding.{IsTaking};

use batch_table::BatchTable;
use rec_format::decode;
use rec_format::laws::lawful_records_are_told_apart;
use std::alloc::Global;

/// Whether a body was taken.
#[derive(Clone, Copy, Debug, PartialEq, Eq)]
pub(crate) enum Taken {
    Yes,
    /// It spells no record, or the table refuses it.
    No,
    NoMemory,
}

/// Takes the record that a body spells.
pub(crate) fn take(alloc: Global, table: &mut BatchTable, body: &[u8]) -> Taken
    ensures { IsTaking result body.now table.old.table table.new.table }
{
    lawful_records_are_told_apart();
    let record = match decode(alloc, body) {
        Ok(Some(record)) => record,
        Ok(None) => return Taken::No,
        Err(_) => return Taken::NoMemory,
    };
    if table.test(&record).is_err() {
        return Taken::No;
    }
    if table.reserve().is_err() {
        return Taken::NoMemory;
    }
    table.apply(record);
    Taken::Yes
}
