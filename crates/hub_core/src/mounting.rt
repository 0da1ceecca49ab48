//! A hub is opened.

ghost use Rattle.std.specs.Prelude.{◌≡◌, ◌≤◌, ◌^◌, ◌+◌, length, IfOk, IfErr};
ghost use Rattle.hub_core.specs.Folding.{IsFold, IsFoldFault, IsOfBodies};
ghost use Rattle.hub_core.specs.Mounting.{IsBodiesFault, Mounted, NotMounted};
ghost use Rattle.cluster_defs.specs.Refusals.{reserve};
ghost use Rattle.journal.specs.Records.{front};

use crate::fault::{HubFault, of_mount};
use crate::hub::Hub;
use crate::setup::Setup;
use crate::taking::{Taken, take};
use base_names::{History, Text};
use batch_table::BatchTable;
use disk_model::Disk;
use journal::Journal;
use rec_format::laws::{lawful_records_are_told_apart, records_are_spelled_once};
use std::alloc::Global;
use std::snapshot::Snapshot;

/// What is kept free in the journal for the outcome of one attempt.
pub(crate) const RESERVED: u64 = 1_200_000;

/// The disk, and why there is no hub.
#[derive(Drop)]
pub struct NoHub<D: Disk> {
    pub disk: D,
    pub fault: HubFault,
}

impl<D: Disk> NoHub<D> {
    /// The disk back.
    pub fn into_disk(self) -> D
        ensures { result ≡ self.disk }
    {
        self.disk
    }
}

/// The table of the records that these bodies spell.
fn fold(alloc: Global, bodies: &Vec<Text>) -> Result<BatchTable, HubFault>
    ensures ok { IfOk result (λ table. IsFold bodies.now.items table.table) }
    ensures bad { IfErr result (λ fault. IsFoldFault fault bodies.now.items) }
{
    records_are_spelled_once();
    lawful_records_are_told_apart();
    let mut table = BatchTable::empty(alloc);
    for (place, body) in bodies.iter().enumerate() {
        match take(alloc, &mut table, body.as_bytes()) {
            Taken::Yes => {}
            Taken::No => return Err(HubFault::BadRecord(place as u64 + 1)),
            Taken::NoMemory => return Err(HubFault::NoMemory),
        }
    }
    Ok(table)
}

/// The table of these bodies, whose end and reserve fit a limit.
fn table_of(alloc: Global, bodies: &Vec<Text>, end: u64, limit: u64) -> Result<BatchTable, HubFault>
    requires end { end ≡ length (front bodies.now.items) }
    requires limit { limit ≤ 10 ^ 12 }
    ensures ok { IfOk result (λ table. IsFold bodies.now.items table.table × (end + reserve table.table ≤ limit)) }
    ensures bad { IfErr result (λ fault. IsOfBodies fault × IsBodiesFault limit fault bodies.now.items) }
{
    let table = fold(alloc, bodies)?;
    let sum = u128::from(end) + u128::from(RESERVED) * u128::from(table.going_on());
    if sum > u128::from(limit) {
        return Err(HubFault::TooFull(u64::try_from(sum).unwrap_or(u64::MAX)));
    }
    Ok(table)
}

impl<D: Disk> Hub<D> {
    /// Opens what a crash may have left of a file, or begins it.
    pub fn mount(alloc: Global, disk: D, setup: Setup) -> Result<Hub<D>, NoHub<D>>
        requires least { setup.limits.journal ≤ 10 ^ 12 }
        ensures ok { IfOk result (Mounted D.name D.seen D.moment D.left D.calls D.makes D.faults disk setup) }
        ensures err { IfErr result (NotMounted D.name D.seen D.moment D.left D.calls D.makes D.faults disk setup) }
    {
        match Journal::mount(alloc, disk, setup.limits.journal) {
            Err(unmounted) => {
                let fault = of_mount(unmounted.fault);
                Err(NoHub {
                    disk: unmounted.into_disk(),
                    fault,
                })
            }
            Ok((journal, bodies)) => match table_of(
                alloc,
                &bodies,
                journal.end(),
                setup.limits.journal,
            ) {
                Err(fault) => Err(NoHub {
                    disk: journal.into_disk(),
                    fault,
                }),
                Ok(table) => {
                    let begun = journal.faults();
                    Ok(Hub {
                        journal,
                        table,
                        usage: Vec::new(alloc),
                        setup,
                        start: Snapshot::of(&bodies),
                        begun,
                        history: History::new(),
                    })
                }
            },
        }
    }
}
