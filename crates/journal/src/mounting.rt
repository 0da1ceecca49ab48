//! A journal over a disk of its own.

ghost use Rattle.std.specs.Prelude.{◌≡◌, ◌≤◌, ◌<◌, ◌+◌, List, ℕ, None, Some, IfSome, IfOk, IfErr, OnOk};
ghost use Rattle.base_names.specs.Outside.{Rose};
ghost use Rattle.disk_model.specs.Moments.{LeavesOnly};
ghost use Rattle.journal.specs.Mounting.{HasHeader, IsNoJournal, RanForFile, WhileMounting};
ghost use Rattle.journal.specs.Plans.{mount_plan};
ghost use Rattle.journal.specs.Records.{records};
ghost use Rattle.journal.specs.Standing.{Stands, bodies_of, doubt_of};

use crate::fault::MountFault;
use crate::journal::Journal;
use crate::opening::open_file;
use base_names::{History, Text};
use disk_model::Disk;
use std::alloc::Global;
use std::snapshot::Snapshot;

/// The disk, and why there is no journal.
#[derive(Drop)]
pub struct Unmounted<D: Disk> {
    pub disk: D,
    pub fault: MountFault,
}

impl<D: Disk> Unmounted<D> {
    /// The disk back.
    pub fn into_disk(self) -> D
        ensures { result ≡ self.disk }
    {
        self.disk
    }
}

impl<D: Disk> Journal<D> {
    /// Opens what a crash may have left of a file, or begins it where it has at most 8 bytes, and tells its bodies. It reads the
    /// file once, and may be cut short too. `limit` is the greatest place that its end may come to.
    pub fn mount(
        alloc: Global,
        disk: D,
        limit: u64,
    ) -> Result<(Journal<D>, Vec<Text>), Unmounted<D>>
        ensures stands { IfOk result (λ p. Stands D.moment D.left p.0 × (bodies_of p.0 ≡ p.1.items) × (doubt_of p.0 ≡ None) × (p.0.limit ≡ limit)) }
        ensures file { IfOk result (λ p. IfSome (D.seen disk) (λ file. HasHeader file × (p.1.items ≡ records file))) }
        ensures not_a_journal { IfErr result (λ refused. IfSome (D.seen disk) (IsNoJournal refused.fault)) }
        ensures any_moment { IfOk result (λ p. LeavesOnly D.moment D.left disk p.0.disk (WhileMounting (D.left disk (D.moment disk)))) }
        ensures any_moment_err { IfErr result (λ refused. LeavesOnly D.moment D.left disk refused.disk (WhileMounting (D.left disk (D.moment disk)))) }
        ensures calls { IfOk result (λ p. RanForFile D.seen D.calls D.makes mount_plan None disk p.0.disk) }
        ensures calls_err { IfErr result (λ refused. RanForFile D.seen D.calls D.makes mount_plan (Some refused.fault) disk refused.disk) }
        ensures later { IfErr result (λ refused. D.faults disk ≤ D.faults refused.disk) }
        ensures failed { IfErr result (λ refused. refused.fault ≡ MountFault.DiskFailed → Rose (D.faults disk) (D.faults refused.disk)) }
        ensures steady { IfOk result (λ p. D.faults p.0.disk ≡ D.faults disk) }
        ensures steady_err { IfErr result (λ refused. (refused.fault ≡ MountFault.DiskFailed → ⊥) → D.faults refused.disk ≡ D.faults disk) }
        ensures same { IfOk result (λ p. D.name p.0.disk ≡ D.name disk) }
        ensures same_err { IfErr result (λ refused. D.name refused.disk ≡ D.name disk) }
    {
        let mut disk = disk;
        match open_file(alloc, &mut disk) {
            Err(fault) => Err(Unmounted { disk, fault }),
            Ok((bodies, end)) => {
                let journal = Journal {
                    disk,
                    end,
                    limit,
                    room: Vec::new(alloc),
                    reserved: 0,
                    doubt: None,
                    found: Snapshot::of(&bodies),
                    added: History::new(),
                };
                Ok((journal, bodies))
            }
        }
    }

    /// The disk back.
    pub fn into_disk(self) -> D
        ensures { result ≡ self.disk }
    {
        self.disk
    }
}
