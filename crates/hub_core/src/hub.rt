//! A hub over a disk.

ghost use Rattle.std.specs.Prelude.{◌≡◌, length, OnOk, OnErr};
ghost use Rattle.disk_model.specs.Arms.{IsUnmoved};
ghost use Rattle.disk_model.specs.Memory.{IsLawfulArm};
ghost use Rattle.hub_core.specs.Standing.{IsStanding};
ghost use Rattle.hub_core.specs.State.{state_of};

use crate::counting::Usage;
use crate::setup::{Counts, Setup};
use base_names::{History, NoMemory, Text};
use batch_table::BatchTable;
use disk_model::{Arm, Armed, Arms, Disk};
use hub_words::Entry;
use journal::Journal;
use std::alloc::Global;
use std::snapshot::Snapshot;

/// Batches in a table, each of them in a journal before it is acknowledged.
#[derive(Drop)]
pub struct Hub<D: Disk> {
    pub(crate) journal: Journal<D>,
    pub(crate) table: BatchTable,
    pub(crate) usage: Vec<Usage>,
    pub(crate) setup: Setup,
    /// The bodies at mounting.
    pub(crate) start: Snapshot<Vec<Text>>,
    /// The disk's count of faults then.
    pub(crate) begun: u64,
    pub(crate) history: History<Entry, Counts>,
}

impl<D: Disk> Hub<D> {
    /// How many batches there are.
    pub fn rows(&self) -> u64
        ensures { result ≡ length self.now.table.table.rows }
    {
        self.table.len() as u64
    }

    /// How often a call of the disk has failed.
    pub fn faults(&self) -> u64
        ensures { result ≡ D.faults self.now.journal.disk }
    {
        self.journal.faults()
    }

    /// The disk back.
    pub fn into_disk(self) -> D
        ensures { result ≡ self.journal.disk }
    {
        self.journal.into_disk()
    }
}

impl<D: Arms> Hub<D> {
    /// Arms a failure or a stop on the disk.
    pub fn arm(&mut self, alloc: Global, arm: Arm) -> Result<Armed, NoMemory>
        requires stands { IsStanding D.moment D.left D.faults self.old }
        requires lawful { IsLawfulArm arm }
        ensures stands { IsStanding D.moment D.left D.faults self.new }
        ensures ok { OnOk result (D.arms self.old.journal.disk arm self.new.journal.disk) }
        ensures err { OnErr result (self.new.journal.disk ≡ self.old.journal.disk) }
        ensures disk { IsUnmoved D.name D.seen D.moment D.left D.calls D.faults self.old.journal.disk self.new.journal.disk }
        ensures rest { state_of self.new ≡ record (state_of self.old) { disk = self.new.journal.disk } }
    {
        self.journal.arm(alloc, arm)
    }

    /// Whether a stop has come.
    pub fn stopped(&self) -> bool
        ensures { result ≡ D.is_stopped self.now.journal.disk }
    {
        self.journal.stopped()
    }

    /// How many calls of the disk failed because a growth found no memory.
    pub fn refused(&self) -> u64
        ensures { result ≡ D.refusals self.now.journal.disk }
    {
        self.journal.refused()
    }
}
