//! The journal.

ghost use Rattle.std.specs.Prelude.{◌≡◌, ◌≤◌, ◌+◌, true, Some, None, Err, OnOk, OnErr, is_ok};
ghost use Rattle.base_names.specs.Outside.{Rose};
ghost use Rattle.disk_model.specs.Arms.{IsUnmoved};
ghost use Rattle.disk_model.specs.Moments.{LeavesOnly};

use crate::fault::AppendFault;
use crate::put::write_through;
use base_names::{History, NoMemory, Text};
use disk_model::{Arm, Armed, Arms, Disk, DiskDone};
use std::alloc::Global;
use std::snapshot::Snapshot;

/// Bodies in a file, each of them there before it is acknowledged, and at most one in doubt.
#[derive(Drop)]
pub struct Journal<D: Disk> {
    pub(crate) disk: D,
    /// The place of the gate behind the bodies.
    pub(crate) end: u64,
    pub(crate) limit: u64,
    /// A record and the closed gate behind it, as they are written.
    pub(crate) room: Vec<u8>,
    pub(crate) reserved: u64,
    /// The buffer with the record whose gate may be open.
    pub(crate) doubt: Option<Snapshot<Vec<u8>>>,
    pub(crate) found: Snapshot<Vec<Text>>,
    /// The buffers of the records that were added, with their places.
    pub(crate) added: History<Vec<u8>, u64>,
}

/// A buffer that has the room that was asked for.
#[derive(Clone, Copy, Debug, PartialEq, Eq)]
pub struct JournalRoom;

impl<D: Disk> Journal<D> {
    ghost use Rattle.std.specs.Prelude.{vec_capacity};
    ghost use Rattle.journal.specs.Plans.{RanOn, settle_plan};
    ghost use Rattle.journal.specs.Standing.{Stands, bodies_of, doubt_of, Holds};

    /// Closes the gate of the record in doubt, where there is one.
    pub fn settle(&mut self) -> Result<(), AppendFault>
        requires { Stands D.moment D.left self.old }
        ensures stands { Stands D.moment D.left self.new }
        ensures bodies { bodies_of self.new ≡ bodies_of self.old }
        ensures rest { (self.new.end ≡ self.old.end) × (self.new.limit ≡ self.old.limit) × (self.new.reserved ≡ self.old.reserved) }
        ensures ok { OnOk result (doubt_of self.new ≡ None) }
        ensures err { OnErr result (doubt_of self.new ≡ doubt_of self.old) }
        ensures sure { doubt_of self.old ≡ None → self.new ≡ self.old }
        ensures any_moment { LeavesOnly D.moment D.left self.old.disk self.new.disk (Holds (bodies_of self.old) (doubt_of self.old)) }
        ensures calls { RanOn D.calls D.makes (settle_plan (doubt_of self.old) self.old.end) self.old.disk self.new.disk (is_ok result) }
        ensures never_full { OnErr result (result ≡ Err AppendFault.DiskFailed) }
        ensures later { D.faults self.old.disk ≤ D.faults self.new.disk }
        ensures failed { OnErr result (Rose (D.faults self.old.disk) (D.faults self.new.disk)) }
        ensures steady { OnOk result (D.faults self.new.disk ≡ D.faults self.old.disk) }
        ensures same { D.name self.new.disk ≡ D.name self.old.disk }
    {
        if self.doubt.is_none() {
            return Ok(());
        }
        if write_through(&mut self.disk, self.end, &[0]) == DiskDone::Failed {
            return Err(AppendFault::DiskFailed);
        }
        self.doubt = None;
        Ok(())
    }

    /// Makes the buffer for a body of so many bytes, which stays.
    pub fn reserve(&mut self, alloc: Global, bytes: u32) -> Result<JournalRoom, NoMemory>
        requires { Stands D.moment D.left self.old }
        ensures stands { Stands D.moment D.left self.new }
        ensures room { OnOk result (bytes + 5 ≤ self.new.reserved) }
        ensures more { self.old.reserved ≤ self.new.reserved }
        ensures err { OnErr result (self.new ≡ self.old) }
        ensures rest { (self.new.disk ≡ self.old.disk) × (self.new.end ≡ self.old.end) × (self.new.limit ≡ self.old.limit) × (self.new.doubt ≡ self.old.doubt) × (self.new.found ≡ self.old.found) × (self.new.added ≡ self.old.added) }
    {
        let wanted = u64::from(bytes) + 5;
        if self.reserved < wanted {
            self.room = Vec::with_capacity(alloc, wanted as usize)?;
            self.reserved = wanted;
        }
        Ok(JournalRoom)
    }

    /// The place of the gate behind the bodies.
    pub fn end(&self) -> u64
        ensures { result ≡ self.now.end }
    {
        self.end
    }

    /// How often a call of the disk has failed.
    pub fn faults(&self) -> u64
        ensures { result ≡ D.faults self.now.disk }
    {
        D::fault_count(&self.disk)
    }
}

impl<D: Arms> Journal<D> {
    ghost use Rattle.disk_model.specs.Memory.{IsLawfulArm};
    ghost use Rattle.journal.specs.Standing.{Stands, bodies_of, doubt_of};

    /// Arms a failure or a stop on the disk.
    pub fn arm(&mut self, alloc: Global, arm: Arm) -> Result<Armed, NoMemory>
        requires stands { Stands D.moment D.left self.old }
        requires lawful { IsLawfulArm arm }
        ensures stands { Stands D.moment D.left self.new }
        ensures ok { OnOk result (D.arms self.old.disk arm self.new.disk) }
        ensures err { OnErr result (self.new.disk ≡ self.old.disk) }
        ensures disk { IsUnmoved D.name D.seen D.moment D.left D.calls D.faults self.old.disk self.new.disk }
        ensures rest { (bodies_of self.new ≡ bodies_of self.old) × (doubt_of self.new ≡ doubt_of self.old) × (self.new.end ≡ self.old.end) × (self.new.limit ≡ self.old.limit) × (self.new.reserved ≡ self.old.reserved) }
    {
        self.disk.arm(alloc, arm)
    }

    /// Whether a stop has come.
    pub fn stopped(&self) -> bool
        ensures { result ≡ D.is_stopped self.now.disk }
    {
        self.disk.stopped()
    }

    /// How many calls of the disk failed because a growth found no memory.
    pub fn refused(&self) -> u64
        ensures { result ≡ D.refusals self.now.disk }
    {
        self.disk.refused()
    }
}
