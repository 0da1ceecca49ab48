//! A machine with its disk.

ghost use Rattle.std.specs.Prelude.{◌≡◌, ◌≤◌, ◌^◌, ◌++◌, Some, is_some, IfOk, OnOk};
ghost use Rattle.cluster_defs.specs.Journal.{Journal};
ghost use Rattle.disk_model.specs.Memory.{IsLawfulArm, armed, restarted};
ghost use Rattle.hub_core.specs.declared.setup.Setup as setups;
ghost use Rattle.replay_world.specs.Events.{opening_event};
ghost use Rattle.replay_world.specs.Hubs.{opened};
ghost use Rattle.replay_world.specs.Steps.{opening_text};
ghost use Rattle.replay_world.specs.Views.{Continues, HasJournal, IsReadable, IsSetUp, IsSound, KeepsAll, KeepsOne, disk_of, hub_on};

use crate::telling::{append_not_open, append_opened};
use base_names::NoMemory;
use desk::OwnDesk;
use disk_model::{Arm, Arms, MemDisk};
use hub_core::laws::{a_mounting_keeps_the_journal, an_opening_follows_the_journal};
use hub_core::{Hub, HubFault, Setup};
use session::Session;
use std::alloc::Global;

/// A machine with its disk.
#[derive(Drop)]
pub enum Machine {
    /// It runs, and its file is open.
    Running(OwnDesk<MemDisk>),
    /// It is stopped, or its file wasn't opened.
    Lying(MemDisk),
}

impl Machine {
    /// Opens the file that lies on a disk. Where a call of the disk fails it stays closed.
    pub fn opened(alloc: Global, disk: MemDisk, setup: Setup) -> Result<Machine, NoMemory>
        requires least { setup.limits.journal ≤ 10 ^ 12 }
        requires keeps { KeepsOne setup.limits.journal disk }
        ensures sound { IfOk result (λ m. IsSound setup m) }
        ensures whole { IfOk result (λ m. (disk_of m).refused ≡ 0) }
        ensures opened { IfOk result (λ m. opened disk ≡ record { disk = disk_of m; hub = hub_on m }) }
        ensures journal { IfOk result (λ m. (j : Journal) → KeepsAll j disk → Continues (Some (opening_event (hub_on m))) j m) }
    {
        let machine = Machine::mounted(alloc, disk, setup)?;
        if machine.refused() > 0 {
            return Err(NoMemory);
        }
        Ok(machine)
    }

    /// The same, where growths of the disk may have been refused.
    fn mounted(alloc: Global, disk: MemDisk, setup: Setup) -> Result<Machine, NoMemory>
        requires least { setup.limits.journal ≤ 10 ^ 12 }
        requires keeps { KeepsOne setup.limits.journal disk }
        ensures sound { IfOk result (λ m. IsSound setup m) }
        ensures opened { IfOk result (λ m. (disk_of m).refused ≡ 0 → opened disk ≡ record { disk = disk_of m; hub = hub_on m }) }
        ensures journal { IfOk result (λ m. (j : Journal) → KeepsAll j disk → Continues (Some (opening_event (hub_on m))) j m) }
    {
        a_mounting_keeps_the_journal::<MemDisk>();
        an_opening_follows_the_journal::<MemDisk>();
        match Hub::mount(alloc, disk, setup) {
            Ok(hub) => Ok(Machine::Running(OwnDesk::new(hub))),
            Err(refused) => {
                if refused.fault == HubFault::NoMemory {
                    return Err(NoMemory);
                }
                Ok(Machine::Lying(refused.into_disk()))
            }
        }
    }

    /// Starts the machine again, and opens its file.
    pub fn started(alloc: Global, disk: MemDisk, setup: Setup) -> Result<Machine, NoMemory>
        requires least { setup.limits.journal ≤ 10 ^ 12 }
        requires keeps { KeepsOne setup.limits.journal disk }
        ensures sound { IfOk result (λ m. IsSound setup m) }
        ensures whole { IfOk result (λ m. (disk_of m).refused ≡ 0) }
        ensures opened { IfOk result (λ m. opened (restarted disk) ≡ record { disk = disk_of m; hub = hub_on m }) }
        ensures journal { IfOk result (λ m. (j : Journal) → KeepsAll j disk → Continues (Some (opening_event (hub_on m))) j m) }
    {
        let mut disk = disk;
        disk.after_stop(alloc)?;
        Machine::opened(alloc, disk, setup)
    }

    /// The disk back.
    pub fn into_disk(self) -> MemDisk
        ensures disk { result ≡ disk_of self }
        ensures keeps { (setup : setups.Setup) → IsSetUp setup self → IsReadable setup self → KeepsOne setup.limits.journal result }
        ensures journal { (j : Journal) → HasJournal j self → KeepsAll j result }
    {
        match self {
            Machine::Running(desk) => desk.into_hub().into_disk(),
            Machine::Lying(disk) => disk,
        }
    }

    /// Arms a failure or a stop.
    pub fn arm(&mut self, alloc: Global, arm: Arm) -> Result<(), NoMemory>
        requires lawful { IsLawfulArm arm }
        ensures disk { OnOk result (disk_of self.new ≡ armed arm (disk_of self.old)) }
        ensures whole { OnOk result ((disk_of self.new).refused ≡ (disk_of self.old).refused) }
        ensures hub { hub_on self.new ≡ hub_on self.old }
        ensures readable { (setup : setups.Setup) → IsReadable setup self.old → IsReadable setup self.new }
        ensures journal { (j : Journal) → HasJournal j self.old → HasJournal j self.new }
        ensures set_up { (setup : setups.Setup) → IsSetUp setup self.old → IsSetUp setup self.new }
    {
        match self {
            Machine::Running(desk) => desk.arm(alloc, arm)?,
            Machine::Lying(disk) => disk.arm(alloc, arm)?,
        };
        Ok(())
    }

    /// The input of a session on it ends.
    pub fn hang(&mut self, alloc: Global, session: &mut Session)
        ensures { self.new ≡ self.old }
    {
        if let Machine::Running(desk) = self {
            session.hang(desk, alloc);
        }
    }

    /// Tells how its opening went.
    pub fn tell_opening(&self, out: &mut Vec<u8>) -> Result<(), NoMemory>
        ensures { OnOk result (out.new.items ≡ out.old.items ++ opening_text (hub_on self.now)) }
    {
        match self {
            Machine::Running(desk) => append_opened(out, desk.rows()),
            Machine::Lying(_) => append_not_open(out),
        }
    }

    /// Whether its file is open.
    pub fn is_running(&self) -> bool
        ensures { result ≡ is_some (hub_on self.now) }
    {
        matches!(self, Machine::Running(_))
    }

    /// Whether a stop has come.
    pub fn is_stopped(&self) -> bool
        ensures { result ≡ is_some (disk_of self.now).stopped }
    {
        match self {
            Machine::Running(desk) => desk.stopped(),
            Machine::Lying(disk) => disk.stopped(),
        }
    }

    /// How many calls of the disk failed because a growth found no memory.
    pub fn refused(&self) -> u64
        ensures { result ≡ (disk_of self.now).refused }
    {
        match self {
            Machine::Running(desk) => desk.refused(),
            Machine::Lying(disk) => disk.refused(),
        }
    }
}
