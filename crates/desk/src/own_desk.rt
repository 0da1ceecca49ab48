//! A desk that has its hub to itself.

ghost use Rattle.std.specs.Prelude.{◌≡◌, length, OnOk, OnErr};
ghost use Rattle.cluster_defs.specs.Asking.{is_full};
ghost use Rattle.cluster_defs.specs.Journal.{table_behind};
ghost use Rattle.disk_model.specs.Arms.{IsUnmoved};
ghost use Rattle.disk_model.specs.Memory.{IsLawfulArm};
ghost use Rattle.hub_core.specs.Standing.{IsStanding};
ghost use Rattle.hub_core.specs.State.{journal_of, state_of};

use base_names::{NoMemory, OwnerLimit, Refusal, Seat};
use disk_model::{Arm, Armed, Arms, Disk};
use hub_core::Hub;
use hub_words::{Ask, Desk, Reply};
use std::alloc::Global;
use std::marker::Model;

/// A hub, and how often it has told of an owner's limit on commands.
#[derive(Drop)]
pub struct OwnDesk<D: Disk> {
    hub: Hub<D>,
    fulls: u64,
}

impl<D: Disk> Model for OwnDesk<D> {
    ghost use Rattle.hub_core.specs.Standing.{IsStanding as stands};
    ghost use Rattle.hub_core.specs.State.{state_of};
    ghost use Rattle.desk.specs.Desks.{Held};

    ghost Value = { Held D };

    ghost view = { λ d. record { hub = state_of d.hub; fulls = d.fulls } };

    ghost invariant = { λ d. stands D.moment D.left D.faults d.hub };
}

impl<D: Disk> OwnDesk<D> {
    /// A desk over a hub.
    pub fn new(hub: Hub<D>) -> OwnDesk<D>
        requires { IsStanding D.moment D.left D.faults hub }
        ensures { result ≡ record { hub = state_of hub; fulls = 0 } }
    {
        OwnDesk { hub, fulls: 0 }
    }

    /// The hub back.
    pub fn into_hub(self) -> Hub<D>
        ensures hub { state_of result ≡ self.hub }
        ensures stands { IsStanding D.moment D.left D.faults result }
    {
        self.hub
    }

    /// How many batches the hub has.
    pub fn rows(&self) -> u64
        ensures { result ≡ length self.now.hub.store.table.rows }
    {
        self.hub.rows()
    }

    /// The hub's table is that of the records in its journal.
    pub fn has_its_table(&self)
        ensures { self.now.hub.store.table ≡ table_behind (journal_of self.now.hub) }
    {
        let _ = &self.hub;
    }
}

impl<D: Arms> OwnDesk<D> {
    /// Arms a failure or a stop on the disk.
    pub fn arm(&mut self, alloc: Global, arm: Arm) -> Result<Armed, NoMemory>
        requires { IsLawfulArm arm }
        ensures ok { OnOk result (D.arms self.old.hub.disk arm self.new.hub.disk) }
        ensures err { OnErr result (self.new.hub.disk ≡ self.old.hub.disk) }
        ensures disk { IsUnmoved D.name D.seen D.moment D.left D.calls D.faults self.old.hub.disk self.new.hub.disk }
        ensures rest { self.new ≡ record self.old { hub = record self.old.hub { disk = self.new.hub.disk } } }
    {
        self.hub.arm(alloc, arm)
    }

    /// Whether a stop has come.
    pub fn stopped(&self) -> bool
        ensures { result ≡ D.is_stopped self.now.hub.disk }
    {
        self.hub.stopped()
    }

    /// How many calls of the disk failed because a growth found no memory.
    pub fn refused(&self) -> u64
        ensures { result ≡ D.refusals self.now.hub.disk }
    {
        self.hub.refused()
    }
}

impl<D: Disk> Desk for OwnDesk<D> {
    ghost use Rattle.desk.specs.Desks.{entries_in, object_of};
    ghost use Rattle.hub_core.specs.Answering.{Asked};

    ghost name = { λ d. object_of D.name d.hub };

    ghost mine = { λ d. entries_in d.hub.history };

    ghost fulls = { λ d. d.fulls };

    ghost makes = { λ old seat ask reply new. Asked D.name D.moment D.left D.calls D.makes D.faults old.hub new.hub seat ask reply };

    fn ask(&mut self, alloc: Global, seat: &Seat, ask: Ask) -> Reply {
        let reply = self.hub.ask(alloc, seat, ask);
        if is_full(&reply) {
            self.fulls = self.fulls.saturating_add(1);
        }
        reply
    }
}

/// Whether a reply tells of an owner's limit on commands.
fn is_full(reply: &Reply) -> bool
    ensures { result ≡ is_full reply.now }
{
    matches!(
        reply,
        Reply::Refused(Refusal::OWNERFULL(OwnerLimit::Commands))
    )
}
