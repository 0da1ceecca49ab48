//! The world of a script between two steps.

ghost use Rattle.std.specs.Prelude.{◌≡◌, ◌≤◌, ◌^◌, position, IfOk};
ghost use Rattle.cluster_defs.specs.Journal.{none_yet};
ghost use Rattle.replay_world.specs.Views.{HasJournal, IsWhole, view};
ghost use Rattle.replay_world.specs.World.{first_world, setup_of, sits_at};

use crate::machine::Machine;
use base_names::NoMemory;
use disk_model::MemDisk;
use hub_core::{Limits, Setup};
use session::Session;
use std::alloc::Global;

/// A machine, and the sessions on it, each at a seat of its own.
#[derive(Drop)]
pub struct World {
    pub(crate) alloc: Global,
    pub(crate) setup: Setup,
    pub(crate) machine: Machine,
    pub(crate) sessions: Vec<Session>,
}

/// One node for two jobs.
fn setup_of(limits: Limits) -> Setup
    ensures { result ≡ setup_of limits }
{
    Setup {
        nodes: 1,
        limit: 2,
        hard: 0,
        limits,
    }
}

impl World {
    /// A machine with an open file on an empty disk, and no session.
    pub fn new(alloc: Global, limits: Limits) -> Result<World, NoMemory>
        requires least { limits.journal ≤ 10 ^ 12 }
        requires room { 8 ≤ limits.journal }
        ensures whole { IfOk result (λ w. IsWhole w) }
        ensures first { IfOk result (λ w. view w ≡ first_world limits) }
        ensures journal { IfOk result (λ w. HasJournal none_yet w.machine) }
    {
        let setup = setup_of(limits);
        let machine = Machine::opened(alloc, MemDisk::new(alloc), setup)?;
        Ok(World {
            alloc,
            setup,
            machine,
            sessions: Vec::new(alloc),
        })
    }

    /// The place of a seat's session.
    pub(crate) fn place_of(&self, seat: u8) -> Option<usize>
        ensures { result ≡ position (sits_at seat) self.now.sessions.items }
    {
        self.sessions
            .iter()
            .position(|session| session.seat().number == u32::from(seat))
    }
}
