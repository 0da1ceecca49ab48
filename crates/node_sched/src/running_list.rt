//! What runs, in the order of placing.

ghost use Rattle.std.specs.Prelude.{◌≡◌, ◌≤◌, ◌<◌, ◌+◌, ◌^◌, ℕ, [], ◌∷◌, ◌++◌, ◌↔◌, IsTrue, IfOk, OnOk, OnErr, length};
ghost use Rattle.node_sched.specs.Schedule.{jobs_at, times_running};
ghost use Rattle.node_sched.specs.Runs.{node_of, without_node, without_waiter};
ghost use Rattle.node_sched.specs.Slots.{Rises, elsewhere, is_away, is_full, place_of, placed_in};

use crate::slot::{Slot, Spot};
use base_names::{NoMemory, NodeNo, Placed, Waiter};
use std::alloc::Global;
use std::collections::HashMap;
use std::marker::Model;

/// The jobs that run and where, in the order of placing. Each runs once. One is added in constant
/// time and without memory, and one goes in the logarithm of how many run.
#[derive(Drop)]
pub struct RunningList {
    /// By number. Those whose job has gone are empty, and are dropped once they are the most.
    slots: Vec<Slot>,
    spots: HashMap<Waiter, Spot>,
    next: u64,
    /// How many more may come without memory.
    room: usize,
    empty: usize,
}

impl Model for RunningList {
    ghost use Rattle.std.specs.Prelude.{◌+◌, ◌≤◌, vec_capacity, vec_len};
    ghost use Rattle.std.specs.HashMap as hash;
    ghost use Rattle.base_names.specs.contracts.node.WaiterPartialEq.TheImpl as derived;
    ghost use Rattle.node_sched.specs.Runs.{Runs};
    ghost use Rattle.node_sched.specs.Slots.{AreSlots, placed_in};

    ghost Value = { Runs };

    ghost view = { λ list. record { placed = placed_in list.slots.items; room = list.room } };

    ghost invariant = { λ list. AreSlots list.slots.items (hash.get derived.ghosts.eq list.spots) list.next list.room × (vec_len list.slots + list.room ≤ vec_capacity list.slots) × (list.room ≤ hash.spare list.spots) };
}

impl RunningList {
    pub fn new(alloc: Global) -> RunningList
        ensures { result.placed ≡ [] }
    {
        RunningList {
            slots: Vec::new(alloc),
            spots: HashMap::new(alloc),
            next: 0,
            room: 0,
            empty: 0,
        }
    }

    /// Whether it runs.
    pub fn contains(&self, waiter: &Waiter) -> bool
        ensures { IsTrue result ↔ (0 < times_running waiter.now self.now.placed) }
    {
        self.spots.contains_key(waiter)
    }

    /// Room for so many more.
    pub fn reserve(&mut self, more: usize) -> Result<(), NoMemory>
        ensures ok { OnOk result (more ≤ self.new.room) }
        ensures placed { self.new.placed ≡ self.old.placed }
        ensures room { self.old.room ≤ self.new.room }
    {
        if more <= self.room {
            return Ok(());
        }
        if u64::MAX - self.next < more as u64 {
            return Err(NoMemory);
        }
        self.slots.try_reserve(more)?;
        self.spots.reserve(more)?;
        self.room = more;
        Ok(())
    }

    /// One more runs. It takes no memory.
    pub fn push(&mut self, waiter: &Waiter, node: NodeNo)
        requires room { 0 < self.old.room }
        requires runs_not { times_running waiter.now self.old.placed ≡ 0 }
        ensures placed { self.new.placed ≡ self.old.placed ++ record { waiter = waiter.now; node = node } ∷ [] }
        ensures room { self.old.room ≤ self.new.room + 1 }
        ensures small { length self.new.placed < 2 ^ 63 }
    {
        let number = self.next;
        let placed = Placed {
            waiter: *waiter,
            node,
        };
        self.slots.push_reserved(Slot {
            number,
            placed: Some(placed),
        });
        let put: Result<_, _> = self.spots.insert(*waiter, Spot { node, number });
        let _none = put.unwrap();
        self.next += 1;
        self.room -= 1;
        let _len = self.slots.len();
    }

    /// It runs no more. It tells where it ran.
    pub fn remove(&mut self, waiter: &Waiter) -> Option<NodeNo>
        ensures node { result ≡ node_of waiter.now self.old.placed }
        ensures placed { self.new.placed ≡ without_waiter waiter.now self.old.placed }
        ensures room { self.old.room ≤ self.new.room }
    {
        match self.spots.remove(waiter) {
            Some(spot) => {
                let index = index_of(&self.slots, spot.number);
                let slot = &mut self.slots[index];
                slot.placed = None;
                self.empty = self.empty.saturating_add(1);
                self.compact_where_many();
                Some(spot.node)
            }
            None => None,
        }
    }

    /// Drops the empty slots where they are the most.
    fn compact_where_many(&mut self)
        ensures { self.new ≡ self.old }
    {
        if self.empty > self.slots.len() / 2 {
            self.compact();
        }
    }

    /// Drops the empty slots.
    fn compact(&mut self)
        ensures { self.new ≡ self.old }
    {
        self.slots.retain(|slot| is_full(slot));
        self.empty = 0;
    }

    /// The jobs that run on a node.
    pub fn jobs_at(&self, alloc: Global, node: NodeNo) -> Result<Vec<Waiter>, NoMemory>
        ensures { IfOk result (λ jobs. jobs.items ≡ jobs_at node self.now.placed) }
    {
        let mut jobs = Vec::new(alloc);
        for slot in &self.slots {
            push_job(&mut jobs, slot, node)?;
        }
        Ok(jobs)
    }

    /// What runs on a node runs no more.
    pub fn take_away(&mut self, node: NodeNo)
        ensures placed { self.new.placed ≡ without_node node self.old.placed }
        ensures room { self.old.room ≤ self.new.room }
    {
        self.slots.retain(|slot| elsewhere(node, slot));
        self.spots.retain(|_waiter, spot| is_away(node, spot));
        self.empty = 0;
    }
}

fn index_of(slots: &Vec<Slot>, number: u64) -> usize
    requires rises { Rises 0 slots.now.items }
    requires there { place_of number slots.now.items < length slots.now.items }
    ensures { result ≡ place_of number slots.now.items }
{
    let mut low = 0;
    let mut high = slots.len();
    while high - low > 1 {
        let middle = low + (high - low) / 2;
        if slots[middle].number <= number {
            low = middle;
        } else {
            high = middle;
        }
    }
    low
}

fn is_full(slot: &Slot) -> bool
    ensures { result ≡ is_full slot.now }
{
    slot.placed.is_some()
}

fn elsewhere(node: NodeNo, slot: &Slot) -> bool
    ensures { result ≡ elsewhere node slot.now }
{
    match &slot.placed {
        Some(placed) => placed.node != node,
        None => false,
    }
}

fn is_away(node: NodeNo, spot: &Spot) -> bool
    ensures { result ≡ is_away node spot.now }
{
    spot.node != node
}

fn push_job(jobs: &mut Vec<Waiter>, slot: &Slot, node: NodeNo) -> Result<(), NoMemory>
    ensures { OnOk result (jobs.new.items ≡ jobs.old.items ++ jobs_at node (placed_in (slot.now ∷ []))) }
{
    if let Some(placed) = &slot.placed {
        if placed.node == node {
            jobs.push(placed.waiter)?;
        }
    }
    Ok(())
}
