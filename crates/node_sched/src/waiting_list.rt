//! What waits, in the order in which it may run.

ghost use Rattle.std.specs.Prelude.{◌≡◌, ◌≤◌, ℕ, negsuc, pos, ◌≤ℤ◌, ◌<◌, ◌^◌, ◌↔◌, IsTrue, OnOk, OnErr, length, option_map, true, false};
ghost use Rattle.cluster_defs.specs.Placement.{dequeue, enqueue};
ghost use Rattle.node_sched.specs.Schedule.{UrgentFirst, first_of, times_waiting};

use crate::turn::{FIRST_ORDINARY, Turn};
use base_names::{NoMemory, Waiter};
use std::alloc::Global;
use std::collections::{BTreeMap, HashMap};
use std::marker::Model;

/// The waiters by priority from above, and those of one priority by arrival. Each waits once.
/// Coming, going and finding the first take a logarithm of the list's length.
#[derive(Drop)]
pub struct WaitingList {
    entries: BTreeMap<Turn, Waiter>,
    /// Where each waiter stands.
    turns: HashMap<Waiter, Turn>,
    /// How many came so far.
    arrivals: u64,
}

impl Model for WaitingList {
    ghost use Rattle.std.specs.Prelude.{List};
    ghost use Rattle.std.specs.HashMap as hash;
    ghost use Rattle.base_names.specs.contracts.node.WaiterPartialEq.TheImpl as derived;
    ghost use Rattle.cluster_defs.specs.Cluster.{Waiting};
    ghost use Rattle.node_sched.specs.Turns.{IsKept, waiting_in};

    ghost Value = { List Waiting };

    ghost view = { λ list. waiting_in list.entries.entries };

    ghost invariant = { λ list. IsKept list.entries.entries (hash.get derived.ghosts.eq list.turns) list.arrivals };
}

impl WaitingList {
    pub fn new(alloc: Global) -> WaitingList
        ensures { length result ≡ 0 }
    {
        WaitingList {
            entries: BTreeMap::new(alloc),
            turns: HashMap::new(alloc),
            arrivals: 0,
        }
    }

    pub fn len(&self) -> usize
        ensures len { result ≡ length self.now }
        ensures small { result < 2 ^ 63 }
    {
        self.entries.len()
    }

    /// Whether it waits.
    pub fn contains(&self, waiter: &Waiter) -> bool
        ensures { IsTrue result ↔ (0 < times_waiting waiter.now self.now) }
    {
        self.turns.contains_key(waiter)
    }

    /// Each waits once, and those of priority 100 come before all others.
    pub fn is_in_order(&self)
        ensures urgent_first { UrgentFirst self.now }
        ensures once { (w : Waiter) → times_waiting w self.now ≤ 1 }
    {
        let _ = &self.entries;
    }

    /// The first of those with priority 100, or of the others.
    pub fn first(&self, urgent: bool) -> Option<Waiter>
        ensures { result ≡ option_map (λ w. w.waiter) (first_of urgent self.now) }
    {
        if urgent {
            self.first_urgent()
        } else {
            self.first_ordinary()
        }
    }

    fn first_urgent(&self) -> Option<Waiter>
        ensures { result ≡ option_map (λ w. w.waiter) (first_of true self.now) }
    {
        match self.entries.first_key_value() {
            Some((turn, waiter)) => {
                if turn.is_urgent() {
                    Some(*waiter)
                } else {
                    None
                }
            }
            None => None,
        }
    }

    fn first_ordinary(&self) -> Option<Waiter>
        ensures { result ≡ option_map (λ w. w.waiter) (first_of false self.now) }
    {
        match self.entries.range(FIRST_ORDINARY..).next() {
            Some((_turn, waiter)) => Some(*waiter),
            None => None,
        }
    }

    /// It waits behind those of its own priority and above. After an error all is as before.
    pub fn push(&mut self, waiter: &Waiter, priority: i8) -> Result<(), NoMemory>
        requires waits_not { times_waiting waiter.now self.old ≡ 0 }
        requires lowest { negsuc 99 ≤ℤ priority }
        requires highest { priority ≤ℤ pos 100 }
        ensures ok { OnOk result (self.new ≡ enqueue record { waiter = waiter.now; priority = priority } self.old) }
        ensures err { OnErr result (self.new ≡ self.old) }
    {
        if self.arrivals == u64::MAX {
            return Err(NoMemory);
        }
        self.turns.reserve(1)?;
        let turn = Turn::of(priority, self.arrivals);
        self.entries.insert(turn, *waiter)?;
        let put: Result<_, _> = self.turns.insert(*waiter, turn);
        let _none = put.unwrap();
        self.arrivals += 1;
        Ok(())
    }

    /// It waits no more. False where it didn't wait.
    pub fn remove(&mut self, waiter: &Waiter) -> bool
        ensures list { self.new ≡ dequeue waiter.now self.old }
        ensures waited { IsTrue result ↔ (0 < times_waiting waiter.now self.old) }
    {
        match self.turns.remove(waiter) {
            Some(turn) => {
                self.entries.remove(&turn);
                true
            }
            None => false,
        }
    }
}
