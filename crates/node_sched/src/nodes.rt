//! The nodes, what runs on them, and what waits for a place.

ghost use Rattle.std.specs.Prelude.{◌≡◌, ◌≤◌, ◌<◌, ◌+◌, ◌++◌, ℕ, negsuc, pos, ◌≤ℤ◌, ◌↔◌, [], ◌∷◌, IsTrue, false, true, ◌⊎◌, IsNone, IfSome, IfOk, OnOk, OnErr, IfErr, MatchResult, length, vec_len, vec_capacity, Some, None};
ghost use Rattle.cluster_defs.specs.Asks as asks;
ghost use Rattle.cluster_defs.specs.Opened.{nodes_from};
ghost use Rattle.cluster_defs.specs.Refusals.{has_node};
ghost use Rattle.cluster_defs.specs.Site.{Site};
ghost use Rattle.node_sched.specs.Asked.{are_limits, came, failed, gone, nothing_on, refused, with_nodes, with_state};
ghost use Rattle.node_sched.specs.Schedule.{InOrder, jobs_at, lines, next_of, place, settled, settled_if, times_running, times_waiting};

use crate::best::best_of;
use crate::node_lines::{add_one, set_failed, set_limits, set_state, take_one};
use crate::running_list::RunningList;
use crate::waiting_list::WaitingList;
use base_names::{NoMemory, NodeLine, NodeNo, NodeState, Placed, Refusal, Waiter};
use std::alloc::Global;
use std::marker::Model;

/// It waits, and there is room for its place.
#[derive(Clone, Copy, Debug, PartialEq, Eq)]
pub struct Waiting;

/// Nodes with what runs there and what waits. Contracts see a `Schedule` of `specs/Schedule.antt`.
#[derive(Drop)]
pub struct Nodes {
    waiting: WaitingList,
    running: RunningList,
    /// By number.
    lines: Vec<NodeLine>,
}

impl Model for Nodes {
    ghost use Rattle.node_sched.specs.Schedule.{Schedule};

    ghost Value = { Schedule };

    ghost use Rattle.node_sched.specs.Counts.{AreCounted, schedule_of};

    ghost view = { λ nodes. schedule_of nodes.waiting nodes.running nodes.lines.items };

    ghost invariant = { λ nodes. AreCounted nodes.waiting nodes.running nodes.lines.items };
}

impl Nodes {
    /// So many nodes, all alive. Nothing runs or waits.
    pub fn new(alloc: Global, count: u32, limit: u32, hard: u32) -> Result<Nodes, NoMemory>
        ensures { IfOk result (λ nodes. (k : Site) → k.setup.limit ≡ limit → k.setup.hard ≡ hard → nodes ≡ nothing_on (nodes_from k 1 count)) }
    {
        let mut lines = Vec::new(alloc);
        for before in 0..count {
            lines.push(NodeLine {
                node: NodeNo(before + 1),
                state: NodeState::Alive,
                limit,
                hard,
                running: 0,
            })?;
        }
        Ok(Nodes {
            waiting: WaitingList::new(alloc),
            running: RunningList::new(alloc),
            lines,
        })
    }

    /// It waits behind those of its own priority and above. Room is made for its place, so that
    /// placing takes no memory. After an error all is as before.
    pub fn wait(&mut self, waiter: &Waiter, priority: i8) -> Result<Waiting, NoMemory>
        requires waits_not { times_waiting waiter.now self.old.waiting ≡ 0 }
        requires runs_not { times_running waiter.now self.old.running ≡ 0 }
        requires lowest { negsuc 99 ≤ℤ priority }
        requires highest { priority ≤ℤ pos 100 }
        ensures ok { OnOk result (self.new ≡ came record { waiter = waiter.now; priority = priority } self.old) }
        ensures err { OnErr result (self.new ≡ self.old) }
    {
        let many = self.waiting.len();
        self.running.reserve(many + 1)?;
        self.waiting.push(waiter, priority)?;
        Ok(Waiting)
    }

    /// Whether it waits or runs.
    pub fn contains(&self, waiter: &Waiter) -> bool
        ensures { IsTrue result ↔ (0 < times_waiting waiter.now self.now.waiting + times_running waiter.now self.now.running) }
    {
        self.waiting.contains(waiter) || self.running.contains(waiter)
    }

    /// How many wait.
    pub fn waiting(&self) -> usize
        ensures { result ≡ length self.now.waiting }
    {
        self.waiting.len()
    }

    /// It neither waits nor runs any more. False where it did neither.
    pub fn leave(&mut self, waiter: &Waiter) -> bool
        ensures schedule { self.new ≡ gone waiter.now self.old }
        ensures was_there { IsTrue result ↔ (0 < times_waiting waiter.now self.old.waiting + times_running waiter.now self.old.running) }
    {
        if self.waiting.remove(waiter) {
            return true;
        }
        match self.running.remove(waiter) {
            Some(node) => {
                take_one(&mut self.lines, node);
                true
            }
            None => false,
        }
    }

    /// Places each waiting job that may run, one after the other, and appends the places in order.
    pub fn dispatch(&mut self, out: &mut Vec<Placed>)
        requires { vec_len out.old + length self.old.waiting ≤ vec_capacity out.old }
        ensures placed { out.new.items ≡ out.old.items ++ place self.old }
        ensures schedule { self.new ≡ settled (place self.old) self.old }
    {
        while self.place_next(out) {}
    }

    /// Places the first waiting job that may run. False where none may.
    fn place_next(&mut self, out: &mut Vec<Placed>) -> bool
        requires { vec_len out.old + length self.old.waiting ≤ vec_capacity out.old }
        ensures more { IsTrue result → (out.new.items ++ place self.new ≡ out.old.items ++ place self.old) × (settled (place self.new) self.new ≡ settled (place self.old) self.old) × (length self.new.waiting < length self.old.waiting) }
        ensures done { (IsTrue result → ⊥) → (out.new.items ≡ out.old.items) × (place self.old ≡ []) × (self.new ≡ self.old) }
        ensures room { vec_len out.new + length self.new.waiting ≤ vec_capacity out.new }
    {
        match self.place_first() {
            Some(placed) => {
                push_placed(out, &placed.waiter, placed.node);
                true
            }
            None => false,
        }
    }

    /// Places the first waiting job that may run.
    fn place_first(&mut self) -> Option<Placed>
        ensures some { IfSome result (λ p. (place self.old ≡ p ∷ place self.new) × (self.new ≡ settled (p ∷ []) self.old)) }
        ensures none { IsNone result → (place self.old ≡ []) × (self.new ≡ self.old) }
        ensures fewer { IfSome result (λ p. length self.new.waiting + 1 ≡ length self.old.waiting) }
    {
        match self.place_one(true) {
            Some(placed) => Some(placed),
            None => self.place_one(false),
        }
    }

    /// Places the first waiting job of priority 100, or the first of the others, if it may run.
    fn place_one(&mut self, urgent: bool) -> Option<Placed>
        ensures placed { result ≡ next_of urgent self.old }
        ensures schedule { self.new ≡ settled_if (next_of urgent self.old) self.old }
        ensures in_order { InOrder self.old }
    {
        self.waiting.is_in_order();
        match self.waiting.first(urgent) {
            Some(waiter) => match best_of(&self.lines, urgent) {
                Some(line) => {
                    self.waiting.remove(&waiter);
                    self.running.push(&waiter, line.node);
                    add_one(&mut self.lines, line.node);
                    Some(Placed {
                        waiter,
                        node: line.node,
                    })
                }
                None => None,
            },
            None => None,
        }
    }

    /// Sets a node's limits. What runs there stays.
    pub fn set_limits(&mut self, node: NodeNo, limit: u32, hard: u32) -> Result<(), Refusal>
        ensures refused { MatchResult result (λ _. refused (asks.Limits node limit hard) self.old ≡ None) (λ e. refused (asks.Limits node limit hard) self.old ≡ Some e) }
        ensures ok { OnOk result (self.new ≡ with_nodes (asks.Limits node limit hard) self.old) }
        ensures err { OnErr result (self.new ≡ self.old) }
    {
        if !self.has_node(node) {
            return Err(Refusal::NODE);
        }
        if !are_limits(limit, hard) {
            return Err(Refusal::RANGE);
        }
        set_limits(&mut self.lines, node, limit, hard);
        Ok(())
    }

    /// What runs on the node goes on, and nothing more comes.
    pub fn drain(&mut self, node: NodeNo) -> Result<(), Refusal>
        ensures refused { MatchResult result (λ _. refused (asks.Drain node) self.old ≡ None) (λ e. refused (asks.Drain node) self.old ≡ Some e) }
        ensures ok { OnOk result (self.new ≡ with_nodes (asks.Drain node) self.old) }
        ensures err { OnErr result (self.new ≡ self.old) }
    {
        self.set_state(node, NodeState::Draining)
    }

    /// The node takes jobs, whatever its state was.
    pub fn resume(&mut self, node: NodeNo) -> Result<(), Refusal>
        ensures refused { MatchResult result (λ _. refused (asks.Resume node) self.old ≡ None) (λ e. refused (asks.Resume node) self.old ≡ Some e) }
        ensures ok { OnOk result (self.new ≡ with_nodes (asks.Resume node) self.old) }
        ensures err { OnErr result (self.new ≡ self.old) }
    {
        self.set_state(node, NodeState::Alive)
    }

    fn set_state(&mut self, node: NodeNo, state: NodeState) -> Result<(), Refusal>
        ensures refused { MatchResult result (λ _. has_node node self.old.nodes ≡ true) (λ e. (has_node node self.old.nodes ≡ false) × (e ≡ Refusal.NODE)) }
        ensures ok { OnOk result (self.new ≡ with_state node state self.old) }
        ensures err { OnErr result (self.new ≡ self.old) }
    {
        if !self.has_node(node) {
            return Err(Refusal::NODE);
        }
        set_state(&mut self.lines, node, state);
        Ok(())
    }

    /// The jobs that run on the node, in the order of placing. `MEMORY` is the other refusal.
    pub fn running(&self, alloc: Global, node: NodeNo) -> Result<Vec<Waiter>, Refusal>
        ensures ok { IfOk result (λ jobs. (has_node node self.now.nodes ≡ true) × (jobs.items ≡ jobs_at node self.now.running)) }
        ensures err { IfErr result (λ e. ((has_node node self.now.nodes ≡ false) × (e ≡ Refusal.NODE)) ⊎ (e ≡ Refusal.MEMORY)) }
    {
        if !self.has_node(node) {
            return Err(Refusal::NODE);
        }
        let jobs = self.running.jobs_at(alloc, node)?;
        Ok(jobs)
    }

    /// The node has failed, and what ran there runs no more.
    pub fn fail(&mut self, node: NodeNo) -> Result<(), Refusal>
        ensures refused { MatchResult result (λ _. refused (asks.Fail node) self.old ≡ None) (λ e. refused (asks.Fail node) self.old ≡ Some e) }
        ensures ok { OnOk result (self.new ≡ failed node self.old) }
        ensures err { OnErr result (self.new ≡ self.old) }
    {
        if !self.has_node(node) {
            return Err(Refusal::NODE);
        }
        self.running.take_away(node);
        set_failed(&mut self.lines, node);
        Ok(())
    }

    /// The nodes by number, with how many jobs run on each.
    pub fn lines(&self, alloc: Global) -> Result<Vec<NodeLine>, NoMemory>
        ensures { IfOk result (λ listed. listed.items ≡ lines self.now) }
    {
        let mut listed = Vec::new(alloc);
        for line in &self.lines {
            listed.push(*line)?;
        }
        Ok(listed)
    }

    fn has_node(&self, node: NodeNo) -> bool
        ensures { result ≡ has_node node self.now.nodes }
    {
        node.0 != 0 && node.0 as usize <= self.lines.len()
    }
}

fn are_limits(limit: u32, hard: u32) -> bool
    ensures { result ≡ are_limits limit hard }
{
    (1..=1000).contains(&limit) && (hard == 0 || (limit <= hard && hard <= 1000))
}

fn push_placed(out: &mut Vec<Placed>, waiter: &Waiter, node: NodeNo)
    requires { vec_len out.old < vec_capacity out.old }
    ensures placed { out.new.items ≡ out.old.items ++ record { waiter = waiter.now; node = node } ∷ [] }
    ensures len { vec_len out.new ≡ vec_len out.old + 1 }
    ensures capacity { vec_capacity out.new ≡ vec_capacity out.old }
{
    let placed = Placed {
        waiter: *waiter,
        node,
    };
    out.push_reserved(placed);
}
