//! Nodes, and what waits for a place on them or has one.

use crate::id::BatchId;
use crate::owner::Owner;
use crate::seat::JobId;

/// A node's number, from 1.
#[derive(Clone, Copy, Debug, PartialEq, Eq, PartialOrd, Ord, Hash)]
pub struct NodeNo(pub u32);

/// Whether a node takes jobs.
#[derive(Clone, Copy, Debug, PartialEq, Eq)]
pub enum NodeState {
    Alive,
    /// What runs there goes on, and nothing more comes.
    Draining,
    Failed,
}

/// A node as it is listed: its limits, and how many jobs run there.
#[derive(Clone, Copy, Debug, PartialEq, Eq)]
pub struct NodeLine {
    pub node: NodeNo,
    pub state: NodeState,
    pub limit: u32,
    pub hard: u32,
    pub running: u64,
}

/// What can run on a node: a seat's job, or an attempt at a batch. Jobs of seats come first in order.
#[derive(Clone, Copy, Debug, PartialEq, Eq, PartialOrd, Ord, Hash)]
pub enum Waiter {
    Seat(JobId),
    /// The batch, and the number of the attempt.
    Batch(BatchId, u32),
}

/// One waiter was given a place on a node.
#[derive(Clone, Copy, Debug, PartialEq, Eq)]
pub struct Placed {
    pub waiter: Waiter,
    pub node: NodeNo,
}

/// A job as it is listed. It waits where `node` is `None`.
#[derive(Clone, Copy, Debug, PartialEq, Eq)]
pub struct JobLine {
    pub waiter: Waiter,
    pub owner: Owner,
    /// From -100 to 100.
    pub priority: i8,
    pub node: Option<NodeNo>,
}
