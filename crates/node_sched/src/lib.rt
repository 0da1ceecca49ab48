//! Which waiting jobs run on which nodes.
//!
//! [`Nodes`] keeps the nodes with their limits, what runs on them and what waits for a place. It is seen as a `Schedule`
//! (`specs/Schedule.antt`): what comes and goes and what an administrator asks of a node stands in `specs/Asked.antt`, over the
//! definitions of a cluster. [`Nodes::dispatch`] gives exactly the places that a cluster gives. It looks at no job that may not
//! run: for each job that it places it takes the time of a look at the nodes and of the logarithm of the waiting list.
#![tactic(auto)]

mod best;
mod node_lines;
mod nodes;
mod running_list;
mod slot;
mod turn;
mod waiting_list;

pub use nodes::{Nodes, Waiting};
