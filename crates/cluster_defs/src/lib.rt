//! What a cluster is: batches on nodes, jobs of seats, and what one command does to them.
//!
//! [`Ask`] is what a session asks for its seat today, [`Reply`] what it is told, and [`Entry`] the two as they are kept;
//! `specs/Asking.antt` says what may be asked, which replies answer an ask, and which asks are kept.
//!
//! The definitions, in the order in which they stand on one another, all in `specs/`:
//!
//! - `Site`: the set-up, and what crates above hand in. `Waiters`: which seats, nodes and jobs are the same. `Cluster`: its parts.
//! - `Asks`, `Replies`, `Deeds`, `Entries`: what is done and answered.
//! - `Placement`: which waiting jobs go to which nodes.
//! - `Listing`, `Appended`, `Refusals`, `Effects`, `Answers`, `Charges`: the parts of a step, and `Step` itself. `Store`: what of it a
//!   hub without nodes needs. `Looks`: whether a job was cut.
//! - `Opened`, `Told`, `Legal`: a cluster as it is opened, and which entries may follow.
//! - `Part`, `Reading`, `Own`, `OwnHistory`: what is one owner's, and the replies that follow from that alone.
//! - `Journal`, `Life`, `Ends`, `Plain`, `Room`: records through openings and stops. `Counted`: the disk's faults through them.
//!
//! Histories at hand, with what is placed and answered line by line, are in `proofs/WorkedJobs.antt`, `WorkedBatches.antt` and `WorkedLimits.antt`:
//! they fix these definitions value for value. What holds in every history is said in the crate `cluster_laws`.
//! `docs/CLUSTER.md` says all of it in plain words.
#![tactic(auto)]

mod ask;
mod entry;
mod reply;

pub use ask::Ask;
pub use entry::Entry;
pub use reply::Reply;

#[cfg(test)]
mod tests;
