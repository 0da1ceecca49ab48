//! A hub over a disk: batches that outlive the sessions that submit them.
//!
//! [`Hub::mount`] reads a journal's file, which a crash may have left, into a table of batches. [`Hub::ask`] answers what a seat asks,
//! and whatever it acknowledges is in the file before. One call is one step of the store of `cluster_defs`, and adds one entry to
//! the hub's history, with the disk's counts of faults around it.
//!
//! `specs/Standing.antt` says what a hub stands for between its calls, and `specs/Noting.antt` what a history of a store is;
//! `specs/Answering.antt` what an ask does, `specs/Mounting.antt` what an opening finds and why there is none, and `specs/Keeping.antt`
//! what an image at any moment recovers to. [`laws`] say how these follow one another through openings. The history is read by proofs
//! alone, and takes no memory.
#![tactic(auto)]

mod asking;
mod counting;
mod creating;
mod fault;
mod hub;
pub mod laws;
mod mounting;
mod setup;
mod taking;

pub use counting::Usage;
pub use fault::HubFault;
pub use hub::Hub;
pub use mounting::NoHub;
pub use setup::{Counts, Limits, Setup};
