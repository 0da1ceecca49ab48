//! The jobs of seats.
//!
//! [`JobTable`] keeps each seat's job, and how many it was given. It is seen as the list of a cluster's jobs in the order in
//! which they are listed (`specs/Jobs.antt`). A seat's job is found in the logarithm of how many there are, and what is listed
//! needs no sorting. A job that is there is changed without memory.
#![tactic(auto)]

mod job;
mod job_table;
mod laws;

pub use job::Job;
pub use job_table::JobTable;
pub use laws::the_table_has_a_clusters_jobs;
