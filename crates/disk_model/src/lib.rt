//! A disk, and a disk in memory.
//!
//! - [`Disk`]: one file that is read, written and synced. What a read gives, which images a crash may leave at each moment, which
//!   calls there were and what a call makes of the disk is told in contracts where it is known. A disk has a count of faults, which
//!   rises at each call that is answered `Failed`, and at no other.
//! - [`Arms`]: a disk on which failures and stops can be armed.
//! - [`MemDisk`]: in memory. It tells what a read gives, all images, its calls, and what each call makes of it; it can be armed, and
//!   started again behind a stop.
//! - [`CallLog`]: the calls of a disk as a list that only proofs read, for disks of other crates.
//!
//! `specs/Disk.antt` says what one call does to what is seen and to the images, `specs/Moments.antt` what it does in time, with
//! `LeavesOnly`, that a crash at any moment of several calls leaves only images of a kind; `proofs/Moments.antt` has the laws of
//! that, for crates above. `specs/Calls.antt` says what the list of calls is. `specs/Images.antt` has the images of a file in memory
//! as torn writes, `specs/Spoiled.antt` the same place by place, and `specs/Memory.antt` what each call makes of the disk in memory.
#![tactic(auto)]

mod answer;
mod arming;
mod arms;
mod call_log;
mod disk;
mod image;
mod laws;
mod memory_disk;
mod undo;

pub use answer::{DiskDone, DiskLen};
pub use arms::Arms;
pub use call_log::{CallLog, Made};
pub use disk::Disk;
pub use image::{Arm, Armed, Image, Restarted};
pub use laws::torn_writes_are_the_disk_model;
pub use memory_disk::MemDisk;

#[cfg(test)]
mod tests;
