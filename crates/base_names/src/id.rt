//! The IDs of batches.

use crate::owner::Owner;

/// A batch: the number is its owner's own, and the first batch of an owner has 1.
#[derive(Clone, Copy, Debug, PartialEq, Eq, PartialOrd, Ord, Hash)]
pub struct BatchId {
    pub owner: Owner,
    pub number: u32,
}
