//! The statuses of a batch in the table.

/// It waits or runs.
pub(crate) const SUBMITTED: u8 = 2;

/// Its owner ended it.
pub(crate) const ABORTED: u8 = 3;

/// It ended with its node.
pub(crate) const FAILED: u8 = 4;

/// It has a result.
pub(crate) const COMPLETED: u8 = 5;
