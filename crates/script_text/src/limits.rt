//! The limits of the numbers in a script.

/// A journal's limit is at least its header's length.
pub const LEAST_JOURNAL: u64 = 8;

/// The greatest limit of a journal.
pub const MOST_JOURNAL: u64 = 1_000_000_000_000;
