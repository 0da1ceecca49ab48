//! How long a block may be.

/// The longest block that a session reads, in bytes.
pub const BLOCK_LIMIT: u32 = 1_048_576;
