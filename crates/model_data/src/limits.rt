//! How large a model and its parameters may be.
use frac128::HUGE;

/// The most variables of a model.
pub const MAX_VARS: usize = 1_000;

/// The most rows of a model.
pub const MAX_ROWS: usize = 1_000;

/// The most terms of all rows of a model.
pub const MAX_TERMS: usize = 250_000;

/// The most entries of a model that is solved, as [`size`](crate::size) counts them.
pub const MAX_SIZE: u64 = 1_000_000;

/// A finite bound is below this in size.
pub const BOUND_SIZE: u128 = HUGE;

/// The longest name of a variable or of a row.
pub const MAX_NAME_LEN: usize = 255;

/// The longest tag.
pub const MAX_TAG_LEN: usize = 255;

/// The greatest limit on pivots.
pub const MAX_ITERATIONS: u64 = 1_000_000_000;

/// The greatest limit on nodes.
pub const MAX_NODES: u64 = 1_000_000_000;

/// The greatest limit on work.
pub const MAX_WORK: u64 = 1_000_000_000_000_000;

/// The greatest priority, and the least with a minus.
pub const MAX_PRIORITY: i8 = 100;

/// The greatest detail of a solution's text.
pub const MAX_DETAIL: u8 = 1;
