//! The ranges of the numbers that `serve` takes, and the usual ones.

/// The most digits of a number.
pub const MAX_DIGITS: usize = 20;

/// The port where none is given.
pub const USUAL_PORT: u64 = 61_000;

/// The greatest port. The least is 1.
pub const MAX_PORT: u64 = 65_535;

/// How many nodes a cluster has where no number is given.
pub const USUAL_CLUSTER_NODES: u64 = 1;

/// The most nodes of a cluster. The fewest are 1.
pub const MAX_CLUSTER_NODES: u64 = 16;

/// How many jobs a node runs at once where no number is given.
pub const USUAL_JOB_LIMIT: u64 = 2;

/// The most jobs that a node runs at once. The fewest are 1.
pub const MAX_JOB_LIMIT: u64 = 1_000;

/// Stands for no hard limit on a node's jobs.
pub const NO_HARD_LIMIT: u64 = 0;

/// How many workers there are where no number is given.
pub const USUAL_WORKERS: u64 = 2;

/// The most workers. The fewest are 1.
pub const MAX_WORKERS: u64 = 16;
