//! How a solve may end, as a number in outcomes and texts.

/// A best point was found.
pub const OPTIMAL: u8 = 2;

/// The model has no point.
pub const INFEASIBLE: u8 = 3;

/// A model with integer variables whose relaxation is unbounded.
pub const INF_OR_UNBD: u8 = 4;

/// The objective has no bound.
pub const UNBOUNDED: u8 = 5;

/// The limit on pivots was met.
pub const ITERATION_LIMIT: u8 = 7;

/// The limit on nodes was met.
pub const NODE_LIMIT: u8 = 8;

/// The solve was cut.
pub const INTERRUPTED: u8 = 11;

/// An operation doesn't fit.
pub const NUMERIC: u8 = 12;

/// The limit on work was met.
pub const WORK_LIMIT: u8 = 16;
