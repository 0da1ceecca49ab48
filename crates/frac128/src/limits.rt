//! Sizes with a meaning, each stated here alone.

/// What no part of a fraction reaches in size.
pub const LIMIT: u128 = 1 << 127;

/// From 10 to this power on a number is huge: as a bound of a variable it is none.
pub const HUGE_TENS: usize = 20;

/// 10 to the power of [`HUGE_TENS`].
pub const HUGE: u128 = 100_000_000_000_000_000_000;
