//! How much of an input is read.

/// The greatest length of a line, without its line feed and a carriage return before that.
pub const LINE_LIMIT: usize = 65_536;

/// An input that reaches so many bytes is too long.
pub const INPUT_LIMIT: u64 = 1 << 40;

/// No more than so many bytes are asked of a source at once.
pub const READ_LIMIT: usize = 65_536;
