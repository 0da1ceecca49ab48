//! What a reader of lines answers.

use base_names::Text;

/// A line or a block of an input, or why there is none.
#[derive(Debug, Drop)]
pub enum Piece {
    /// The bytes of a line without what ended it, or exactly the bytes of a block.
    Line(Text),
    /// The input ended before a byte of the line, or before the block's last byte.
    End,
    /// The line passes its limit, or the input reaches its own.
    TooLong,
    /// The source failed.
    ReadFault,
}
