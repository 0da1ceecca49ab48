//! Where a line ends, and what of it counts.

ghost use Rattle.std.specs.Prelude.{◌≡◌, ◌<◌, ◌≤◌, ◌+◌, ◌==◌, false, true, position};
ghost use Rattle.base_io.specs.Lines.{without_return, is_too_long};
ghost use Rattle.base_io.specs.declared.limits.TheConstants.{INPUT_LIMIT as input_limit};

use crate::limits::{INPUT_LIMIT, LINE_LIMIT};

/// Where the line that begins with what is held ends.
#[derive(Drop)]
pub enum LineEnd {
    /// A line feed stands there.
    At(usize),
    /// The input ends, and what is held is its last line.
    Input,
    TooLong,
    ReadFault,
}

/// The place of the first line feed.
pub fn line_feed_place(bytes: &[u8]) -> Option<usize>
    ensures { result ≡ position (λ byte. byte == 10) bytes.now }
{
    bytes.iter().position(|byte| *byte == b'\n')
}

/// The line without a carriage return at its end.
pub fn trim_return(line: &[u8]) -> &[u8]
    ensures { result.now ≡ without_return line.now }
{
    if line.last() == Some(&b'\r') {
        return &line[..line.len() - 1];
    }
    line
}

/// Whether a line of which so much has come is too long, whatever comes next.
pub fn is_line_too_long(line: &[u8]) -> bool
    ensures { result ≡ is_too_long line.now }
{
    trim_return(line).len() > LINE_LIMIT
}

/// Whether an input of which so much was given reaches its limit with so many bytes more.
pub fn is_input_too_long(given: u64, more: usize) -> bool
    requires { given < input_limit }
    ensures yes { result ≡ true → input_limit ≤ given + more }
    ensures no { result ≡ false → given + more < input_limit }
{
    more as u64 >= INPUT_LIMIT - given
}
