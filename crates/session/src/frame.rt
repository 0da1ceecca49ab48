//! An input of lines, each with the block that it asks for.

ghost use Rattle.std.specs.Prelude.{◌≡◌, ◌≤◌, ℕ, List, Ok, Option, length, unwrap_or};
ghost use Rattle.base_names.specs.Outside.{Rose};
ghost use Rattle.session.specs.Framing.{ReadsFrame};

use base_io::{LineReader, Piece, Source};
use base_names::{NoMemory, Text};
use std::alloc::Global;

/// Which lines have a block behind them.
pub trait Blocks {
    /// How long a block a line asks for.
    ghost wants: { List ℕ → Option ℕ };

    /// How many bytes of a block stand behind a line. `None` where no block does.
    fn len_behind(line: &[u8]) -> Option<u32>
        ensures { result ≡ wants line.now };
}

/// What stands next in an input.
#[derive(Debug, Drop)]
pub enum NextFrame {
    /// A line with its block, which is empty where the line asks for none.
    Whole(Text, Text),
    /// The input ends before a line.
    End,
    /// The input ends within the block of a line.
    Cut,
    /// A line, or the input as a whole, is too long.
    TooLong,
    ReadFault,
}

/// Reads the next line and the block that it asks for.
pub fn next_frame<S: Source, B: Blocks>(
    alloc: Global,
    reader: &mut LineReader,
    source: &mut S,
) -> Result<NextFrame, NoMemory>
    ensures same { S.name source.new ≡ S.name source.old }
    ensures later { S.faults source.old ≤ S.faults source.new }
    ensures reads { ReadsFrame B.wants result reader.old reader.new (S.left source.old) (S.left source.new) }
    ensures block { (line block : List ℕ) → result ≡ Ok (NextFrame.Whole line block) → length block ≡ unwrap_or (B.wants line) 0 }
    ensures fault { result ≡ Ok NextFrame.ReadFault → Rose (S.faults source.old) (S.faults source.new) }
{
    let line = match reader.line(alloc, source)? {
        Piece::Line(line) => line,
        Piece::End => return Ok(NextFrame::End),
        Piece::TooLong => return Ok(NextFrame::TooLong),
        Piece::ReadFault => return Ok(NextFrame::ReadFault),
    };
    let len = B::len_behind(line.as_bytes()).unwrap_or(0);
    match reader.block(alloc, source, len)? {
        Piece::Line(block) => Ok(NextFrame::Whole(line, block)),
        Piece::End => Ok(NextFrame::Cut),
        Piece::TooLong => Ok(NextFrame::TooLong),
        Piece::ReadFault => Ok(NextFrame::ReadFault),
    }
}
