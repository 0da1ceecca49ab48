//! The bytes of a source to its end.

ghost use Rattle.std.specs.Prelude.{◌≡◌, ◌≤◌, ◌<◌, ◌^◌, ◌-◌, Ok};
ghost use Rattle.base_names.specs.Outside.{Rose};
ghost use Rattle.whole_input.specs.Whole.{ReadsWhole};

use base_io::{LineReader, Piece, Source};
use base_names::NoMemory;
use std::alloc::Global;
use std::marker::Model;

/// A whole input, seen as its bytes.
#[derive(Debug, Drop)]
pub struct Input {
    reader: LineReader,
}

impl Model for Input {
    ghost use Rattle.std.specs.Prelude.{ℕ, List};

    ghost Value = { List ℕ };

    ghost view = { λ i. i.reader.bytes };
}

impl Input {
    ghost use Rattle.std.specs.Prelude.{◌≡◌};

    /// Its bytes.
    pub fn as_bytes(&self) -> &[u8]
        ensures { result.now ≡ self.now }
    {
        self.reader.held()
    }
}

/// How the reading of a whole input ended.
#[derive(Debug, Drop)]
pub enum Whole {
    /// The input to its end.
    Read(Input),
    /// It has more bytes than are allowed.
    TooLong,
    ReadFault,
}

/// Reads the input to its end, or until it has more than `limit` bytes. Each byte that was taken is in memory once.
pub fn read_whole<S: Source>(alloc: Global, source: &mut S, limit: u32) -> Result<Whole, NoMemory>
    requires { limit < 2 ^ 32 - 1 }
    ensures same { S.name source.new ≡ S.name source.old }
    ensures later { S.faults source.old ≤ S.faults source.new }
    ensures whole { ReadsWhole limit result (S.left source.old) (S.left source.new) }
    ensures fault { result ≡ Ok Whole.ReadFault → Rose (S.faults source.old) (S.faults source.new) }
{
    let mut reader = LineReader::new(alloc);
    match reader.block(alloc, source, limit + 1)? {
        Piece::End => Ok(Whole::Read(Input { reader })),
        // One byte more than is allowed has come.
        Piece::Line(_) => Ok(Whole::TooLong),
        Piece::TooLong => Ok(Whole::TooLong),
        Piece::ReadFault => Ok(Whole::ReadFault),
    }
}
