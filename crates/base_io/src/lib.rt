//! Sources and sinks of bytes, their forms in memory and over std, and the reading of lines and
//! blocks.
//!
//! - [`Source`] and [`Sink`]: where bytes come from and go to. What they hold is told in contracts
//!   where it is known; each has a count of faults, and answers `Failed` only where this count rose.
//! - [`MemSource`] and [`MemSink`]: in memory, with a list of calls that fail.
//! - [`StdSource`] and [`StdSink`]: over a reader or a writer of std. They tell nothing of content, and their
//!   contracts say what they do to what std says of that reader's or writer's bytes.
//! - [`put`]: writes all of some bytes, in as many calls as it takes.
//! - [`LineReader`]: cuts the bytes of a source into lines, and into blocks of a given length.
//!
//! `specs/Source.antt` and `specs/Sink.antt` say what one call moved, `specs/Memory.antt` what the
//! forms in memory are seen as, `specs/Std.antt` what those over std do with the answers that they get, `specs/Lines.antt` what a line is, `specs/Reader.antt` what a reader
//! is seen as and what its calls do, and `specs/Frames.antt` how the bytes of a whole input are cut
//! into lines with the blocks that they ask for. For crates above, `proofs/Frames.antt`,
//! `proofs/BlockFrames.antt` and `proofs/LongFrames.antt` have the laws of frames, and
//! `proofs/Passing.antt` what several calls of a reader do together.
#![tactic(auto)]

mod buffer;
mod limits;
mod line_end;
mod memory_sink;
mod memory_source;
mod piece;
mod reader;
mod sink;
mod source;
mod std_sink;
mod std_source;
mod writing;

pub use limits::{INPUT_LIMIT, LINE_LIMIT, READ_LIMIT};
pub use memory_sink::MemSink;
pub use memory_source::MemSource;
pub use piece::Piece;
pub use reader::LineReader;
pub use sink::{Sink, Took};
pub use source::{Got, Source};
pub use std_sink::StdSink;
pub use std_source::StdSource;
pub use writing::{Wrote, put};
