//! Lines and blocks of whole inputs, and the forms in memory, over tables.

ghost use Rattle.std.specs.Prelude.{◌≡◌, None};

use base_io::{
    Got, LINE_LIMIT, LineReader, MemSink, MemSource, Piece, Sink, Source, Took, Wrote, put,
};
use base_names::{NoMemory, Text};
use std::alloc::Global;

/// Gives its bytes one by one, and tells nothing.
#[derive(Drop)]
struct Drip {
    bytes: Vec<u8>,
    at: usize,
}

impl Source for Drip {
    ghost use Rattle.std.specs.Prelude.{None};

    ghost name = { λ _. 0 };

    ghost left = { λ _. None };

    ghost faults = { λ _. 0 };

    fn read(&mut self, buf: &mut [u8]) -> Got {
        if self.at >= self.bytes.len() || buf.is_empty() {
            return Got::Bytes(0);
        }
        buf[0] = self.bytes[self.at];
        self.at += 1;
        Got::Bytes(1)
    }
}

/// Takes one byte a call, and tells nothing.
#[derive(Drop)]
struct Sip {
    bytes: Vec<u8>,
    failed: u64,
}

impl Sink for Sip {
    ghost use Rattle.std.specs.Prelude.{None};

    ghost name = { λ _. 0 };

    ghost contents = { λ _. None };

    ghost faults = { λ s. s.failed };

    fn write(&mut self, bytes: &[u8]) -> Took {
        if bytes.is_empty() {
            return Took::Bytes(0);
        }
        if self.bytes.push(bytes[0]).is_err() {
            self.failed = self.failed.saturating_add(1);
            return Took::Failed;
        }
        Took::Bytes(1)
    }
}

/// A line or a block with `|` behind it, `.` for the end, `!` for what is too long, `?` for a fault.
fn show(out: &mut Vec<u8>, piece: Piece) -> Result<(), NoMemory> {
    let mark = match piece {
        Piece::Line(line) => {
            out.extend_from_slice(line.as_bytes())?;
            b'|'
        }
        Piece::End => b'.',
        Piece::TooLong => b'!',
        Piece::ReadFault => b'?',
    };
    out.push(mark)?;
    Ok(())
}

/// So many lines.
fn lines_of<S: Source>(alloc: Global, source: &mut S, count: u32) -> Result<Vec<u8>, NoMemory> {
    let mut reader = LineReader::new(alloc);
    let mut out = Vec::new(alloc);
    for _ in 0..count {
        show(&mut out, reader.line(alloc, source)?)?;
    }
    Ok(out)
}

/// A line, and then blocks of these sizes.
fn blocks_of<S: Source>(alloc: Global, source: &mut S, sizes: &[u32]) -> Result<Vec<u8>, NoMemory> {
    let mut reader = LineReader::new(alloc);
    let mut out = Vec::new(alloc);
    show(&mut out, reader.line(alloc, source)?)?;
    for size in sizes {
        show_block(&mut out, &mut reader, alloc, source, *size)?;
    }
    Ok(out)
}

fn show_block<S: Source>(
    out: &mut Vec<u8>,
    reader: &mut LineReader,
    alloc: Global,
    source: &mut S,
    size: u32,
) -> Result<(), NoMemory>
    requires { reader.old.waiting ≡ None }
    ensures { reader.new.waiting ≡ None }
{
    let piece = reader.block(alloc, source, size)?;
    show(out, piece)
}

/// Inputs, with their first three lines.
const LINES: &[(&[u8], &[u8])] = &[
    (b"", b"..."),
    (b"\n", b"|.."),
    (b"one", b"one|.."),
    (b"one\n", b"one|.."),
    (b"one\r\ntwo\n", b"one|two|."),
    (b"one\r", b"one\r|.."),
    (b"a\rb\r\r\nc", b"a\rb\r|c|."),
    (b"\r\n\n\r\n", b"|||"),
    (b"a\n\nc\r\nd", b"a||c|"),
];

/// Three lines, where the calls fail that are listed.
fn gives(alloc: Global, input: &[u8], failing: &[u64], want: &[u8]) -> Result<bool, NoMemory> {
    let mut source = MemSource::new(input.to_vec(alloc)?, failing.to_vec(alloc)?);
    Ok(lines_of(alloc, &mut source, 3)?.as_slice() == want)
}

fn drips(alloc: Global, input: &[u8], want: &[u8]) -> Result<bool, NoMemory> {
    let mut drip = Drip {
        bytes: input.to_vec(alloc)?,
        at: 0,
    };
    Ok(lines_of(alloc, &mut drip, 3)?.as_slice() == want)
}

#[test]
fn lines_end(rt: HostRuntime) {
    for (input, want) in LINES {
        assert!(rt; gives(rt.alloc(), input, &[], want) == Ok(true));
        assert!(rt; drips(rt.alloc(), input, want) == Ok(true));
    }
}

#[test]
fn a_failing_read_loses_nothing(rt: HostRuntime) {
    let alloc = rt.alloc();
    assert!(rt; gives(alloc, b"one\ntwo", &[1], b"?one|two|") == Ok(true));
    assert!(rt; gives(alloc, b"one\ntwo", &[2], b"one|?two|") == Ok(true));
    assert!(rt; gives(alloc, b"one\ntwo", &[3], b"one|two|.") == Ok(true));
}

/// What two lines of so many bytes and this end are, by its length and its last byte.
fn is_long(alloc: Global, len: usize, end: &[u8], want: usize, last: u8) -> Result<bool, NoMemory> {
    let mut input = vec![in alloc; b'x'; len]?;
    input.extend_from_slice(end)?;
    let mut source = MemSource::new(input, Vec::new(alloc));
    let got = lines_of(alloc, &mut source, 2)?;
    Ok(got.len() == want && got.last() == Some(&last))
}

#[test]
fn long_lines(rt: HostRuntime) {
    let (alloc, whole) = (rt.alloc(), LINE_LIMIT + 2);
    assert!(rt; is_long(alloc, LINE_LIMIT, b"\n", whole, b'.') == Ok(true));
    assert!(rt; is_long(alloc, LINE_LIMIT, b"\r\n", whole, b'.') == Ok(true));
    assert!(rt; is_long(alloc, LINE_LIMIT, b"", whole, b'.') == Ok(true));
    assert!(rt; is_long(alloc, LINE_LIMIT, b"\r", 2, b'!') == Ok(true));
    assert!(rt; is_long(alloc, LINE_LIMIT, b"x\n", 2, b'!') == Ok(true));
    assert!(rt; is_long(alloc, LINE_LIMIT, b"\r\r\n", 2, b'!') == Ok(true));
    assert!(rt; is_long(alloc, LINE_LIMIT, b"x", 2, b'!') == Ok(true));
}

/// Inputs, the sizes of the blocks behind their first line, the call that fails, and what comes.
const BLOCKS: &[(&[u8], &[u32], u64, &[u8])] = &[
    (b"a\nbcdef", &[0, 2, 3], 9, b"a||bc|def|"),
    (b"a\n\nb\n", &[1, 2, 0], 9, b"a|\n|b\n||"),
    (b"a\nbc", &[3, 2, 1], 9, b"a|.bc|."),
    (b"a\nbc", &[3, 3, 2], 2, b"a|?.bc|"),
    (b"a", &[0, 1, 0], 9, b"a||.|"),
];

fn gives_blocks(
    alloc: Global,
    input: &[u8],
    sizes: &[u32],
    failing: u64,
    want: &[u8],
) -> Result<bool, NoMemory> {
    let mut source = MemSource::new(input.to_vec(alloc)?, [failing].to_vec(alloc)?);
    Ok(blocks_of(alloc, &mut source, sizes)?.as_slice() == want)
}

fn gives_a_long_block(alloc: Global) -> Result<bool, NoMemory> {
    let mut input = b"a\n".to_vec(alloc)?;
    input.extend_from_slice(vec![in alloc; b'x'; 200_000]?.as_slice())?;
    input.extend_from_slice(b"yz")?;
    let mut source = MemSource::new(input, Vec::new(alloc));
    let got = blocks_of(alloc, &mut source, &[200_000, 2, 1])?;
    Ok(got.len() == 200_007 && got.ends_with(b"xx|yz|."))
}

#[test]
fn blocks(rt: HostRuntime) {
    for (input, sizes, failing, want) in BLOCKS {
        assert!(rt; gives_blocks(rt.alloc(), input, sizes, *failing, want) == Ok(true));
    }
    assert!(rt; gives_a_long_block(rt.alloc()) == Ok(true));
}

/// A line that was given back, the first of the source, and how many bytes were taken for them.
fn comes_again(alloc: Global) -> Result<bool, NoMemory> {
    let mut source = MemSource::new(b"one\n".to_vec(alloc)?, Vec::new(alloc));
    let mut reader = LineReader::new(alloc);
    let mut out = Vec::new(alloc);
    reader.again(Text::of(b"back".to_vec(alloc)?));
    show(&mut out, reader.line(alloc, &mut source)?)?;
    show(&mut out, reader.line(alloc, &mut source)?)?;
    Ok(out.as_slice() == b"back|one|".as_slice() && reader.given() == 4)
}

#[test]
fn a_line_comes_again(rt: HostRuntime) {
    assert!(rt; comes_again(rt.alloc()) == Ok(true));
}

fn puts(alloc: Global) -> Result<bool, NoMemory> {
    let mut sink = MemSink::new(alloc, [2].to_vec(alloc)?);
    Ok(
        put(&mut sink, b"one") == Wrote::Done
            && put(&mut sink, b"") == Wrote::Done
            && put(&mut sink, b"two") == Wrote::WriteFault
            && put(&mut sink, b"two") == Wrote::Done
            && sink.bytes().as_slice() == b"onetwo".as_slice()
            && sink.refused() == 0,
    )
}

fn sips(alloc: Global) -> bool {
    let mut sip = Sip {
        bytes: Vec::new(alloc),
        failed: 0,
    };
    put(&mut &mut sip, b"three") == Wrote::Done && sip.bytes.as_slice() == b"three".as_slice()
}

#[test]
fn writes(rt: HostRuntime) {
    assert!(rt; puts(rt.alloc()) == Ok(true));
    assert!(rt; sips(rt.alloc()));
}
