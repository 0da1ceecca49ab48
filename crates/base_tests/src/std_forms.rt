//! The forms over std, over a reader and a writer that are interrupted, fail, and move little at once.

use base_io::{Got, LineReader, Piece, Sink, Source, StdSink, StdSource, Took, Wrote, put};
use base_names::NoMemory;
use std::alloc::Global;
use std::io::{self, ErrorKind, Read, Write};

/// What one call does.
#[derive(Clone, Copy)]
enum Call {
    Interrupted,
    Broken,
    /// Nothing is moved.
    Nothing,
    /// So many bytes at most are moved.
    AtMost(usize),
}

impl Call {
    fn most(self) -> io::Result<usize> {
        match self {
            Call::Interrupted => Err(io::Error::from(ErrorKind::Interrupted)),
            Call::Broken => Err(io::Error::from(ErrorKind::BrokenPipe)),
            Call::Nothing => Ok(0),
            Call::AtMost(most) => Ok(most),
        }
    }
}

/// A reader or a writer whose calls do as they are listed, and then move all that they can.
#[derive(Drop)]
struct Patchy {
    bytes: Vec<u8>,
    at: usize,
    calls: Vec<Call>,
    made: usize,
}

impl Patchy {
    fn new(bytes: Vec<u8>, calls: Vec<Call>) -> Patchy {
        Patchy {
            bytes,
            at: 0,
            calls,
            made: 0,
        }
    }

    fn most(&mut self) -> io::Result<usize> {
        let call = self.calls.get(self.made).copied();
        self.made = self.made.saturating_add(1);
        call.unwrap_or(Call::AtMost(usize::MAX)).most()
    }
}

impl Read for Patchy {
    fn read(&mut self, buf: &mut [u8]) -> io::Result<usize> {
        let most = self.most()?;
        let rest = self.bytes.get(self.at..).unwrap_or(&[]);
        let n = rest.len().min(buf.len()).min(most);
        buf[..n].copy_from_slice(&rest[..n]);
        self.at = self.at.saturating_add(n);
        Ok(n)
    }
}

impl Write for Patchy {
    fn write(&mut self, buf: &[u8]) -> io::Result<usize> {
        let n = buf.len().min(self.most()?);
        self.bytes.extend_from_slice(&buf[..n])?;
        Ok(n)
    }

    fn flush(&mut self) -> io::Result<()> {
        Ok(())
    }
}

const READING: &[Call] = &[
    Call::Interrupted,
    Call::AtMost(1),
    Call::Interrupted,
    Call::Interrupted,
    Call::Broken,
    Call::AtMost(2),
];

/// What each read gives, and what the buffer holds then.
const READS: &[(Got, &[u8])] = &[
    (Got::Bytes(1), b"o.."),
    (Got::Failed, b"o.."),
    (Got::Bytes(2), b"ne."),
    (Got::Bytes(1), b"\ne."),
    (Got::Bytes(0), b"\ne."),
];

fn is_passed_on(alloc: Global) -> Result<bool, NoMemory> {
    let patchy = Patchy::new(b"one\n".to_vec(alloc)?, READING.to_vec(alloc)?);
    let mut source = StdSource::new(patchy);
    let mut buf = [b'.'; 3];
    for (want, holds) in READS {
        if source.read(&mut buf) != *want || buf.as_slice() != *holds {
            return Ok(false);
        }
    }
    Ok(true)
}

#[test]
fn a_reader_of_std_is_passed_on(rt: HostRuntime) {
    assert!(rt; is_passed_on(rt.alloc()) == Ok(true));
}

fn is_line(piece: &Piece, text: &[u8]) -> bool {
    matches!(piece, Piece::Line(line) if line.as_bytes() == text)
}

fn lines_come(alloc: Global) -> Result<bool, NoMemory> {
    let mut calls = [Call::AtMost(1); 4].to_vec(alloc)?;
    calls.extend_from_slice(&[Call::Interrupted, Call::Broken, Call::AtMost(1)])?;
    let mut source = StdSource::new(Patchy::new(b"one\ntwo".to_vec(alloc)?, calls));
    let mut reader = LineReader::new(alloc);
    Ok(
        is_line(&reader.line(alloc, &mut source)?, b"one")
            && matches!(reader.line(alloc, &mut source)?, Piece::ReadFault)
            && is_line(&reader.line(alloc, &mut source)?, b"two")
            && matches!(reader.line(alloc, &mut source)?, Piece::End),
    )
}

#[test]
fn lines_come_of_a_reader_of_std(rt: HostRuntime) {
    assert!(rt; lines_come(rt.alloc()) == Ok(true));
}

const WRITING: &[Call] = &[
    Call::AtMost(2),
    Call::Interrupted,
    Call::AtMost(2),
    Call::Broken,
    Call::Nothing,
    Call::AtMost(2),
    Call::Broken,
];

fn all_is_put(alloc: Global) -> Result<bool, NoMemory> {
    let mut writer = Patchy::new(Vec::new(alloc), WRITING.to_vec(alloc)?);
    let mut sink = StdSink::new(&mut writer);
    let are_told = sink.write(b"one") == Took::Bytes(2)
        && put(&mut sink, b"e") == Wrote::Done
        && put(&mut sink, b"two") == Wrote::WriteFault
        && put(&mut sink, b"two") == Wrote::WriteFault
        && put(&mut sink, b"two") == Wrote::WriteFault
        && put(&mut sink, b"three") == Wrote::Done;
    Ok(are_told && writer.bytes.as_slice() == b"onetwthree".as_slice())
}

#[test]
fn all_is_put_onto_a_writer_of_std(rt: HostRuntime) {
    assert!(rt; all_is_put(rt.alloc()) == Ok(true));
}
