//! Bytes that were taken from a source and are not used yet.

ghost use Rattle.std.specs.Prelude.{◌≡◌, ◌<◌, ◌≤◌, ◌+◌, ◌^◌, [], ◌++◌, OnOk, OnErr, length, drop};
ghost use Rattle.base_names.specs.Outside.{IsAtEnd, Reads, Rose};
ghost use Rattle.base_io.specs.Buffered.{IsShort};
ghost use Rattle.base_io.specs.Source.{bytes_got, FitsBuffer};

use crate::limits::{LINE_LIMIT, READ_LIMIT};
use crate::source::{Got, Source};
use base_names::NoMemory;
use std::alloc::Global;
use std::marker::Model;

/// A read asks for at least so many bytes.
const READ_LEN: usize = 4_096;

/// Room for a line of the greatest length with a carriage return, and for a read.
const USUAL_LEN: usize = LINE_LIMIT + 1 + READ_LEN;

/// A part of its bytes is held: those that were read and not skipped yet.
#[derive(Debug, Drop)]
pub struct Buffer {
    bytes: Vec<u8>,
    start: usize,
    end: usize,
}

impl Model for Buffer {
    ghost use Rattle.std.specs.Prelude.{◌≤◌, ◌-◌, vec_len, slice_range};
    ghost use Rattle.base_io.specs.Buffered.{Buffered};

    ghost Value = { Buffered };

    ghost view = { λ b. record { held = slice_range b.bytes.items b.start b.end; room = vec_len b.bytes - b.end } };

    ghost invariant = { λ b. (b.start ≤ b.end) × (b.end ≤ vec_len b.bytes) };
}

impl Buffer {
    ghost use Rattle.base_io.specs.Buffered.{Fills};

    /// Nothing is held, and nothing allocated.
    pub fn new(alloc: Global) -> Buffer
        ensures { result.held ≡ [] }
    {
        Buffer {
            bytes: Vec::new(alloc),
            start: 0,
            end: 0,
        }
    }

    /// What is held.
    pub fn held(&self) -> &[u8]
        ensures { result.now ≡ self.now.held }
    {
        &self.bytes[self.start..self.end]
    }

    /// Holds the first n bytes no longer.
    pub fn skip(&mut self, n: usize)
        requires { n ≤ length self.old.held }
        ensures { self.new.held ≡ drop n self.old.held }
    {
        self.start += n;
    }

    /// Moves what is held to the front of the buffer.
    fn move_to_front(&mut self)
        ensures { self.new.held ≡ self.old.held }
    {
        self.bytes.copy_within(self.start..self.end, 0);
        self.end -= self.start;
        self.start = 0;
    }

    /// Makes room for a read. The buffer grows to twice what is held, and not to what a caller waits for. The memory that a
    /// long block took stays, for the next one.
    fn make_room(&mut self) -> Result<(), NoMemory>
        ensures held { self.new.held ≡ self.old.held }
        ensures room { OnOk result (0 < self.new.room) }
    {
        if self.is_worth_moving() {
            self.move_to_front();
        }
        if self.bytes.len() - self.end < READ_LEN {
            self.bytes.resize((2 * self.end).max(USUAL_LEN), 0)?;
        }
        Ok(())
    }

    /// Whether what is held had better stand at the front: there is no room behind it, or it is little beside what was skipped, so
    /// that a move takes less time than the bytes that it makes room for.
    fn is_worth_moving(&self) -> bool {
        self.start > 0
            && (self.bytes.len() - self.end < READ_LEN || self.end - self.start <= self.start / 16)
    }

    /// Reads once, to the end of what is held.
    pub fn read_more<S: Source>(&mut self, source: &mut S) -> Result<Got, NoMemory>
        ensures same { S.name source.new ≡ S.name source.old }
        ensures fills { Fills result self.old.held self.new.held (S.left source.old) (S.left source.new) }
        ensures later { S.faults source.old ≤ S.faults source.new }
        ensures failed { result ≡ Ok Got.Failed → Rose (S.faults source.old) (S.faults source.new) }
    {
        self.make_room()?;
        let got = read_once(source, &mut self.bytes[self.end..]);
        if let Got::Bytes(n) = got {
            self.end += n;
        }
        Ok(got)
    }
}

/// Reads once, at most READ_LIMIT bytes to the front of the room.
fn read_once<S: Source>(source: &mut S, room: &mut [u8]) -> Got
    ensures same { S.name source.new ≡ S.name source.old }
    ensures count { FitsBuffer result room.new }
    ensures short { IsShort result }
    ensures bytes { Reads (S.left source.old) (S.left source.new) (bytes_got result room.new) }
    ensures end { result ≡ Got.Bytes 0 → 0 < length room.new → IsAtEnd (S.left source.new) }
    ensures later { S.faults source.old ≤ S.faults source.new }
    ensures failed { result ≡ Got.Failed → Rose (S.faults source.old) (S.faults source.new) }
{
    let len = room.len().min(READ_LIMIT);
    source.read(&mut room[..len])
}
