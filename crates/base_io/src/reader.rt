//! Lines and blocks of the bytes of a source.

ghost use Rattle.std.specs.Prelude.{◌≡◌, ◌≤◌, ◌<◌, ◌+◌, ℕ, true, false, List, [], Option, None, Some, Ok, IfSome, IfOk, OnErr, length, take, drop};
ghost use Rattle.base_names.specs.Outside.{Rose};
ghost use Rattle.base_io.specs.Lines.{IsEndAt};
ghost use Rattle.base_io.specs.declared.limits.TheConstants.{INPUT_LIMIT};

use crate::buffer::Buffer;
use crate::limits::LINE_LIMIT;
use crate::line_end::{LineEnd, is_input_too_long, is_line_too_long, line_feed_place, trim_return};
use crate::piece::Piece;
use crate::source::{Got, Source};
use base_names::{NoMemory, Text};
use std::alloc::Global;
use std::marker::Model;

/// Cuts the bytes of a source into lines and blocks. What it has taken from the source and not given
/// yet comes before what the source has left. Every call of one reader is to be given the same source.
#[derive(Debug, Drop)]
pub struct LineReader {
    buffer: Buffer,
    ended: bool,
    given: u64,
    waiting: Option<Text>,
}

impl Model for LineReader {
    ghost use Rattle.std.specs.Prelude.{◌<◌};
    ghost use Rattle.base_io.specs.Held.{Held};
    ghost use Rattle.base_io.specs.declared.limits.TheConstants.{INPUT_LIMIT};

    ghost Value = { Held };

    ghost view = { λ r. record { bytes = r.buffer.held; ended = r.ended; given = r.given; waiting = r.waiting } };

    ghost invariant = { λ r. r.given < INPUT_LIMIT };
}

impl LineReader {
    ghost use Rattle.base_io.specs.Reader.{GivesLine, GivesBlock, IsPartOfLine, FindsLineEnd};

    /// Keeps the allocator, and allocates nothing.
    pub fn new(alloc: Global) -> LineReader
        ensures { result ≡ record { bytes = []; ended = false; given = 0; waiting = None } }
    {
        LineReader {
            buffer: Buffer::new(alloc),
            ended: false,
            given: 0,
            waiting: None,
        }
    }

    /// How many bytes were given so far. Line feeds and dropped carriage returns count, and a line
    /// that was given back counts once.
    pub fn given(&self) -> u64
        ensures count { result ≡ self.now.given }
        ensures below { result < INPUT_LIMIT }
    {
        self.given
    }

    /// The bytes that were taken from the source and not given yet.
    pub fn held(&self) -> &[u8]
        ensures { result.now ≡ self.now.bytes }
    {
        self.buffer.held()
    }

    /// The next line. `End` where the input ends before a byte of it. Where no line is given, what was
    /// read meanwhile is kept for the next call.
    pub fn line<S: Source>(&mut self, alloc: Global, source: &mut S) -> Result<Piece, NoMemory>
        ensures same { S.name source.new ≡ S.name source.old }
        ensures later { S.faults source.old ≤ S.faults source.new }

        // A line that was given back comes first, and nothing is read.
        ensures again { IfSome self.old.waiting (λ line.
            (result ≡ Ok (Piece.Line line)) × (self.new ≡ record self.old { waiting = None })
            × (S.left source.new ≡ S.left source.old)) }

        ensures line { self.old.waiting ≡ None → GivesLine result self.old self.new (S.left source.old) (S.left source.new) }
        ensures none_waits { self.new.waiting ≡ None }
        ensures fault { result ≡ Ok Piece.ReadFault → Rose (S.faults source.old) (S.faults source.new) }
    {
        if let Some(line) = self.waiting.take() {
            return Ok(Piece::Line(line));
        }
        match self.find_line_end(source)? {
            LineEnd::At(place) => self.ended_line(alloc, place),
            LineEnd::Input => self.last_line(alloc),
            LineEnd::TooLong => Ok(Piece::TooLong),
            LineEnd::ReadFault => Ok(Piece::ReadFault),
        }
    }

    /// The next k bytes, as `Line`. `End` where the input ends sooner. Where no block is given, what
    /// was read meanwhile is kept for the next call.
    pub fn block<S: Source>(
        &mut self,
        alloc: Global,
        source: &mut S,
        k: u32,
    ) -> Result<Piece, NoMemory>
        requires { self.old.waiting ≡ None }
        ensures same { S.name source.new ≡ S.name source.old }
        ensures later { S.faults source.old ≤ S.faults source.new }
        ensures block { GivesBlock k result self.old self.new (S.left source.old) (S.left source.new) }
        ensures none_waits { self.new.waiting ≡ None }
        ensures fault { result ≡ Ok Piece.ReadFault → Rose (S.faults source.old) (S.faults source.new) }
    {
        let wanted = k as usize;
        while self.buffer.held().len() < wanted {
            if is_input_too_long(self.given, self.buffer.held().len()) {
                return Ok(Piece::TooLong);
            }
            if self.ended {
                return Ok(Piece::End);
            }
            match self.buffer.read_more(source)? {
                Got::Bytes(0) => self.ended = true,
                Got::Bytes(_) => {}
                Got::Failed => return Ok(Piece::ReadFault),
            }
        }
        if is_input_too_long(self.given, wanted) {
            return Ok(Piece::TooLong);
        }
        self.give(alloc, wanted, wanted)
    }

    /// Gives a line back: the next call of `line` gives it.
    pub fn again(&mut self, line: Text)
        requires { self.old.waiting ≡ None }
        ensures { self.new ≡ record self.old { waiting = Some line } }
    {
        self.waiting = Some(line);
    }

    /// Reads until the end of the line is held. Nothing is given.
    fn find_line_end<S: Source>(&mut self, source: &mut S) -> Result<LineEnd, NoMemory>
        requires { self.old.waiting ≡ None }
        ensures same { S.name source.new ≡ S.name source.old }
        ensures later { S.faults source.old ≤ S.faults source.new }
        ensures found { FindsLineEnd result self.old self.new (S.left source.old) (S.left source.new) }
        ensures none_waits { self.new.waiting ≡ None }
        ensures fault { result ≡ Ok LineEnd.ReadFault → Rose (S.faults source.old) (S.faults source.new) }
    {
        let mut scanned = 0;
        loop {
            let held = self.buffer.held();
            if let Some(place) = line_feed_place(&held[scanned..]) {
                return Ok(LineEnd::At(scanned + place));
            }
            scanned = held.len();
            if is_line_too_long(held) || is_input_too_long(self.given, scanned) {
                return Ok(LineEnd::TooLong);
            }
            if self.ended {
                return Ok(LineEnd::Input);
            }
            match self.buffer.read_more(source)? {
                Got::Bytes(0) => self.ended = true,
                Got::Bytes(_) => {}
                Got::Failed => return Ok(LineEnd::ReadFault),
            }
        }
    }

    /// The line that a line feed at this place ends.
    fn ended_line(&mut self, alloc: Global, place: usize) -> Result<Piece, NoMemory>
        requires waiting { self.old.waiting ≡ None }
        requires end { IsEndAt place self.old.bytes }
        ensures line { (left : Option (List ℕ)) → GivesLine result self.old self.new left left }
        ensures none_waits { self.new.waiting ≡ None }
        ensures no_fault { result ≡ Ok Piece.ReadFault → ⊥ }
    {
        let len = trim_return(&self.buffer.held()[..place]).len();
        if len > LINE_LIMIT || is_input_too_long(self.given, place + 1) {
            return Ok(Piece::TooLong);
        }
        self.give(alloc, len, place + 1)
    }

    /// What is held, as the last line of the input.
    fn last_line(&mut self, alloc: Global) -> Result<Piece, NoMemory>
        requires waiting { self.old.waiting ≡ None }
        requires ended { self.old.ended ≡ true }
        requires part { IsPartOfLine self.old }
        ensures line { (left : Option (List ℕ)) → GivesLine result self.old self.new left left }
        ensures none_waits { self.new.waiting ≡ None }
        ensures no_fault { result ≡ Ok Piece.ReadFault → ⊥ }
    {
        let len = self.buffer.held().len();
        if len == 0 {
            return Ok(Piece::End);
        }
        if len > LINE_LIMIT {
            return Ok(Piece::TooLong);
        }
        self.give(alloc, len, len)
    }

    /// Gives the first `len` bytes, and passes over so many in all.
    fn give(&mut self, alloc: Global, len: usize, passed: usize) -> Result<Piece, NoMemory>
        requires short { len ≤ passed }
        requires held { passed ≤ length self.old.bytes }
        requires below { self.old.given + passed < INPUT_LIMIT }
        ensures ok { IfOk result (λ piece. (piece ≡ Piece.Line (take len self.old.bytes))
            × (self.new ≡ record self.old { bytes = drop passed self.old.bytes; given = self.old.given + passed })) }
        ensures err { OnErr result (self.new ≡ self.old) }
        ensures waiting { self.new.waiting ≡ self.old.waiting }
    {
        let bytes = Vec::from_slice(alloc, &self.buffer.held()[..len])?;
        self.buffer.skip(passed);
        self.given += passed as u64;
        Ok(Piece::Line(Text::of(bytes)))
    }
}
