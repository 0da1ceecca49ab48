//! A sink in memory.

ghost use Rattle.std.specs.Prelude.{◌≡◌, ◌≤◌, List, [], Some};
ghost use Rattle.base_names.specs.Outside.{Rose, Writes};

use crate::sink::{Sink, Took};
use std::alloc::Global;
use std::marker::Model;

/// What was written to it, with a list of writes that fail.
#[derive(Debug, Drop)]
pub struct MemSink {
    written: Vec<u8>,
    failing: Vec<u64>,
    calls: u64,
    faults: u64,
    refused: u64,
}

impl Model for MemSink {
    ghost use Rattle.base_io.specs.Memory.{SinkState};

    ghost Value = { SinkState };

    ghost view = { λ s. record { contents = s.written.items; failing = s.failing.items; calls = s.calls; faults = s.faults; refused = s.refused } };
}

impl MemSink {
    /// `failing` has the numbers of the writes that fail, counted from 1. Nothing is allocated.
    pub fn new(alloc: Global, failing: Vec<u64>) -> MemSink
        ensures { result ≡ record { contents = []; failing = failing.items; calls = 0; faults = 0; refused = 0 } }
    {
        MemSink {
            written: Vec::new(alloc),
            failing,
            calls: 0,
            faults: 0,
            refused: 0,
        }
    }

    /// What was written.
    pub fn bytes(&self) -> &Vec<u8>
        ensures { result.now.items ≡ self.now.contents }
    {
        &self.written
    }

    /// How many writes failed because a growth found no memory.
    pub fn refused(&self) -> u64
        ensures { result ≡ self.now.refused }
    {
        self.refused
    }
}

impl Sink for MemSink {
    ghost use Rattle.std.specs.Prelude.{Some};
    ghost use Rattle.base_io.specs.Sink.{bytes_took, TakesSome};
    ghost use Rattle.base_io.specs.Memory.{SinkTook};

    ghost name = { λ _. 0 };

    ghost contents = { λ s. Some s.contents };

    ghost faults = { λ s. s.faults };

    /// Fails exactly where the call's number is listed, or where the growth finds no memory, which
    /// raises `refused`. Else it takes the whole piece.
    fn write(&mut self, bytes: &[u8]) -> Took
        ensures count { TakesSome result bytes.now }
        ensures bytes { Writes (Some self.old.contents) (Some self.new.contents) (bytes_took result bytes.now) }
        ensures later { self.old.faults ≤ self.new.faults }
        ensures failed { result ≡ Took.Failed → Rose self.old.faults self.new.faults }
        ensures exact { SinkTook result bytes.now self.old self.new }
    {
        self.calls = self.calls.saturating_add(1);
        if self.failing.contains(&self.calls) {
            self.faults = self.faults.saturating_add(1);
            return Took::Failed;
        }
        if self.written.extend_from_slice(bytes).is_err() {
            self.faults = self.faults.saturating_add(1);
            self.refused = self.refused.saturating_add(1);
            return Took::Failed;
        }
        Took::Bytes(bytes.len())
    }
}
