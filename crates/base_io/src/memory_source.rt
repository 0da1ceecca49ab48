//! A source in memory.

ghost use Rattle.std.specs.Prelude.{◌≡◌, ◌≤◌, ◌<◌, List, [], Some, length};
ghost use Rattle.base_names.specs.Outside.{Rose, Reads, IsAtEnd};

use crate::source::{Got, Source};
use std::marker::Model;

/// The bytes that it was made of, with a list of reads that fail.
#[derive(Debug, Drop)]
pub struct MemSource {
    bytes: Vec<u8>,
    at: usize,
    failing: Vec<u64>,
    calls: u64,
    faults: u64,
}

impl Model for MemSource {
    ghost use Rattle.std.specs.Prelude.{◌≤◌, drop, vec_len};
    ghost use Rattle.base_io.specs.Memory.{SourceState};

    ghost Value = { SourceState };

    ghost view = { λ s. record { left = drop s.at s.bytes.items; failing = s.failing.items; calls = s.calls; faults = s.faults } };

    ghost invariant = { λ s. s.at ≤ vec_len s.bytes };
}

impl MemSource {
    /// `failing` has the numbers of the reads that fail, counted from 1.
    pub fn new(bytes: Vec<u8>, failing: Vec<u64>) -> MemSource
        ensures { result ≡ record { left = bytes.items; failing = failing.items; calls = 0; faults = 0 } }
    {
        MemSource {
            bytes,
            at: 0,
            failing,
            calls: 0,
            faults: 0,
        }
    }
}

impl Source for MemSource {
    ghost use Rattle.std.specs.Prelude.{Some};
    ghost use Rattle.base_io.specs.Source.{bytes_got, FitsBuffer};
    ghost use Rattle.base_io.specs.Memory.{SourceGave};

    ghost name = { λ _. 0 };

    ghost left = { λ s. Some s.left };

    ghost faults = { λ s. s.faults };

    /// Fails exactly where the call's number is listed. Else it fills the buffer as far as its bytes
    /// go.
    fn read(&mut self, buf: &mut [u8]) -> Got
        ensures count { FitsBuffer result buf.new }
        ensures bytes { Reads (Some self.old.left) (Some self.new.left) (bytes_got result buf.new) }
        ensures end { result ≡ Got.Bytes 0 → 0 < length buf.new → self.new.left ≡ [] }
        ensures later { self.old.faults ≤ self.new.faults }
        ensures failed { result ≡ Got.Failed → Rose self.old.faults self.new.faults }
        ensures exact { SourceGave result (length buf.old) self.old self.new }
    {
        self.calls = self.calls.saturating_add(1);
        if self.failing.contains(&self.calls) {
            self.faults = self.faults.saturating_add(1);
            return Got::Failed;
        }
        let rest = &self.bytes[self.at..];
        let n = rest.len().min(buf.len());
        buf[..n].copy_from_slice(&rest[..n]);
        self.at += n;
        Got::Bytes(n)
    }
}
