//! Where bytes come from.

ghost use Rattle.std.specs.Prelude.{◌≡◌, ℕ, ◌≤◌, ◌<◌, List, Option, length};
ghost use Rattle.base_names.specs.Outside.{Rose, Reads, IsAtEnd};

/// What one read gave.
#[derive(Clone, Copy, Debug, PartialEq, Eq)]
pub enum Got {
    /// So many bytes were put at the front of the buffer. None, for a buffer that isn't empty, is the
    /// end of the input.
    Bytes(usize),
    Failed,
}

/// A source of bytes.
pub trait Source {
    ghost use Rattle.base_io.specs.Source.{bytes_got, FitsBuffer};

    // Which object this is: for a reference, its borrow.
    ghost name: { Self → ℕ };

    // The bytes still to come, where they are told.
    ghost left: { Self → Option (List ℕ) };

    // How often a read has failed. It never falls, and stays at 2^64 - 1 once there.
    ghost faults: { Self → ℕ };

    /// Reads some bytes to the front of the buffer. `Failed` takes none.
    fn read(&mut self, buf: &mut [u8]) -> Got
        ensures same { name self.new ≡ name self.old }
        ensures count { FitsBuffer result buf.new }
        ensures bytes { Reads (left self.old) (left self.new) (bytes_got result buf.new) }
        ensures end { result ≡ Got.Bytes 0 → 0 < length buf.new → IsAtEnd (left self.new) }
        ensures later { faults self.old ≤ faults self.new }
        ensures failed { result ≡ Got.Failed → Rose (faults self.old) (faults self.new) };
}

impl<S: Source> Source for &mut S {
    ghost name = { λ s. s.ghost_name };

    ghost left = { λ s. S.left s.now };

    ghost faults = { λ s. S.faults s.now };

    fn read(&mut self, buf: &mut [u8]) -> Got {
        S::read(&mut **self, buf)
    }
}
