//! Where bytes go to.

ghost use Rattle.std.specs.Prelude.{◌≡◌, ℕ, ◌≤◌, List, Option};
ghost use Rattle.base_names.specs.Outside.{Rose, Writes};

/// What one write took.
#[derive(Clone, Copy, Debug, PartialEq, Eq)]
pub enum Took {
    /// So many bytes from the front of the piece, at least one of a piece that isn't empty.
    Bytes(usize),
    Failed,
}

/// A sink of bytes.
pub trait Sink {
    ghost use Rattle.base_io.specs.Sink.{bytes_took, TakesSome};

    // Which object this is: for a reference, its borrow.
    ghost name: { Self → ℕ };

    // The bytes that were written, where they are told.
    ghost contents: { Self → Option (List ℕ) };

    // How often a write has failed. It never falls, and stays at 2^64 - 1 once there.
    ghost faults: { Self → ℕ };

    /// Writes some bytes from the front of the piece. `Failed` takes none.
    fn write(&mut self, bytes: &[u8]) -> Took
        ensures same { name self.new ≡ name self.old }
        ensures count { TakesSome result bytes.now }
        ensures bytes { Writes (contents self.old) (contents self.new) (bytes_took result bytes.now) }
        ensures later { faults self.old ≤ faults self.new }
        ensures failed { result ≡ Took.Failed → Rose (faults self.old) (faults self.new) };
}

impl<K: Sink> Sink for &mut K {
    ghost name = { λ k. k.ghost_name };

    ghost contents = { λ k. K.contents k.now };

    ghost faults = { λ k. K.faults k.now };

    fn write(&mut self, bytes: &[u8]) -> Took {
        K::write(&mut **self, bytes)
    }
}
