//! All of some bytes to a sink.

ghost use Rattle.std.specs.Prelude.{◌≡◌, ◌≤◌, List, ℕ, ◌++◌};
ghost use Rattle.base_names.specs.Outside.{Rose, Writes};
ghost use Rattle.base_names.specs.Prefix.{IsPrefix};

use crate::sink::{Sink, Took};

/// How a write of all of some bytes ended.
#[derive(Clone, Copy, Debug, PartialEq, Eq)]
pub enum Wrote {
    Done,
    /// A front of the bytes is written.
    WriteFault,
}

/// Writes all the bytes, in as many calls as the sink wants.
pub fn put<K: Sink>(sink: &mut K, bytes: &[u8]) -> Wrote
    ensures same { K.name sink.new ≡ K.name sink.old }
    ensures done { result ≡ Wrote.Done → Writes (K.contents sink.old) (K.contents sink.new) bytes.now }
    ensures front { (front : List ℕ) × (rest : List ℕ) × (bytes.now ≡ front ++ rest)
        × Writes (K.contents sink.old) (K.contents sink.new) front }
    ensures later { K.faults sink.old ≤ K.faults sink.new }
    ensures fault { result ≡ Wrote.WriteFault → Rose (K.faults sink.old) (K.faults sink.new) }
{
    let mut at = 0;
    while at < bytes.len() {
        match sink.write(&bytes[at..]) {
            Took::Bytes(n) => at += n,
            Took::Failed => return Wrote::WriteFault,
        }
    }
    Wrote::Done
}
