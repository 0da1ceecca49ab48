//! A sink over a writer of std.

ghost use Rattle.std.specs.Prelude.{◌≡◌, ◌≤◌, None};
ghost use Rattle.base_names.specs.Outside.{Rose, Writes};
ghost use Rattle.base_io.specs.Std.{IsAnswerOfWrite, WritesInner};

use crate::sink::{Sink, Took};
use std::io::{self, ErrorKind, Write};

/// A writer of std. It tells nothing of what was written, and counts its errors. An interrupted write is
/// tried again, and one that takes nothing is an error.
#[derive(Debug, Drop)]
pub struct StdSink<X> {
    inner: X,
    failed: u64,
}

impl<X> StdSink<X> {
    /// No error so far.
    pub fn new(inner: X) -> StdSink<X>
        ensures inner { result.inner ≡ inner }
        ensures failed { result.failed ≡ 0 }
    {
        StdSink { inner, failed: 0 }
    }
}

impl<X: Write> Sink for StdSink<X> {
    ghost use Rattle.std.specs.Prelude.{None};
    ghost use Rattle.base_io.specs.Sink.{bytes_took, TakesSome};

    ghost name = { λ _. 0 };

    ghost contents = { λ _. None };

    ghost faults = { λ s. s.failed };

    fn write(&mut self, bytes: &[u8]) -> Took
        ensures count { TakesSome result bytes.now }
        ensures later { self.old.failed ≤ self.new.failed }
        ensures failed { result ≡ Took.Failed → Rose self.old.failed self.new.failed }
        ensures inner { WritesInner (X.contents self.old.inner) (X.contents self.new.inner) result bytes.now }
    {
        for _ in 0..u64::MAX {
            match answer_of(self.inner.write(bytes)) {
                Some(Took::Bytes(n)) => return Took::Bytes(n),
                Some(Took::Failed) => break,
                None => {}
            }
        }
        self.failed = self.failed.saturating_add(1);
        Took::Failed
    }
}

/// What comes of an answer of the writer. `None` where it was interrupted.
fn answer_of(write: io::Result<usize>) -> Option<Took>
    ensures { IsAnswerOfWrite write result }
{
    match write {
        Ok(0) => Some(Took::Failed),
        Ok(n) => Some(Took::Bytes(n)),
        Err(error) if error.kind() == ErrorKind::Interrupted => None,
        Err(_) => Some(Took::Failed),
    }
}
