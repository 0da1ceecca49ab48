//! A source over a reader of std.

ghost use Rattle.std.specs.Prelude.{◌≡◌, ◌≤◌, ◌<◌, None, length};
ghost use Rattle.base_names.specs.Outside.{Rose, Reads, IsAtEnd};
ghost use Rattle.base_io.specs.Std.{IsAnswerOfRead, ReadsInner};

use crate::source::{Got, Source};
use std::io::{self, ErrorKind, Read};

/// A reader of std. It tells nothing of what it holds, and counts its errors. An interrupted read is
/// tried again.
#[derive(Debug, Drop)]
pub struct StdSource<X> {
    inner: X,
    failed: u64,
}

impl<X> StdSource<X> {
    /// No error so far.
    pub fn new(inner: X) -> StdSource<X>
        ensures inner { result.inner ≡ inner }
        ensures failed { result.failed ≡ 0 }
    {
        StdSource { inner, failed: 0 }
    }
}

impl<X: Read> Source for StdSource<X> {
    ghost use Rattle.std.specs.Prelude.{None};
    ghost use Rattle.base_io.specs.Source.{bytes_got, FitsBuffer};

    ghost name = { λ _. 0 };

    ghost left = { λ _. None };

    ghost faults = { λ s. s.failed };

    fn read(&mut self, buf: &mut [u8]) -> Got
        ensures count { FitsBuffer result buf.new }
        ensures later { self.old.failed ≤ self.new.failed }
        ensures failed { result ≡ Got.Failed → Rose self.old.failed self.new.failed }
        ensures inner { ReadsInner (X.remaining self.old.inner) (X.remaining self.new.inner) result buf.new }
    {
        for _ in 0..u64::MAX {
            match answer_of(self.inner.read(buf)) {
                Some(Got::Bytes(n)) => return Got::Bytes(n),
                Some(Got::Failed) => break,
                None => {}
            }
        }
        self.failed = self.failed.saturating_add(1);
        Got::Failed
    }
}

/// What comes of an answer of the reader. `None` where it was interrupted.
fn answer_of(read: io::Result<usize>) -> Option<Got>
    ensures { IsAnswerOfRead read result }
{
    match read {
        Ok(n) => Some(Got::Bytes(n)),
        Err(error) if error.kind() == ErrorKind::Interrupted => None,
        Err(_) => Some(Got::Failed),
    }
}
