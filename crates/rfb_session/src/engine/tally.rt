//! Any reader or writer, with a count of its failures.

ghost use Rattle.std.specs.Prelude.{◌≡◌, ◌<◌, ◌+◌, ◌-◌, ◌^◌, length, MatchResult, None};
ghost use Rattle.std.specs.Io.{ReadsAtMost, WritesAtMost};
ghost use Rattle.std.specs.Io.KnownBytes.{ReadConsumes, WriteAppends};

use crate::engine::device::{Sink, Source};
use crate::engine::failure::counted;
use std::io;
use std::io::{Read, Write};

/// A reader or a writer, with a count of its failures. What is known of its bytes is what that one
/// gives.
#[derive(Debug, Drop)]
pub struct Tally<T> {
    inner: T,
    failures: u64,
}

impl<T> Tally<T> {
    ghost use Rattle.rfb_session.specs.Devices.{counted, within};

    /// Counts from here on.
    pub fn new(inner: T) -> Tally<T>
        ensures within { within result ≡ inner }
        ensures none { counted result ≡ 0 }
    {
        Tally { inner, failures: 0 }
    }

    /// Gives the reader or writer back.
    pub fn into_inner(self) -> T
        ensures { result ≡ within self }
    {
        self.inner
    }
}

impl<R: Read> Source for Tally<R> {
    ghost unread = { λ t. R.remaining t.inner };

    ghost failed = { λ t. t.failures };

    fn read(&mut self, buf: &mut [u8]) -> io::Result<usize> {
        let result = self.inner.read(buf);
        if result.is_err() {
            self.failures += 1;
        }
        result
    }

    fn failures(&self) -> u64 {
        self.failures
    }
}

impl<W: Write> Sink for Tally<W> {
    ghost written = { λ t. W.contents t.inner };

    ghost failed = { λ t. t.failures };

    ghost reference = { λ t. None };

    fn write(&mut self, buf: &[u8]) -> io::Result<usize> {
        counted(self.inner.write(buf), buf, &mut self.failures)
    }

    fn failures(&self) -> u64 {
        self.failures
    }
}
