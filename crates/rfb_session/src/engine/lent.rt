//! A writer of somebody else's, with a count of its failures.

ghost use Rattle.std.specs.Prelude.{◌≡◌, ◌<◌, ◌+◌, ◌-◌, ◌^◌, length, MatchResult, Some};
ghost use Rattle.std.specs.Io.{WritesAtMost};
ghost use Rattle.std.specs.Io.KnownBytes.{WriteAppends};

use crate::engine::device::Sink;
use crate::engine::failure::counted;
use std::io;
use std::io::Write;

/// A borrowed writer, with a count of its failures. What is known of its bytes is what the writer
/// gives. Once this is dropped, the writer is as the last write left it.
#[derive(Drop)]
pub struct Lent<'a, W> {
    writer: &'a mut W,
    failures: u64,
}

impl<'a, W> Lent<'a, W> {
    ghost use Rattle.rfb_session.specs.Devices.{lent_failures, lent_name, lent_writer};

    /// Counts from here on.
    pub fn new(writer: &'a mut W) -> Lent<'a, W>
        ensures name { lent_name result ≡ writer.entry.ghost_name }
        ensures writer { lent_writer result ≡ writer.old }
        ensures none { lent_failures result ≡ 0 }
    {
        Lent {
            writer,
            failures: 0,
        }
    }
}

impl<'a, W: Write> Sink for Lent<'a, W> {
    ghost written = { λ s. W.contents s.writer.now };

    ghost failed = { λ s. s.failures };

    ghost reference = { λ s. Some s.writer.ghost_name };

    fn write(&mut self, buf: &[u8]) -> io::Result<usize> {
        counted(self.writer.write(buf), buf, &mut self.failures)
    }

    fn failures(&self) -> u64 {
        self.failures
    }
}
