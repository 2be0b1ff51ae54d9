//! What the system gives to be read and written, as a device.

ghost use Rattle.std.specs.Prelude.{◌≡◌, ℕ, List, Option, if◌then◌else◌, true};
ghost use Rattle.std.specs.Io.{ReadsAtMost, WritesAtMost};
ghost use Rattle.std.specs.Io.KnownBytes.{ReadConsumes, WriteAppends, Keeps};

use crate::doors::device::{Answer, Device};
use std::io;
use std::io::ErrorKind;

/// A reader and a writer in one, in std's words. A read leaves what was written as it is, and a
/// write what is still to be read.
pub trait Duplex {
    // The bytes that reads will give from here on, where they are known.
    ghost unread: { Self → Option (List ℕ) };

    // The bytes that were written, where they are known.
    ghost written: { Self → Option (List ℕ) };

    /// Reads some bytes into the front of `buf`, and returns how many. Into a buffer with room it
    /// gives none only at the end.
    fn read(&mut self, buf: &mut [u8]) -> io::Result<usize>
        ensures bound { ReadsAtMost result buf.new }
        ensures bytes { ReadConsumes (unread self.old) (unread self.new) result buf.new }
        ensures kept { Keeps (written self.old) (written self.new) };

    /// Writes a front of `buf`, and returns how many bytes that has.
    fn write(&mut self, buf: &[u8]) -> io::Result<usize>
        ensures bound { WritesAtMost result buf.now }
        ensures bytes { WriteAppends (written self.old) (written self.new) result buf.now }
        ensures kept { Keeps (unread self.old) (unread self.new) };
}

/// A duplex with one failure at most: after it nothing is read or written there any more.
#[derive(Debug, Drop)]
pub struct Counted<S> {
    inner: S,
    has_failed: bool,
}

impl<S> Counted<S> {
    ghost use Rattle.rfb_session.specs.declared.doors.device.Answer.TheVariants as Answer;
    ghost use Rattle.std.specs.IoError.{error_kind};
    ghost use Rattle.rfb_session.specs.doors.CountedDuplex.{within, failures, Counts, Means};

    /// Counts from here on.
    pub fn new(inner: S) -> Counted<S>
        ensures within { within result ≡ inner }
        ensures none { failures result ≡ 0 }
    {
        Counted {
            inner,
            has_failed: false,
        }
    }

    // It has failed: nothing is read or written any more.
    fn fail(&mut self) -> Answer
        ensures answer { result ≡ Answer.Failed }
        ensures failed { self.new ≡ record self.old { has_failed = true } }
    {
        self.has_failed = true;
        Answer::Failed
    }

    // What an error means. A failure is counted.
    fn answer_to(&mut self, error: &io::Error) -> Answer
        ensures means { Means (error_kind error.now) result }
        ensures counts { Counts result self.old self.new }
    {
        match error.kind() {
            ErrorKind::Interrupted => Answer::Again,
            ErrorKind::WouldBlock => Answer::Waits,
            _ => self.fail(),
        }
    }

    /// Gives the duplex back.
    pub fn into_inner(self) -> S
        ensures { result ≡ within self }
    {
        self.inner
    }
}

/// An error that says to try again is `Again`, one that says to wait is `Waits`. All others are
/// failures, and so is a write that takes none.
impl<S: Duplex> Device for Counted<S> {
    ghost unread = { λ c. S.unread c.inner };

    ghost written = { λ c. S.written c.inner };

    ghost failed = { λ c. if c.has_failed then 1 else 0 };

    ghost stands = { λ c. true };

    fn read(&mut self, buf: &mut [u8]) -> Answer {
        if self.has_failed {
            return Answer::Waits;
        }
        match self.inner.read(buf) {
            Ok(0) => Answer::Ended,
            Ok(count) => Answer::Moved(count),
            Err(error) => self.answer_to(&error),
        }
    }

    fn write(&mut self, buf: &[u8]) -> Answer {
        if self.has_failed {
            return Answer::Waits;
        }
        match self.inner.write(buf) {
            Ok(0) => self.fail(),
            Ok(count) => Answer::Moved(count),
            Err(error) => self.answer_to(&error),
        }
    }
}
