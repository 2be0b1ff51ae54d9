//! What is at a door: a reader and a writer in one.

ghost use Rattle.std.specs.Prelude.{◌≡◌, ◌<◌, ℕ, Bool, List, Option, length};
ghost use Rattle.rfb_session.specs.doors.Devices.{Gives, Takes};

/// What came of one read or one write.
#[derive(Clone, Copy, Debug, Drop, PartialEq, Eq)]
pub enum Answer {
    /// So many bytes went, one at least.
    Moved(usize),
    /// All bytes have been read. A write never answers this.
    Ended,
    /// Nothing went, and it may be tried again at once.
    Again,
    /// Nothing goes until the door is ready again.
    Waits,
    /// It failed. The failure is counted, and nothing went.
    Failed,
}

/// A reader and a writer at a door. A read leaves what was written as it is, and a write what is
/// still to be read. Both leave it there.
pub trait Device {
    // The bytes that reads will give from here on, where they are known.
    ghost unread: { Self → Option (List ℕ) };

    // The bytes that were written, where they are known.
    ghost written: { Self → Option (List ℕ) };

    // How many reads and writes have failed.
    ghost failed: { Self → ℕ };

    // Whether anything is there.
    ghost stands: { Self → Bool };

    /// Reads some bytes into the front of `buf`, once, and returns how that went.
    fn read(&mut self, buf: &mut [u8]) -> Answer
        requires some { 0 < length buf.old }
        ensures gives { Gives result (unread self.old) (unread self.new)
            (written self.old) (written self.new) (failed self.old) (failed self.new) buf.new }
        ensures stays { stands self.new ≡ stands self.old };

    /// Writes a front of `buf`, once, and returns how that went.
    fn write(&mut self, buf: &[u8]) -> Answer
        requires some { 0 < length buf.now }
        ensures takes { Takes result (unread self.old) (unread self.new)
            (written self.old) (written self.new) (failed self.old) (failed self.new) buf.now }
        ensures stays { stands self.new ≡ stands self.old };
}
