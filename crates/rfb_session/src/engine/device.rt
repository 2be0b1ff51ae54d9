//! Readers and writers as an engine sees them: with their bytes, where these are known, and with a
//! count of their failures.

ghost use Rattle.std.specs.Prelude.{◌≡◌, ◌<◌, ◌+◌, ◌-◌, ◌^◌, ℕ, List, Option, length, MatchResult};
ghost use Rattle.std.specs.Borrow.{GName};
ghost use Rattle.std.specs.Io.{ReadsAtMost, WritesAtMost};
ghost use Rattle.std.specs.Io.KnownBytes.{ReadConsumes, WriteAppends};

use std::io;

/// What an engine reads from. A source whose bytes are known returns 0 for a read with room only at
/// their end.
pub trait Source {
    // The bytes that reads will give from here on, where they are known.
    ghost unread: { Self → Option (List ℕ) };

    // How many reads have failed.
    ghost failed: { Self → ℕ };

    /// Reads some bytes into the front of `buf`, and returns how many. One that fails is counted,
    /// and gives none.
    fn read(&mut self, buf: &mut [u8]) -> io::Result<usize>
        requires countable { failed self.old < 2 ^ 64 - 1 }
        ensures bound { ReadsAtMost result buf.new }
        ensures bytes { ReadConsumes (unread self.old) (unread self.new) result buf.new }
        ensures count { MatchResult result
            (λ read. failed self.new ≡ failed self.old)
            (λ error. failed self.new ≡ failed self.old + 1) };

    /// How many reads have failed.
    fn failures(&self) -> u64
        ensures { result ≡ failed self.now };
}

/// What an engine writes to.
pub trait Sink {
    // The bytes that were written, where they are known.
    ghost written: { Self → Option (List ℕ) };

    // How many writes have failed.
    ghost failed: { Self → ℕ };

    // The name of the reference to what it writes to, if it borrows that.
    ghost reference: { Self → Option GName };

    /// Writes a front of `buf`, and returns how many bytes that has. A write that fails is counted,
    /// and so is one that takes none of the bytes that there are.
    fn write(&mut self, buf: &[u8]) -> io::Result<usize>
        requires countable { failed self.old < 2 ^ 64 - 1 }
        ensures bound { WritesAtMost result buf.now }
        ensures bytes { WriteAppends (written self.old) (written self.new) result buf.now }
        ensures count { MatchResult result
            (λ taken. (0 < taken → failed self.new ≡ failed self.old)
            × (taken ≡ 0 → 0 < length buf.now → failed self.new ≡ failed self.old + 1)
            × (length buf.now ≡ 0 → failed self.new ≡ failed self.old))
            (λ error. failed self.new ≡ failed self.old + 1) }
        ensures same_reference { reference self.new ≡ reference self.old };

    /// How many writes have failed.
    fn failures(&self) -> u64
        ensures { result ≡ failed self.now };
}
