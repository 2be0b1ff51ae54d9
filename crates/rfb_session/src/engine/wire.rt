//! A reader and a writer in one, whose reads and writes have an order.

ghost use Rattle.std.specs.Prelude.{◌<◌, ◌-◌, ◌^◌, length};
ghost use Rattle.std.specs.Io.{ReadsAtMost, WritesAtMost};
ghost use Rattle.rfb_session.specs.Wire.{Known, ReadSteps, Stepping, Tells, WireStep, WriteSteps};

use std::io;

/// What an engine reads from and writes to, as one. It goes step by step, each from how the step
/// before left the wire. So a contract can say what was written before a read.
pub trait Wire {
    // What is known of its bytes and its failures.
    ghost known: { Self → Known };

    // What a step may be, as each wire defines its own.
    ghost steps: { Stepping Self };

    /// Reads some bytes into the front of `buf`, and returns how many; at the end none. One that
    /// fails is counted, and gives none.
    fn read(&mut self, buf: &mut [u8]) -> io::Result<usize>
        requires some { 0 < length buf.old }
        requires countable { (known self.old).failed_reads < 2 ^ 64 - 1 }
        ensures bound { ReadsAtMost result buf.new }
        ensures stepped { ReadSteps steps self.old result buf.new self.new };

    /// Writes a front of `buf`, and returns how many bytes that has. A write that fails is counted,
    /// and so is one that takes none.
    fn write(&mut self, buf: &[u8]) -> io::Result<usize>
        requires some { 0 < length buf.now }
        requires countable { (known self.old).failed_writes < 2 ^ 64 - 1 }
        ensures bound { WritesAtMost result buf.now }
        ensures stepped { WriteSteps steps self.old result buf.now self.new };

    // What a step makes of what is known.
    ghost tells: { (old new : Self) (step : WireStep) →
        steps old step new → Tells step (known old) (known new) };
}
