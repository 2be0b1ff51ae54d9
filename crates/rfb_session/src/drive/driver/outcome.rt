//! How a run of a rig's lines ends.

use crate::relay::Gone;

/// How all has ended. Lines are numbered as they come, from 1.
#[derive(Clone, Copy, Debug, PartialEq, Eq)]
pub enum DriveOutcome {
    /// The input has ended, and all its lines are done.
    Done,
    /// The line of this number is bad. Nothing of it was sent.
    BadLine(u64),
    /// It was not done in time; of number 0, the server's first update was not whole in time.
    Late(u64),
    /// A file that it names could not be read or written.
    File(u64),
    /// The server has gone away before all was done.
    ServerGone(Gone),
    /// There was no memory.
    NoMemory,
    /// The lines of the rig could not be read, or reports could not be written.
    Device,
}
