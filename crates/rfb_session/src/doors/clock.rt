//! When a loop does its next turn, and which doors it tries in it.

ghost use Rattle.std.specs.Prelude.{◌≡◌, ℕ, Bool};

use crate::doors::device::Answer;

/// How long a loop may wait.
#[derive(Clone, Copy, Debug, Drop, PartialEq, Eq)]
pub enum Pause {
    /// Not at all. It only looks which doors are ready.
    Look,
    /// Until a door is ready or it is this time, in milliseconds. A time that has passed is `Look`.
    Until(u64),
    /// Until a door is ready.
    Ready,
}

/// The time, and which doors are ready: what a loop learns from the system. A door stays ready
/// until it answers that it waits, has ended or has failed; or until it gives less than it may,
/// where that means that no more has come.
pub trait Clock {
    // Whether a door is worth a read.
    ghost readable: { Self → ℕ → Bool };

    // Whether a door is worth a write.
    ghost writable: { Self → ℕ → Bool };

    /// The time, in milliseconds since a moment that stays the same. It never goes back.
    fn now(&self) -> u64;

    /// Waits no longer than it may, and learns which doors are ready. Returns whether the loop goes
    /// on.
    fn wait(&mut self, pause: Pause) -> bool;

    /// Whether a door is worth a read.
    fn reads(&self, door: usize) -> bool
        ensures { result ≡ readable self.now door };

    /// Whether a door is worth a write.
    fn writes(&self, door: usize) -> bool
        ensures { result ≡ writable self.now door };

    /// A door was tried for a read of so many bytes at most, with this answer.
    fn heard(&mut self, door: usize, answer: Answer, most: usize);

    /// A door was tried for a write, with this answer.
    fn told(&mut self, door: usize, answer: Answer);
}
