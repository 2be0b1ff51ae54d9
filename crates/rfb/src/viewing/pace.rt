//! How often a server is asked.

ghost use Rattle.std.specs.Prelude.{◌≤◌};

use std::thread;
use std::time::{Clock, Duration, Instant};

// The nanoseconds of a second.
const SECOND: u64 = 1_000_000_000;

/// A server is asked so many times a second, at most.
#[derive(Drop)]
pub struct Pace {
    period: Duration,
    // When it is asked again at the earliest.
    due: Option<Instant>,
}

impl Pace {
    /// At most `rate` times a second.
    pub fn new(rate: u16) -> Pace
        requires { 1 ≤ rate }
    {
        Pace {
            period: Duration::from_nanos(SECOND / u64::from(rate)),
            due: None,
        }
    }

    /// What was asked for has come. The next request is due a period after the last was due, or a
    /// period after now where that would have passed. So the time that a server takes to answer is
    /// no time lost. Without a clock nothing is waited for.
    pub fn mark<C: Clock>(&mut self, clock: &C) {
        self.due = match Instant::now(clock) {
            Ok(now) => self.due_after(now),
            Err(_) => None,
        };
    }

    // When that is.
    fn due_after(&self, now: Instant) -> Option<Instant> {
        if let Some(due) = self.due {
            if let Some(next) = due.checked_add(self.period) {
                if next.saturating_duration_since(now) != Duration::ZERO {
                    return Some(next);
                }
            }
        }
        now.checked_add(self.period)
    }

    /// Waits until it is due.
    pub fn rest<C: Clock>(&self, clock: &C) {
        let Some(due) = self.due else {
            return;
        };
        if let Ok(now) = Instant::now(clock) {
            thread::sleep(clock, due.saturating_duration_since(now));
        }
    }
}
