//! What is known of a viewer beside its session.

ghost use Rattle.std.specs.Prelude.{ℕ};
ghost use Rattle.rfb_session.specs.console.Time.{IsBy};

use crate::console::plan::Rules;

/// How far a viewer has come.
#[derive(Clone, Copy, Debug, PartialEq, Eq)]
pub(crate) enum Progress {
    /// There is none.
    Absent,
    /// Its handshake is not done.
    Shaking,
    /// Its handshake is done.
    Ready,
    /// Its session has failed. What waits for it is written yet.
    Failing,
}

/// How far the viewer of a seat is, since when, and how much of it the owner has yet to read.
#[derive(Clone, Copy, Debug)]
pub(crate) struct Guest {
    pub progress: Progress,
    // Since when its handshake lasts, or since when it fails, once a turn has given the time.
    pub since: Option<u64>,
    // Since when bytes wait for it, and it took none and sent none, once a turn has given the time.
    pub idle: Option<u64>,
    // How many bytes of lines about it wait for the owner.
    pub told: usize,
}

impl Guest {
    ghost use Rattle.std.specs.Prelude.{◌≡◌};
    ghost use Rattle.rfb_session.specs.console.Turns.{WakesFor};
    ghost use Rattle.rfb_session.specs.console.Desk.{nobody, newcomer, gives_way, is_here};
    ghost use Rattle.rfb_session.specs.console.Time.{stamped, is_slow, is_stuck, undone_since};
    ghost use Rattle.rfb_session.specs.console.Time.{IsByEnd, IsByLimit};

    /// There is no viewer.
    pub(crate) fn none() -> Guest
        ensures { result ≡ nobody }
    {
        Guest {
            progress: Progress::Absent,
            since: None,
            idle: None,
            told: 0,
        }
    }

    /// One has just come.
    pub(crate) fn new() -> Guest
        ensures { result ≡ newcomer }
    {
        Guest {
            progress: Progress::Shaking,
            ..Guest::none()
        }
    }

    /// Whether it gives way to whoever comes: its handshake is not done, or it has failed.
    pub(crate) fn gives_way(&self) -> bool
        ensures { result ≡ gives_way self.now.progress }
    {
        matches!(self.progress, Progress::Shaking | Progress::Failing)
    }

    /// Since when its handshake lasts, or since when it fails. Before a turn has given the time, it
    /// is later than any time.
    pub(crate) fn undone_since(&self) -> u64
        ensures { result ≡ undone_since self.now }
    {
        self.since.unwrap_or(u64::MAX)
    }

    /// Whether there is a viewer.
    pub(crate) fn is_here(&self) -> bool
        ensures { result ≡ is_here self.now.progress }
    {
        match self.progress {
            Progress::Absent => false,
            Progress::Shaking | Progress::Ready | Progress::Failing => true,
        }
    }

    /// What has begun since the last turn begins now: a handshake, and bytes that wait.
    pub(crate) fn stamped(self, now: u64, waits: bool) -> Guest
        ensures { result ≡ stamped now waits self }
    {
        let since = if self.gives_way() {
            Some(self.since.unwrap_or(now))
        } else {
            None
        };
        let idle = if waits {
            Some(self.idle.unwrap_or(now))
        } else {
            None
        };
        Guest {
            since,
            idle,
            ..self
        }
    }

    /// Whether its handshake takes too long, or it has failed for that long.
    pub(crate) fn is_slow(&self, rules: &Rules, now: u64) -> bool
        ensures { result ≡ is_slow rules.now now self.now }
    {
        match self.since {
            Some(since) => rules.handshake <= now.saturating_sub(since),
            None => false,
        }
    }

    /// Whether bytes wait for it for too long.
    pub(crate) fn is_stuck(&self, rules: &Rules, now: u64) -> bool
        ensures { result ≡ is_stuck rules.now now self.now }
    {
        match (self.idle, rules.timeout) {
            (Some(since), Some(limit)) => limit <= now.saturating_sub(since),
            _ => false,
        }
    }

    /// When its time is over, if nothing changes.
    pub(crate) fn due(&self, rules: &Rules) -> Option<u64>
        ensures { WakesFor rules.now self.now result }
    {
        sooner(self.slow_at(rules), self.stuck_at(rules))
    }

    // When its handshake, or its failing, has lasted too long.
    fn slow_at(&self, rules: &Rules) -> Option<u64>
        ensures { IsByEnd rules.now.handshake self.now.since result }
    {
        match self.since {
            Some(since) => Some(since.saturating_add(rules.handshake)),
            None => None,
        }
    }

    // When bytes have waited for it for too long.
    fn stuck_at(&self, rules: &Rules) -> Option<u64>
        ensures { IsByLimit rules.now.timeout self.now.idle result }
    {
        match (self.idle, rules.timeout) {
            (Some(since), Some(limit)) => Some(since.saturating_add(limit)),
            _ => None,
        }
    }
}

/// The sooner of two times, if there is one.
pub(crate) fn sooner(one: Option<u64>, other: Option<u64>) -> Option<u64>
    ensures first { (limit : ℕ) → IsBy limit one → IsBy limit result }
    ensures second { (limit : ℕ) → IsBy limit other → IsBy limit result }
{
    match (one, other) {
        (Some(one), Some(other)) => Some(one.min(other)),
        (Some(time), None) | (None, Some(time)) => Some(time),
        (None, None) => None,
    }
}

/// How many bytes of lines about a viewer may wait before no more of it is read.
pub(crate) const TOLD_MOST: usize = 4096;
