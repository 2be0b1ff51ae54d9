//! When the loop does its next turn, and which doors it tries in it.

ghost use Rattle.rfb.specs.Ready.{is_ready};

use crate::sharing::shell::{Ear, LISTENER, Shell};
use rfb_session::console::{LINES, NOTES, OWNER};
use rfb_session::doors::{Answer, Clock, Pause};
use rfb_session::relay::SERVER;
use std::time;
use std::time::Duration;

impl<L: Drop, C: time::Clock> Clock for Shell<'_, L, C> {
    ghost readable = { λ shell d. is_ready shell.reads.doors d };

    ghost writable = { λ shell d. is_ready shell.writes.doors d };

    /// The time when the last wait ended.
    fn now(&self) -> u64 {
        self.time
    }

    /// It does not sleep while somebody may wait at the listener whom the core was not asked about:
    /// the last turn may have made it welcome newcomers. Nor does it sleep after lines have left,
    /// or bytes for a server: the core says in its next turn which viewers are read again, and
    /// nothing else may come that wakes it. Nor after a write has failed: the core says in its next
    /// turn when a server is called again. It ends the loop where waiting fails.
    fn wait(&mut self, pause: Pause) -> bool {
        self.read_time();
        let limit = self.limit(pause);
        self.wants_turn = false;
        self.is_stirred = limit != Some(Duration::ZERO);
        if self.poll.poll(&mut self.events, limit).is_err() {
            return false;
        }
        self.read_time();
        for event in self.events.iter() {
            self.is_stirred = true;
            if event.token() == LISTENER {
                self.ear = Ear::Ringing;
            } else {
                // A connection that is closed is ready for both.
                let door = event.token().0;
                self.reads.note(door, true);
                self.writes.note(door, true);
                if event.is_read_closed() || event.is_error() {
                    self.ending.note(door, true);
                }
            }
        }
        true
    }

    fn reads(&self, door: usize) -> bool {
        self.reads.has(door)
    }

    fn writes(&self, door: usize) -> bool {
        self.writes.has(door)
    }

    /// Of standard input one read waits for nothing, and a second one may. A connection that gave
    /// less than it may has nothing more: what comes later is reported anew, but for an end that
    /// was reported with it.
    fn heard(&mut self, door: usize, answer: Answer, most: usize) {
        if answer != Answer::Again {
            let has_come = self.stir(answer);
            self.note_answered(door, has_come);
            let goes_on = has_come && self.may_read_on(door, answer, most);
            self.reads.note(door, goes_on);
        }
    }

    /// To standard output and standard error one write waits for nothing, and a second one may.
    /// Where nothing was to be written it is asked to try again.
    fn told(&mut self, door: usize, answer: Answer) {
        if answer != Answer::Again {
            let has_left = self.stir(answer);
            self.wants_turn |= has_left && !is_of_seat(door) || answer == Answer::Failed;
            let goes_on = has_left && self.may_write_on(door);
            self.writes.note(door, goes_on);
        }
    }
}

impl<L: Drop, C: time::Clock> Shell<'_, L, C> {
    // How long it may sleep: until a door is ready where there is no number.
    fn limit(&mut self, pause: Pause) -> Option<Duration> {
        if self.is_stirred && self.ear == Ear::Barred {
            self.ear = Ear::Ringing;
        }
        if self.is_stirred && self.ear == Ear::Ringing || self.wants_turn {
            return Some(Duration::ZERO);
        }
        match pause {
            Pause::Look => Some(Duration::ZERO),
            Pause::Until(time) => Some(Duration::from_millis(time.saturating_sub(self.time))),
            Pause::Ready => None,
        }
    }

    // What time it is. Where the clock fails, the time stays.
    fn read_time(&mut self) {
        if let Ok(passed) = self.start.elapsed(self.clock) {
            let seconds = passed.as_secs().saturating_mul(1000);
            let time = seconds.saturating_add(u64::from(passed.subsec_millis()));
            self.time = self.time.max(time);
        }
    }

    // Something happened, unless a door only said that it is not ready. Returns whether it may be
    // ready.
    fn stir(&mut self, answer: Answer) -> bool {
        self.is_stirred |= answer != Answer::Waits;
        matches!(answer, Answer::Moved(_))
    }

    // Whoever was called has answered, where bytes have come at the first door.
    fn note_answered(&mut self, door: usize, has_come: bool) {
        if !has_come || door != SERVER {
            return;
        }
        if let Some(callee) = &mut self.callee {
            callee.note_answered();
        }
    }

    // Whether a door that was read can be read again without waiting.
    fn may_read_on(&self, door: usize, answer: Answer, most: usize) -> bool {
        match &self.input {
            Some(input) if door == input.door() => input.is_ready_again(self.poll.registry()),
            _ => answer == Answer::Moved(most) || self.ending.has(door),
        }
    }

    // Whether one that was written can be written again.
    fn may_write_on(&self, door: usize) -> bool {
        match door {
            LINES => self.output.is_ready_again(self.poll.registry()),
            NOTES => self.errors.is_ready_again(self.poll.registry()),
            _ => true,
        }
    }
}

// Whether a door is a viewer's.
fn is_of_seat(door: usize) -> bool {
    OWNER < door && door < LINES
}
