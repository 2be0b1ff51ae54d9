//! The turns of a driver.

ghost use Rattle.std.specs.Prelude.{◌≡◌};
ghost use Rattle.rfb_session.specs.drive.driver.DriverTurn.{GivesUp, GivesUpFirst, GoesOn, Keeps};
ghost use Rattle.rfb_session.specs.drive.driver.DriverTurn.{Passes};
ghost use Rattle.rfb_session.specs.drive.driver.DriverTurn.{due_at, first_at, is_heard};
ghost use Rattle.rfb_session.specs.drive.driver.DriverTurn.{with_rooms, with_turns};

use crate::drive::driver::saying::DriveSaying;
use crate::drive::driver::{DriveOutcome, Driver, ROOM, Rig};

// How long what waits is written after the end, in milliseconds.
const PATIENCE: u64 = 1000;

impl<R: Rig + Drop> Driver<R> {
    /// All that was ready has been heard, and it is this time: the line that is under way may be
    /// done, others begin, and one may be late.
    pub(crate) fn go_on(&mut self, now: u64)
        ensures { GoesOn R.steps now self.old self.new }
    {
        if self.outcome.is_some() {
            return;
        }
        self.note_first(now);
        self.pass(now);
        self.run_lines(now);
        self.give_up_if_late(now);
    }

    // The first turn was then.
    fn note_first(&mut self, now: u64)
        ensures { self.new ≡ first_at now self.old }
    {
        self.turns.first = Some(self.turns.first.unwrap_or(now));
    }

    // The line that is under way is done, if it is by time.
    fn pass(&mut self, now: u64)
        ensures { Passes now self.old self.new }
    {
        self.pace.task.stamp(now);
        let is_done = self.pace.task.is_passed(self.pace.begun, now);
        self.finish_if(is_done);
    }

    // Where the line that is under way is late, or the first update, all ends.
    fn give_up_if_late(&mut self, now: u64)
        ensures { GivesUp R.steps now self.old self.new }
    {
        if self.outcome.is_some() {
            return;
        }
        if !self.is_shown {
            self.give_up_if_silent(now);
            return;
        }
        let Some(why) = self
            .pace
            .task
            .lateness(self.pace.begun, self.pace.limit, now)
        else {
            return;
        };
        self.keep();
        let number = self.input.count;
        self.say(&DriveSaying::Late { number, why });
        self.end(DriveOutcome::Late(number));
    }

    // What the screen shows goes to the rig, and what is expected of it.
    fn keep(&mut self)
        ensures keeps { Keeps R.steps self.old self.new }
        ensures input { self.new.input ≡ self.old.input }
    {
        if let Some(picture) = self.viewer.picture() {
            self.rig.keep(picture, self.pace.task.wanted());
        }
    }

    // Where the first update is not whole in time, all ends.
    fn give_up_if_silent(&mut self, now: u64)
        ensures { GivesUpFirst now self.old self.new }
    {
        let first = self.turns.first.unwrap_or(now);
        if now.saturating_sub(first) < self.pace.limit {
            return;
        }
        self.say(&DriveSaying::NoFirstPicture);
        self.end(DriveOutcome::Late(0));
    }

    /// What is taken before the next turn, how long what waits is written after the end, and when
    /// the next turn is wanted.
    pub(crate) fn end_turn(&mut self, now: u64)
        ensures { self.new ≡ with_turns now (with_rooms self.old) }
    {
        self.rooms.server = if self.is_free() { ROOM } else { 0 };
        self.rooms.orders = if self.is_heard() { ROOM } else { 0 };
        if self.outcome.is_some() {
            let until = self.turns.patience.unwrap_or(now.saturating_add(PATIENCE));
            self.turns.patience = Some(until);
            self.turns.is_over = until <= now;
            self.to_server.arrive(self.to_server.len());
            self.turns.next = Some(until);
        } else {
            self.turns.next = self.due(now);
        }
    }

    // Whether the rig is read: what has come of its lines is no whole one.
    fn is_heard(&self) -> bool
        ensures { result ≡ is_heard self.now }
    {
        self.outcome.is_none() && self.input.upcoming().is_partial()
    }

    // When something happens by time alone.
    fn due(&self, now: u64) -> Option<u64>
        ensures { result ≡ due_at now self.now }
    {
        if self.is_shown {
            return self.pace.task.due(self.pace.begun, self.pace.limit);
        }
        let first = self.turns.first.unwrap_or(now);
        Some(first.saturating_add(self.pace.limit))
    }
}
