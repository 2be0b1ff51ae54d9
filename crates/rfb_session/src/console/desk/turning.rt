//! What time does to the viewers of a console.

ghost use Rattle.std.specs.Prelude.{◌≡◌, ◌<◌, ◌+◌, ℕ, IfOk, None, true, false};
ghost use Rattle.rfb_picture.specs.Places.{has_bit};
ghost use Rattle.rfb_session.specs.console.Desk.{guest_at};
ghost use Rattle.rfb_session.specs.console.Time.{is_slow, is_stuck, IsBy};
ghost use Rattle.rfb_session.specs.console.Turns.{TurnsAs, StampsAll, StampsOne, Stills};
ghost use Rattle.rfb_session.specs.console.Turns.{ReleasesAll, ReleasesOne, GoesRound};
ghost use Rattle.rfb_session.specs.console.Turns.{Wakes, WakesAt, WakesAfter};
ghost use Rattle.rfb_session.specs.console.Updates.{ComposesRound, KeepsBeside};

use crate::console::desk::composing::Round;
use crate::console::desk::{Desk, Hold};
use crate::console::guest::{Progress, sooner};
use crate::seat::Seat;
use crate::seats::Seats;
use crate::slots::SLOTS;
use std::io;

// How long it waits before it composes again what memory was wanting for, in milliseconds.
const PAUSE: u64 = 100;

/// Who was disconnected by time.
#[derive(Clone, Copy, Debug)]
pub(crate) struct Late {
    /// Those whose handshake took too long.
    pub slow: Seats,
    /// Those for whom bytes waited for too long.
    pub stuck: Seats,
}

impl Desk {
    /// All that was ready has been heard, and it is this time, in milliseconds. Viewers whose time
    /// is over are disconnected, and a line reports each. Then updates are composed for the others,
    /// unless they are held back. After one of more than a mebibyte the seats that come after it
    /// are left for the next turn, which begins with them and is wanted at once. Until that update
    /// has left, for 100 milliseconds at most, what is not slight is put off. An error is want of
    /// memory for a line.
    pub(crate) fn turn(&mut self, now: u64) -> io::Result<Late>
        ensures { IfOk result (λ late. TurnsAs self.old now late.slow late.stuck self.new) }
    {
        self.release_all();
        self.stamp(now);
        let late = self.late(now);
        self.let_all_go(late.slow.or(late.stuck))?;
        let is_held = self.still(now);
        let is_busy = self.is_busy(now);
        let round = self.compose_unless(is_held, is_busy);
        self.go_round(now, round.last);
        self.plan_next(now, is_busy, round);
        Ok(late)
    }

    // Updates are composed, unless they are held back.
    fn compose_unless(&mut self, is_held: bool, is_busy: bool) -> Round
        ensures composes { is_held ≡ false →
            ComposesRound self.old is_busy result.wants result.last self.new }
        ensures held { is_held ≡ true → self.new ≡ self.old }
        ensures none { is_held ≡ true → result.last ≡ None }
    {
        if is_held {
            return Round {
                wants: false,
                last: None,
            };
        }
        self.compose_round(is_busy)
    }

    // The next turn begins with the seat after the last of this one.
    fn go_round(&mut self, now: u64, last: Option<Seat>)
        ensures { GoesRound self.old now last self.new }
    {
        if let Some(seat) = last {
            self.first = seat.after(1);
            self.large = Some(now);
        }
    }

    // The next turn is wanted when something is due.
    fn plan_next(&mut self, now: u64, is_busy: bool, round: Round)
        ensures share { self.new.share ≡ self.old.share }
        ensures beside { KeepsBeside self.old self.new }
        ensures wakes { Wakes self.new now is_busy round.wants round.last self.new.next }
    {
        self.next = self.due(now, is_busy, round);
    }

    // Viewers that have failed go once all is written that waited for them.
    fn release_all(&mut self)
        ensures { ReleasesAll self.old self.new }
    {
        for place in 0..SLOTS {
            self.release_at(place);
        }
    }

    fn release_at(&mut self, place: usize)
        requires { place < 8 }
        ensures { ReleasesOne self.old place self.new }
    {
        let seat = Seat::at(place);
        if self.guests[place].progress == Progress::Failing
            && self.share.to_write(seat).is_empty()
        {
            self.vacate(seat);
        }
    }

    // What has begun since the last turn begins now.
    fn stamp(&mut self, now: u64)
        ensures { StampsAll self.old now self.new }
    {
        for place in 0..SLOTS {
            self.stamp_at(place, now);
        }
    }

    fn stamp_at(&mut self, place: usize, now: u64)
        requires { place < 8 }
        ensures { StampsOne self.old place now self.new }
    {
        let waits = !self.share.to_write(Seat::at(place)).is_empty();
        self.guests[place] = self.guests[place].stamped(now, waits);
    }

    // Whose time is over.
    fn late(&self, now: u64) -> Late
        ensures slow { (k : ℕ) → k < 8 →
            has_bit result.slow k ≡ is_slow self.now.rules now (guest_at self.now k) }
        ensures stuck { (k : ℕ) → k < 8 →
            has_bit result.stuck k ≡ is_stuck self.now.rules now (guest_at self.now k) }
    {
        Late {
            slow: self.slow(now),
            stuck: self.stuck(now),
        }
    }

    // Whose handshake takes too long.
    fn slow(&self, now: u64) -> Seats
        ensures { (k : ℕ) → k < 8 →
            has_bit result k ≡ is_slow self.now.rules now (guest_at self.now k) }
    {
        let mut slow = Seats::none();
        for place in 0..SLOTS {
            if self.guests[place].is_slow(&self.rules, now) {
                slow = slow.with(Seat::at(place));
            }
        }
        slow
    }

    // For whom bytes wait for too long.
    fn stuck(&self, now: u64) -> Seats
        ensures { (k : ℕ) → k < 8 →
            has_bit result k ≡ is_stuck self.now.rules now (guest_at self.now k) }
    {
        let mut stuck = Seats::none();
        for place in 0..SLOTS {
            if self.guests[place].is_stuck(&self.rules, now) {
                stuck = stuck.with(Seat::at(place));
            }
        }
        stuck
    }

    // Whether updates are held back now. A hold that lasts too long ends.
    fn still(&mut self, now: u64) -> bool
        ensures { Stills self.old now result self.new }
    {
        match self.hold {
            Hold::Shown => false,
            Hold::Begins => {
                self.hold = Hold::Since(now);
                true
            }
            Hold::Since(since) => {
                if now.saturating_sub(since) < self.rules.hold {
                    return true;
                }
                self.hold = Hold::Shown;
                false
            }
        }
    }

    // When the next turn is wanted even if nothing happens before.
    fn due(&self, now: u64, is_busy: bool, round: Round) -> Option<u64>
        ensures { Wakes self.now now is_busy round.wants round.last result }
    {
        let ends = sooner(self.hold_ends(), self.busy_ends(is_busy));
        let mut next = sooner(ends, goes_on(now, round));
        for place in 0..SLOTS {
            next = sooner(next, self.guests[place].due(&self.rules));
        }
        next
    }

    // When the hold ends, if updates are held back.
    fn hold_ends(&self) -> Option<u64>
        ensures { WakesAt self.now.rules.hold self.now.hold result }
    {
        match self.hold {
            Hold::Shown | Hold::Begins => None,
            Hold::Since(since) => Some(since.saturating_add(self.rules.hold)),
        }
    }
}

// When composing goes on: at once where seats are left, else when memory that was wanting may be
// there.
fn goes_on(now: u64, round: Round) -> Option<u64>
    ensures left { WakesAfter now round.last result }
    ensures again { round.wants ≡ true → IsBy (now + 100) result }
{
    if round.last.is_some() {
        return Some(now);
    }
    if round.wants {
        return Some(now.saturating_add(PAUSE));
    }
    None
}
