//! A console as a core: what happens at its doors.

ghost use Rattle.std.specs.Prelude.{◌≡◌, ◌≢◌, ◌<◌, ◌+◌, ℕ, IfSome, None};
ghost use Rattle.rfb_session.specs.console.Console.{Steps, waiting_at, space_at, closed_at};

use crate::console::speaker::{Speaker, Why};
use crate::console::{Console, LINES, NOTES, OWNER, Outcome, READ};
use crate::doors::Core;
use crate::seat::Seat;
use crate::slots::SLOTS;

impl<S: Speaker + Drop> Core for Console<S> {
    ghost steps = { Steps };

    ghost waiting = { waiting_at };

    ghost space = { space_at };

    ghost closed = { closed_at };

    ghost due = { λ console. console.next };

    fn room(&self, door: usize) -> usize {
        if door < READ { self.rooms[door] } else { 0 }
    }

    fn received(&mut self, door: usize, bytes: &[u8]) -> usize {
        let used = self.hear_at(door, bytes);
        self.spend(door, used);
        used
    }

    fn ended(&mut self, door: usize) {
        if door == OWNER {
            self.end_owner();
        } else if let Some(seat) = seat_at(door) {
            self.let_seat_go(seat, Why::Closed);
        }
        self.close_room(door);
    }

    fn failed(&mut self, door: usize) {
        if door == OWNER {
            self.lose_owner();
        } else if door == LINES {
            self.outcome = Some(Outcome::Device);
        } else if door == NOTES {
            self.lose_notes();
        } else if let Some(seat) = seat_at(door) {
            self.lose_seat(seat);
        }
        self.close_room(door);
    }

    fn to_write(&self, door: usize) -> &[u8] {
        if door == NOTES {
            return self.notes.as_slice();
        }
        let Some(desk) = &self.desk else {
            return &[];
        };
        if door == LINES {
            return desk.lines();
        }
        match seat_at(door) {
            Some(seat) => desk.to_write(seat),
            None => &[],
        }
    }

    fn written(&mut self, door: usize, count: usize) {
        if door == NOTES {
            self.notes.drain(..count);
            return;
        }
        let Some(desk) = &mut self.desk else {
            return;
        };
        if door == LINES {
            desk.written_lines(count);
            return;
        }
        if let Some(seat) = seat_at(door) {
            desk.written(seat, count);
        }
    }

    fn is_closed(&self, door: usize) -> bool {
        match door {
            OWNER => self.has_input_ended,
            LINES => self.outcome == Some(Outcome::Device),
            NOTES => self.are_notes_lost,
            _ => match (&self.desk, seat_at(door)) {
                (Some(desk), Some(seat)) => desk.is_over(seat),
                _ => true,
            },
        }
    }

    fn turned(&mut self, now: u64) -> Option<u64> {
        self.turn_desk(now);
        self.end_turn(now);
        self.next
    }
}

/// The seat that has a door, if one has.
pub(crate) fn seat_at(door: usize) -> Option<Seat>
    ensures some { IfSome result (λ k. (door ≡ k + 1) × (k < 8)) }
    ensures none { result ≡ None → (k : ℕ) → k < 8 → door ≢ k + 1 }
{
    if door == 0 || door > SLOTS {
        return None;
    }
    Some(Seat::at(door - 1))
}
