//! The turns of a console.

ghost use Rattle.std.specs.Prelude.{◌≡◌, ◌<◌, ◌+◌, ◌⊎◌, ℕ, None, Some, true};
ghost use Rattle.rfb_session.specs.console.Console.{TurnsDesk, NamesNext, Stays};
ghost use Rattle.rfb_session.specs.console.Console.{KeepsSide, KeepsOwner, KeepsButRooms};
ghost use Rattle.rfb_session.specs.console.Console.{KeepsButNotes, OpensRooms, space_at};
ghost use Rattle.rfb_session.specs.console.Console.{room_of_owner, room_of_seat, TurnEnds, IsIdle};
ghost use Rattle.rfb_session.specs.declared.console.Outcome.TheVariants.{Idle};

use crate::console::desk::turning::Late;
use crate::console::listening::{ROOM_OF_OWNER, ROOM_OF_SEAT};
use crate::console::speaker::{Speaker, Why};
use crate::console::{Console, OWNER, Outcome};
use crate::seat::Seat;
use crate::slots::SLOTS;

// How long what waits is written after the end, in milliseconds.
const PATIENCE: u64 = 1000;

// The owner is not read while more bytes of notes than these wait.
const NOTES_FEW: usize = 1 << 16;

impl<S: Speaker + Drop> Console<S> {
    /// The desk's turn, at this time.
    pub(crate) fn turn_desk(&mut self, now: u64)
        ensures turns { TurnsDesk self.old now self.new }
        ensures ends { TurnEnds self.old self.new }
        ensures next { NamesNext self.new }
        ensures side { KeepsSide self.old self.new }
    {
        if self.are_notes_wanting {
            self.outcome = Some(Outcome::NoMemory);
            return;
        }
        if self.outcome.is_some() {
            return;
        }
        let Some(desk) = &mut self.desk else {
            self.next = None;
            return;
        };
        match desk.turn(now) {
            Ok(late) => {
                self.next = desk.next();
                self.note_late(late);
                self.end_if_idle();
            }
            Err(_) => self.outcome = Some(Outcome::NoMemory),
        }
    }

    // These viewers were disconnected by time.
    fn note_late(&mut self, late: Late)
        ensures { KeepsButNotes self.old self.new }
    {
        self.note_all_left(late.slow, Why::Handshake(self.rules.handshake));
        let stuck = self.rules.timeout.unwrap_or(0);
        self.note_all_left(late.stuck, Why::Stuck(stuck));
    }

    // All ends with the last viewer, if that is wanted.
    fn end_if_idle(&mut self)
        ensures desk { self.new.desk ≡ self.old.desk }
        ensures ends { (self.new.outcome ≡ self.old.outcome)
            ⊎ ((self.old.rules.until_idle ≡ true) × IsIdle self.new.desk
            × (self.new.outcome ≡ Some Idle)) }
        ensures next { self.new.next ≡ self.old.next }
        ensures side { KeepsSide self.old self.new }
    {
        if !self.rules.until_idle {
            return;
        }
        let is_idle = match &self.desk {
            Some(desk) => desk.is_idle(),
            None => false,
        };
        if is_idle {
            self.outcome = Some(Outcome::Idle);
        }
    }

    /// What is taken before the next turn, and how long what waits is written after the end.
    pub(crate) fn end_turn(&mut self, now: u64)
        ensures desk { self.new.desk ≡ self.old.desk }
        ensures outcome { self.new.outcome ≡ self.old.outcome }
        ensures owner { KeepsOwner self.old self.new }
        ensures next { self.old.outcome ≡ None → self.new.next ≡ self.old.next }
        ensures stays { Stays self.old self.new }
        ensures rooms { OpensRooms self.new }
    {
        self.open_owner();
        self.open_seats();
        if self.outcome.is_some() {
            let until = self.patience.unwrap_or(now.saturating_add(PATIENCE));
            self.patience = Some(until);
            self.is_over = until <= now;
            self.next = Some(until);
        }
    }

    fn open_owner(&mut self)
        ensures keeps { KeepsButRooms self.old self.new }
        ensures room { space_at self.new 0 ≡ room_of_owner self.old }
    {
        let room = self.room_of_owner();
        self.open_room(OWNER, room);
    }

    fn open_seats(&mut self)
        ensures keeps { KeepsButRooms self.old self.new }
        ensures owner { space_at self.new 0 ≡ space_at self.old 0 }
        ensures rooms { (k : ℕ) → k < 8 → space_at self.new (k + 1) ≡ room_of_seat self.old k }
    {
        for place in 0..SLOTS {
            let room = self.room_of_seat(Seat::at(place));
            self.open_room(place + 1, room);
        }
    }

    // How many bytes of the owner's are taken before the next turn.
    fn room_of_owner(&self) -> usize
        ensures { result ≡ room_of_owner self.now }
    {
        let is_open = !self.has_input_ended
            && self.outcome.is_none()
            && self.notes.len() < NOTES_FEW;
        if is_open { ROOM_OF_OWNER } else { 0 }
    }

    // How many bytes of a viewer are.
    fn room_of_seat(&self, seat: Seat) -> usize
        ensures { result ≡ room_of_seat self.now seat }
    {
        let is_open = match &self.desk {
            Some(desk) => self.outcome.is_none() && desk.is_heard(seat),
            None => false,
        };
        if is_open { ROOM_OF_SEAT } else { 0 }
    }
}
