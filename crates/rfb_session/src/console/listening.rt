//! Bytes that a console receives, and ends.

ghost use Rattle.std.specs.Prelude.{◌≡◌, ◌≢◌, ◌≤◌, ◌<◌, ◌+◌, ◌⊎◌, ℕ, false};
ghost use Rattle.std.specs.Prelude.{nat_eq, length, take, None};
ghost use Rattle.rfb_session.specs.doors.Events.{Received};
ghost use Rattle.rfb_session.specs.console.Console.{Does, space_at, KeepsSide, KeepsButRooms};
ghost use Rattle.rfb_session.specs.console.Console.{KeepsButNotes};
ghost use Rattle.rfb_session.specs.console.Console.{ObeysOrder, Stays};
ghost use Rattle.rfb_session.specs.console.Console.{HearsOwner, EndsOwner, LosesOwner, HearsBytes};
ghost use Rattle.rfb_session.specs.console.Console.{LeavesSeat, LosesSeat};
ghost use Rattle.rfb_session.specs.console.Console.{EndsAs, OwnerEnds, RunsOut};

use crate::console::entrances::seat_at;
use crate::console::speaker::{Speaker, Why};
use crate::console::{Console, OWNER, Outcome, READ};
use crate::engine::Device;
use crate::owner::{Order, Taken};
use crate::seat::Seat;
use crate::share::event::SeatEvent;

/// How many bytes of the owner's are taken in one turn.
pub(crate) const ROOM_OF_OWNER: usize = 1 << 16;

/// How many bytes of a viewer are taken in one turn at most: 170 pointers, of some 4,600 bytes of
/// lines.
pub(crate) const ROOM_OF_SEAT: usize = 1024;

/// What the bytes of a viewer said.
#[derive(Debug, Drop)]
pub(crate) struct Said {
    /// How many of them were taken.
    pub used: usize,
    /// What the viewer did, if it did something that is reported.
    pub event: Option<SeatEvent>,
}

impl Said {
    // All are taken, and they say nothing.
    fn nothing(bytes: &[u8]) -> Said
        ensures used { result.used ≡ length bytes.now }
        ensures event { result.event ≡ None }
    {
        Said {
            used: bytes.len(),
            event: None,
        }
    }
}

impl<S: Speaker + Drop> Console<S> {
    /// Takes bytes of the owner's, up to the end of a line or fewer. After the end none is obeyed.
    pub(crate) fn hear_owner(&mut self, bytes: &[u8]) -> usize
        requires some { 0 < length bytes.now }
        ensures used { (0 < result) × (result ≤ length bytes.now) }
        ensures hears { HearsOwner self.old (take result bytes.now) self.new }
        ensures ends { RunsOut self.old.outcome self.new.outcome
            ⊎ OwnerEnds self.new.desk self.new.outcome }
        ensures rooms { self.new.rooms ≡ self.old.rooms }
        ensures stays { Stays self.old self.new }
    {
        if self.outcome.is_some() {
            return bytes.len();
        }
        let Taken { used, order } = self.reader.feed(bytes);
        self.said.take(&bytes[..used]);
        if let Some(order) = order {
            self.follow(order);
        }
        used
    }

    /// No more of them come: the last line may lack its newline. Where there is no screen then, all
    /// ends.
    pub(crate) fn end_owner(&mut self)
        ensures ends { EndsOwner self.old self.new }
        ensures outcome { RunsOut self.old.outcome self.new.outcome
            ⊎ OwnerEnds self.new.desk self.new.outcome }
        ensures stays { Stays self.old self.new }
    {
        if self.has_input_ended {
            return;
        }
        self.has_input_ended = true;
        if self.outcome.is_some() {
            return;
        }
        if let Some(order) = self.reader.end() {
            self.follow_last(order);
        }
        self.end_without_screen();
    }

    // Does what the last line says. Where it is bad and there is no screen, it is why all ends.
    fn follow_last(&mut self, order: Order)
        ensures obeys { ObeysOrder self.old order self.new }
        ensures ends { RunsOut self.old.outcome self.new.outcome
            ⊎ OwnerEnds self.new.desk self.new.outcome }
        ensures side { KeepsSide self.old self.new }
    {
        match order {
            Order::Refused(why) if self.desk.is_none() => {
                self.count = self.count.saturating_add(1);
                self.say_refusal(why);
                self.outcome = Some(Outcome::BadLine(self.count));
            }
            order => self.follow(order),
        }
    }

    /// They can't be read any more. What came of a line is passed over.
    pub(crate) fn lose_owner(&mut self)
        ensures loses { LosesOwner self.old self.new }
        ensures ends { RunsOut self.old.outcome self.new.outcome
            ⊎ OwnerEnds self.new.desk self.new.outcome }
        ensures stays { Stays self.old self.new }
    {
        self.has_input_ended = true;
        self.end_without_screen();
    }

    // All ends where no line said how large the screen is.
    fn end_without_screen(&mut self)
        ensures desk { self.new.desk ≡ self.old.desk }
        ensures outcome { self.old.outcome ≢ None → self.new.outcome ≡ self.old.outcome }
        ensures ends { (self.new.outcome ≡ self.old.outcome)
            ⊎ OwnerEnds self.new.desk self.new.outcome }
        ensures side { KeepsSide self.old self.new }
    {
        if self.desk.is_none() && self.outcome.is_none() {
            let number = self.count.saturating_add(1);
            self.note_no_screen(number);
            self.outcome = Some(Outcome::BadLine(number));
        }
    }

    /// Takes bytes of the viewer of a seat. What the viewer did is reported, and returned.
    pub(crate) fn hear_seat(&mut self, seat: Seat, bytes: &[u8]) -> Said
        requires some { 0 < length bytes.now }
        ensures used { (0 < result.used) × (result.used ≤ length bytes.now) }
        ensures hears { HearsBytes self.old seat bytes.now result.used result.event self.new }
        ensures ends { RunsOut self.old.outcome self.new.outcome }
        ensures ended { self.old.outcome ≢ None → result.event ≡ None }
        ensures nobody { self.old.desk ≡ None → result.event ≡ None }
        ensures side { KeepsSide self.old self.new }
    {
        if self.outcome.is_some() {
            return Said::nothing(bytes);
        }
        let Some(desk) = &mut self.desk else {
            return Said::nothing(bytes);
        };
        match desk.hear(seat, bytes) {
            Ok(heard) => {
                self.note_heard(seat, &heard);
                Said {
                    used: heard.used,
                    event: heard.event,
                }
            }
            Err(_) => {
                self.outcome = Some(Outcome::NoMemory);
                Said::nothing(bytes)
            }
        }
    }

    /// The viewer of a seat is disconnected, with nothing wrong.
    pub(crate) fn let_seat_go(&mut self, seat: Seat, why: Why)
        ensures leaves { LeavesSeat self.old seat self.new }
        ensures ends { RunsOut self.old.outcome self.new.outcome }
        ensures side { KeepsSide self.old self.new }
    {
        let Some(desk) = &mut self.desk else {
            return;
        };
        match desk.let_go(seat) {
            Ok(true) => self.note_left(seat, why),
            Ok(false) => {}
            Err(_) => self.outcome = Some(Outcome::NoMemory),
        }
    }

    /// The connection of a seat has failed.
    pub(crate) fn lose_seat(&mut self, seat: Seat)
        ensures loses { LosesSeat self.old seat self.new }
        ensures ends { RunsOut self.old.outcome self.new.outcome }
        ensures side { KeepsSide self.old self.new }
    {
        let Some(desk) = &mut self.desk else {
            return;
        };
        match desk.let_go_for(seat, &Device) {
            Ok(true) => self.note_left(seat, Why::Device),
            Ok(false) => {}
            Err(_) => self.outcome = Some(Outcome::NoMemory),
        }
    }

    /// Takes bytes that came at a door.
    pub(crate) fn hear_at(&mut self, door: usize, bytes: &[u8]) -> usize
        requires some { 0 < length bytes.now }
        ensures used { (0 < result) × (result ≤ length bytes.now) }
        ensures does { Does self.old (Received door (take result bytes.now)) self.new }
        ensures ends { EndsAs self.old (Received door (take result bytes.now)) self.new }
        ensures rooms { self.new.rooms ≡ self.old.rooms }
        ensures stays { Stays self.old self.new }
    {
        if door == OWNER {
            return self.hear_owner(bytes);
        }
        match seat_at(door) {
            Some(seat) => self.hear_seat(seat, bytes).used,
            None => bytes.len(),
        }
    }

    // So many bytes of a door were taken.
    pub(crate) fn spend(&mut self, door: usize, used: usize)
        ensures room { space_at self.old door ≤ space_at self.new door + used }
        ensures rooms { KeepsButRooms self.old self.new }
    {
        if door < READ {
            self.rooms[door] = self.rooms[door].saturating_sub(used);
        }
    }

    // No more of a door is taken.
    pub(crate) fn close_room(&mut self, door: usize)
        ensures keeps { KeepsButRooms self.old self.new }
        ensures room { door < 9 → space_at self.new door ≡ 0 }
        ensures others { (d : ℕ) → nat_eq d door ≡ false →
            space_at self.new d ≡ space_at self.old d }
    {
        self.open_room(door, 0);
    }

    // So many bytes of a door are taken.
    pub(crate) fn open_room(&mut self, door: usize, room: usize)
        ensures keeps { KeepsButRooms self.old self.new }
        ensures room { door < 9 → space_at self.new door ≡ room }
        ensures others { (d : ℕ) → nat_eq d door ≡ false →
            space_at self.new d ≡ space_at self.old d }
    {
        if door < READ {
            self.rooms[door] = room;
        }
    }

    // Notes can't be written any more.
    pub(crate) fn lose_notes(&mut self)
        ensures { KeepsButNotes self.old self.new }
    {
        self.are_notes_lost = true;
        self.notes.clear();
    }
}
