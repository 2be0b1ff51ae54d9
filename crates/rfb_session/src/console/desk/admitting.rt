//! The viewers that a console admits.

ghost use Rattle.std.specs.Prelude.{◌≡◌, ◌<◌, IfOk, IfSome};
ghost use Rattle.rfb_session.specs.console.Desk.{seated};
ghost use Rattle.rfb_session.specs.console.Viewers.{Admits, AdmitsAs, Welcomes, TurnsAway};
ghost use Rattle.rfb_session.specs.console.Viewers.{MakesRoom, FindsOldest, is_full, is_older};

use crate::console::desk::Desk;
use crate::console::guest::Guest;
use crate::console::lines::{tell_busy, tell_come};
use crate::seat::Seat;
use crate::slots::SLOTS;
use std::io;

/// What became of a connection.
#[derive(Clone, Copy, Debug)]
pub(crate) struct Admission {
    /// The seat that it takes, if one is had.
    pub seat: Option<Seat>,
    /// Who gave way to it.
    pub left: Option<Seat>,
}

impl Desk {
    /// A connection from there takes a seat, and a line says so. Where there are as many viewers as
    /// there may be, the oldest one whose handshake is not done gives way to it. Where all are
    /// done, or there is no memory for a session, it gets none, and a line says so. An error is
    /// want of memory for a line.
    pub(crate) fn admit(&mut self, from: &str) -> io::Result<Admission>
        ensures { IfOk result (λ told. Admits self.old from.now told.seat told.left self.new) }
    {
        let left = self.make_room()?;
        let seat = self.admit_one(from)?;
        Ok(Admission { seat, left })
    }

    // A connection takes a seat, if one is had.
    fn admit_one(&mut self, from: &str) -> io::Result<Option<Seat>>
        ensures { IfOk result (λ seat. AdmitsAs self.old from.now seat self.new) }
    {
        if self.is_full() {
            return self.turn_away(from);
        }
        match self.share.join() {
            Ok(Some(seat)) => {
                self.welcome(seat);
                tell_come(&mut self.lines, seat, from)?;
                Ok(Some(seat))
            }
            Ok(None) => self.turn_away(from),
            Err(_) => self.turn_away(from),
        }
    }

    // A viewer has taken a seat.
    fn welcome(&mut self, seat: Seat)
        ensures { Welcomes self.old seat self.new }
    {
        self.guests[seat.place()] = Guest::new();
    }

    // There is no seat for a connection.
    fn turn_away(&mut self, from: &str) -> io::Result<Option<Seat>>
        ensures { IfOk result (λ seat. TurnsAway self.old from.now seat self.new) }
    {
        tell_busy(&mut self.lines, from)?;
        Ok(None)
    }

    // Where no more may come, the oldest viewer whose handshake is not done is disconnected.
    fn make_room(&mut self) -> io::Result<Option<Seat>>
        ensures { IfOk result (λ left. MakesRoom self.old left self.new) }
    {
        if !self.is_full() {
            return Ok(None);
        }
        let Some(place) = self.oldest_undone() else {
            return Ok(None);
        };
        let seat = Seat::at(place);
        self.let_go(seat)?;
        Ok(Some(seat))
    }

    // Whether there are as many viewers as there may be.
    fn is_full(&self) -> bool
        ensures { result ≡ is_full self.now }
    {
        self.seated() >= self.rules.viewers
    }

    /// How many viewers there are.
    pub(super) fn seated(&self) -> u8
        ensures { result ≡ seated self.now }
    {
        let mut count = 0;
        for place in 0..SLOTS {
            if self.guests[place].is_here() {
                count += 1;
            }
        }
        count
    }

    // Of the viewers that give way, the place of the one whose handshake lasts longest.
    fn oldest_undone(&self) -> Option<usize>
        ensures { FindsOldest self.now 8 result }
    {
        let mut found = None;
        for place in 0..SLOTS {
            if self.is_older(place, found) {
                found = Some(place);
            }
        }
        found
    }

    // Whether the viewer at a place gives way, and before the one that was found.
    fn is_older(&self, place: usize, found: Option<usize>) -> bool
        requires place { place < 8 }
        requires found { IfSome found (λ k. k < 8) }
        ensures { result ≡ is_older self.now place found }
    {
        let guest = &self.guests[place];
        if !guest.gives_way() {
            return false;
        }
        let Some(other) = found else {
            return true;
        };
        guest.undone_since() < self.guests[other].undone_since()
    }
}
