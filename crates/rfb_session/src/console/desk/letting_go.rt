//! Viewers that are disconnected.

ghost use Rattle.std.specs.Prelude.{◌≡◌, ◌<◌, ℕ, List, IfOk, OnOk, cond, []};
ghost use Rattle.rfb_picture.specs.Places.{has_bit};
ghost use Rattle.rfb_session.specs.owner.ShareLines.{leave_line};
ghost use Rattle.rfb_session.specs.console.SeatLines.{IsFaultLine};
ghost use Rattle.rfb_session.specs.console.Desk.{nobody, guest_at, lines_of, KeepsRules};
ghost use Rattle.rfb_session.specs.console.Desk.{OtherGuests};
ghost use Rattle.rfb_session.specs.console.Viewers.{LetsGo, LetsGoFor, LetsGoIf, LetsAllGo};
ghost use Rattle.rfb_session.specs.console.Viewers.{Vacates, Parts, PartsAt};
ghost use Rattle.rfb_session.specs.ShareSteps.{LeavesAs};

use crate::console::desk::Desk;
use crate::console::guest::Guest;
use crate::console::lines::tell_failed;
use crate::owner::tell_leave;
use crate::seat::Seat;
use crate::seats::Seats;
use crate::slots::SLOTS;
use std::fmt::Display;
use std::io;

impl Desk {
    /// The viewer of a seat is disconnected, if there is one, with nothing wrong. A line says so,
    /// unless one said that it failed. Returns whether a line does. An error is want of memory for
    /// the line.
    pub(crate) fn let_go(&mut self, seat: Seat) -> io::Result<bool>
        ensures { IfOk result (λ taken. LetsGo self.old seat taken (leave_line seat) self.new) }
    {
        if !self.vacate(seat) {
            return Ok(false);
        }
        tell_leave(&mut self.lines, seat.number())?;
        Ok(true)
    }

    /// The same for a fault.
    pub(crate) fn let_go_for<F: Display>(&mut self, seat: Seat, fault: &F) -> io::Result<bool>
        ensures { IfOk result (λ taken. LetsGoFor self.old seat taken self.new) }
    {
        if !self.vacate(seat) {
            return Ok(false);
        }
        tell_failed(&mut self.lines, seat, fault)?;
        Ok(true)
    }

    /// The seat is empty, and no line says so. Returns whether one is due: there was a viewer, and
    /// no line said that it failed.
    pub(crate) fn vacate(&mut self, seat: Seat) -> bool
        ensures { Vacates self.old seat result self.new }
    {
        let is_over = self.is_over(seat);
        self.guests[seat.place()] = Guest::none();
        let taken = self.share.left(seat);
        taken && !is_over
    }

    /// The viewers of these seats are disconnected, with nothing wrong, and a line reports each.
    pub(crate) fn let_all_go(&mut self, seats: Seats) -> io::Result<()>
        ensures { OnOk result (LetsAllGo self.old seats self.new) }
    {
        for place in 0..SLOTS {
            self.let_go_at(place, seats)?;
        }
        Ok(())
    }

    /// A line says of each of these seats that its viewer went, with nothing wrong. Their sessions
    /// are gone already.
    pub(crate) fn part(&mut self, seats: Seats) -> io::Result<()>
        ensures { OnOk result (Parts self.old seats self.new) }
    {
        for place in 0..SLOTS {
            self.part_at(place, seats)?;
        }
        Ok(())
    }

    // The same of one place.
    fn part_at(&mut self, place: usize, seats: Seats) -> io::Result<()>
        requires { place < 8 }
        ensures { OnOk result (PartsAt self.old place (has_bit seats place) self.new) }
    {
        let seat = Seat::at(place);
        if !seats.has(seat) {
            return Ok(());
        }
        let is_over = self.is_over(seat);
        self.guests[place] = Guest::none();
        if is_over {
            return Ok(());
        }
        tell_leave(&mut self.lines, seat.number())
    }

    // The viewer of one place is disconnected, if its seat is among these.
    fn let_go_at(&mut self, place: usize, seats: Seats) -> io::Result<()>
        requires { place < 8 }
        ensures { OnOk result (LetsGoIf self.old place (has_bit seats place) self.new) }
    {
        let seat = Seat::at(place);
        if seats.has(seat) {
            self.share.left(seat);
        }
        self.part_at(place, seats)
    }
}
