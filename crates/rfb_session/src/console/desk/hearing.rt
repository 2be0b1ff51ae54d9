//! Bytes that a viewer sent to a console.

ghost use Rattle.std.specs.Prelude.{◌≡◌, ◌≤◌, ◌<◌, ◌++◌, ℕ, List, length, IfOk, OnOk, [], None};
ghost use Rattle.rfb_session.specs.console.SeatLines.{told_line};
ghost use Rattle.rfb_session.specs.console.Desk.{guest_at, lines_of, KeepsRules, OtherGuests};
ghost use Rattle.rfb_session.specs.console.Viewers.{HearsAt, Stirs, TellsOf, TellsEvent};
ghost use Rattle.rfb_session.specs.console.Viewers.{CountsTold, Fails};
ghost use Rattle.rfb_session.specs.ShareSteps.{RefusesAs};

use crate::console::desk::Desk;
use crate::console::guest::Progress;
use crate::console::lines::tell_failed;
use crate::owner::{tell_event, tell_join};
use crate::seat::Seat;
use crate::seats::Seats;
use crate::share::event::{Heard, SeatEvent, ShareFault};
use std::io;

/// What became of bytes that a viewer sent.
#[derive(Debug, Drop)]
pub(crate) struct Hearing {
    /// How many were taken.
    pub used: usize,
    /// What the viewer did, if it did something that is reported.
    pub event: Option<SeatEvent>,
    /// Who was disconnected, since this viewer asked for the screen alone.
    pub ended: Seats,
    /// Why its session has failed now, if it has.
    pub fault: Option<ShareFault>,
}

impl Desk {
    /// Takes bytes that the viewer of a seat sent, as `Share::received_by` does, and reports to the
    /// owner what it did. A viewer whose session fails is reported, and stays until what waits for
    /// it is written. Where there is none, or it has failed before, all bytes are taken and nothing
    /// is done. An error is want of memory for a line.
    pub(crate) fn hear(&mut self, seat: Seat, bytes: &[u8]) -> io::Result<Hearing>
        requires some { 0 < length bytes.now }
        ensures used { IfOk result (λ heard. (0 < heard.used) × (heard.used ≤ length bytes.now)) }
        ensures hears { IfOk result (λ heard.
            HearsAt self.old seat bytes.now heard.used heard.ended heard.event self.new) }
        ensures idle { IfOk result (λ heard. (guest_at self.new seat).idle ≡ None) }
    {
        self.stir(seat);
        let heeds = !self.rules.always_shared;
        match self.share.received_by(seat, bytes, heeds) {
            Ok(heard) => {
                self.tell_of(seat, &heard)?;
                Ok(Hearing {
                    used: heard.used,
                    event: heard.event,
                    ended: heard.ended,
                    fault: None,
                })
            }
            Err(fault) => {
                let is_new = self.fail(seat, fault)?;
                Ok(Hearing {
                    used: bytes.len(),
                    event: None,
                    ended: Seats::none(),
                    fault: if is_new { Some(fault) } else { None },
                })
            }
        }
    }

    // The viewer of a seat sends, or takes what waits for it.
    fn stir(&mut self, seat: Seat)
        ensures { Stirs self.old seat self.new }
    {
        self.guests[seat.place()].idle = None;
    }

    // Reports to the owner what a viewer did, after who was disconnected for it.
    fn tell_of(&mut self, seat: Seat, heard: &Heard) -> io::Result<()>
        ensures { OnOk result (TellsOf self.old seat heard.now self.new) }
    {
        self.part(heard.ended)?;
        let before = self.lines().len();
        self.tell_event(seat, &heard.event)?;
        self.count_told(seat, before);
        Ok(())
    }

    // What waits for the owner beyond so many bytes is about the viewer of a seat.
    fn count_told(&mut self, seat: Seat, before: usize)
        ensures { CountsTold self.old seat before self.new }
    {
        let more = self.lines.len().saturating_sub(before);
        let guest = &mut self.guests[seat.place()];
        guest.told = guest.told.saturating_add(more);
    }

    // Reports to the owner what a viewer did.
    fn tell_event(&mut self, seat: Seat, event: &Option<SeatEvent>) -> io::Result<()>
        ensures { OnOk result (TellsEvent self.old seat event.now self.new) }
    {
        match event {
            Some(SeatEvent::Ready { .. }) => {
                self.guests[seat.place()].progress = Progress::Ready;
                self.came = true;
                tell_join(&mut self.lines, seat.number())
            }
            Some(event) => {
                if self.rules.view_only {
                    return Ok(());
                }
                tell_event(&mut self.lines, seat.number(), event)
            }
            None => Ok(()),
        }
    }

    // The session of a seat has ended. That is reported once. Returns whether it is reported now.
    fn fail(&mut self, seat: Seat, fault: ShareFault) -> io::Result<bool>
        ensures { IfOk result (λ told. Fails self.old seat told self.new) }
    {
        let guest = &mut self.guests[seat.place()];
        match guest.progress {
            Progress::Absent | Progress::Failing => Ok(false),
            Progress::Shaking | Progress::Ready => {
                guest.progress = Progress::Failing;
                guest.since = None;
                tell_failed(&mut self.lines, seat, &fault)?;
                Ok(true)
            }
        }
    }
}
