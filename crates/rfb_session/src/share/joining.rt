//! Viewers that join and leave a share.

ghost use Rattle.std.specs.Prelude.{◌≡◌, IfOk, IsOk, OnErr, Ok, None};

use crate::seat::Seat;
use crate::share::Share;
use crate::share::seat::ShareSeat;
use crate::slots::{empty, first_empty, seat_in};
use crate::told::NoMemory;
use rfb_server::{LateSession, ServerSetup as ShareSetup};

impl Share {
    ghost use Rattle.rfb_session.specs.Share.{IsFreshIn, AllTaken};
    ghost use Rattle.rfb_session.specs.ShareSteps.{JoinsAs, LeavesAs};

    /// A viewer takes the first empty seat, with a session of its own, whose greeting waits. Where
    /// all are taken it gives none. Memory for hints is taken, before anything is changed; that of
    /// what it is sent is taken at the end of its handshake.
    pub fn join(&mut self) -> Result<Option<Seat>, NoMemory>
        ensures joins { IfOk result (λ seat. JoinsAs self.old seat self.new) }
        ensures full { AllTaken self.old → result ≡ Ok None }
        ensures kept { OnErr result (self.new ≡ self.old) }
    {
        let Some(place) = first_empty(&self.seats) else {
            return Ok(None);
        };
        let seat = self.fresh_seat()?;
        self.kin.leave(place);
        seat_in(&mut self.seats[place], seat);
        let taken = Seat::at(place);
        self.stirred = self.stirred.with(taken);
        Ok(Some(taken))
    }

    // A seat with a session of this screen.
    fn fresh_seat(&self) -> Result<ShareSeat, NoMemory>
        ensures { IfOk result (λ seat. IsFreshIn self.now seat) }
    {
        let screen = self.screen.picture();
        let setup = ShareSetup {
            width: screen.width(),
            height: screen.height(),
            name: self.name.as_slice(),
            offer: self.offer,
            text_limit: self.text_limit,
        };
        let session = LateSession::new(self.alloc, setup)?;
        Ok(ShareSeat::new(self.alloc, session))
    }

    /// The viewer of a seat goes, and with it its session and what waited. Returns whether there
    /// was one.
    pub fn left(&mut self, seat: Seat) -> bool
        ensures { LeavesAs self.old seat result self.new }
    {
        empty(&mut self.seats[seat.place()])
    }
}
