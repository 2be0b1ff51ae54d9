//! Bytes that wait for the viewers of a share, and updates.

ghost use Rattle.std.specs.Prelude.{◌≡◌, ◌≤◌, ℕ, length, false, IfOk, OnErr};
ghost use Rattle.std.specs.Option.{ForSome};
ghost use Rattle.rfb_picture.specs.Places.{has_bit};
ghost use Rattle.rfb_server.specs.KnownScreen.{Follows};
ghost use Rattle.rfb_session.specs.ShareScreen.{shown_on};
ghost use Rattle.rfb_session.specs.ShareSeats.{session_at, WritesAt};
ghost use Rattle.rfb_session.specs.ShareSlots.{ComposesIn, WantsRoomIn};
ghost use Rattle.rfb_session.specs.ShareWork.{RestsIn};
ghost use Rattle.rfb_session.specs.Slots.{OnSlot};

use crate::seat::Seat;
use crate::seats::Seats;
use crate::share::Share;
use crate::share::event::Composing;
use crate::share::screen::Screen;
use crate::share::seat::ShareSeat;
use crate::slots::seat_of;
use crate::told::NoMemory;

impl Share {
    ghost use Rattle.rfb_session.specs.Share.{waits_at, is_update_at, screen_of, seat_in};
    ghost use Rattle.rfb_session.specs.ShareSteps.{WritesAs, ComposesAs, WantsRoomAs, HasNoWork};

    /// The seats that may have work: bytes to write, or an update to compose. At any other nothing
    /// waits, and composing would find none due, or no viewer. That stays so until a drawing, a
    /// hint or a viewer's bytes. A seat of the set may have no work either: it leaves the set once
    /// composing finds nothing to do.
    pub fn to_serve(&self) -> Seats
        ensures work { (k : ℕ) → has_bit result k ≡ false → HasNoWork self.now k }
        ensures rests { (k : ℕ) → has_bit result k ≡ false →
            RestsIn (screen_of self.now) (seat_in self.now k) }
    {
        self.stirred
    }

    /// Lends the bytes that wait to be written to the viewer of a seat, in order; none where there
    /// is no viewer. They are answers, at most 297 bytes, or one update.
    pub fn to_write(&self, seat: Seat) -> &[u8]
        ensures value { result.now ≡ waits_at self.now seat }
        ensures few { is_update_at self.now seat ≡ false → length result.now ≤ 297 }
    {
        match seat_of(&self.seats, seat.number()) {
            Some(seat) => seat.waiting(),
            None => &[],
        }
    }

    /// The first `count` bytes that wait there are written, or all if they are fewer. After the
    /// last of them their memory is given back.
    pub fn written(&mut self, seat: Seat, count: usize)
        ensures { WritesAs self.old seat count self.new }
    {
        write_in(&mut self.seats[seat.place()], count);
    }

    /// Composes an update for the viewer of a seat, if all earlier bytes there are written and one
    /// is due. It has what the viewer asked for and does not have of the screen. Any number of
    /// requests is answered by one update, and a viewer that does not read costs no more than what
    /// waits for it. Room is asked for once, as `Session::compose` does. Where there is none,
    /// nothing waits, and the update may be composed later.
    pub fn compose(&mut self, seat: Seat) -> Result<Composing, NoMemory>
        ensures composes { IfOk result (λ told. ComposesAs self.old seat told self.new) }
        ensures wants { OnErr result (WantsRoomAs self.old seat self.new) }
    {
        let place = seat.place();
        self.stirred = self.stirred.with(seat);
        let told = compose_in(&mut self.seats[place], &self.screen)?;
        match told {
            Composing::Composed => self.kin.leave(place),
            Composing::Waiting => {}
            Composing::NotDue | Composing::NoSuchSeat => {
                self.stirred = self.stirred.without(seat);
            }
        }
        Ok(told)
    }
}

// The first bytes that wait at a seat are written, where there is a viewer.
fn write_in(slot: &mut Option<ShareSeat>, count: usize)
    ensures { OnSlot (λ a b. WritesAt count a b) slot.old slot.new }
{
    match slot {
        Some(seat) => seat.write(count),
        None => {}
    }
}

// An update is composed for a seat, where there is a viewer.
fn compose_in(slot: &mut Option<ShareSeat>, screen: &Screen) -> Result<Composing, NoMemory>
    requires follows { ForSome slot.old (λ seat. Follows (shown_on screen.now) (session_at seat)) }
    ensures composes { IfOk result (λ told.
        ComposesIn (shown_on screen.now) told slot.old slot.new) }
    ensures wants { OnErr result (WantsRoomIn (shown_on screen.now) slot.old slot.new) }
    ensures follows { ForSome slot.new (λ seat. Follows (shown_on screen.now) (session_at seat)) }
{
    match slot {
        Some(seat) => seat.compose(screen.picture()),
        None => Ok(Composing::NoSuchSeat),
    }
}
