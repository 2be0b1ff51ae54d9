//! Seats of a share that are found to know the same.

ghost use Rattle.std.specs.Prelude.{◌≡◌, ◌<◌, ℕ, true};
ghost use Rattle.std.specs.Bool.{OnTrue};
ghost use Rattle.rfb_picture.specs.Places.{has_bit};
ghost use Rattle.rfb_session.specs.ShareKin.{KnowAlike, KnowAs};

use crate::seat::Seat;
use crate::seats::Seats;
use crate::share::Share;
use crate::share::kin::Kin;
use crate::share::seat::ShareSeat;
use crate::slots::SLOTS;

impl Share {
    ghost use Rattle.rfb_session.specs.ShareSteps.{KeepsScreen};

    /// A seat, its kin and those that are found to know the same are kin from here on. So viewers
    /// that joined one by one become kin, once each has all of the screen. Nothing else changes.
    pub(super) fn meet_alike(&mut self, seat: Seat)
        ensures seats { self.new.seats ≡ self.old.seats }
        ensures keeps { KeepsScreen self.old self.new }
    {
        let own = seat.place();
        let alike = alike_in(&self.seats, &self.kin, own);
        if !alike.is_empty() {
            self.kin.meet(own, alike);
        }
    }
}

// The seats that are found to know what one does.
fn alike_in(slots: &[Option<ShareSeat>; SLOTS], kin: &Kin, own: usize) -> Seats
    requires own { own < 8 }
    requires alike { KnowAlike kin.now slots.now }
    ensures { (k : ℕ) → has_bit result k ≡ true → KnowAs slots.now own k }
{
    let mut alike = Seats::none();
    for place in 0..SLOTS {
        if are_alike(slots, kin, own, place) {
            alike = alike.with(Seat::at(place));
        }
    }
    alike
}

// Whether two seats are taken, and found to know the same. Kin do.
fn are_alike(slots: &[Option<ShareSeat>; SLOTS], kin: &Kin, own: usize, place: usize) -> bool
    requires places { (own < 8) × (place < 8) }
    requires alike { KnowAlike kin.now slots.now }
    ensures { OnTrue result (KnowAs slots.now own place) }
{
    match (&slots[own], &slots[place]) {
        (Some(one), Some(other)) => kin.are(own, place) || one.knows_as(other),
        _ => false,
    }
}
