//! Which seats of a share know the same of their viewers' pictures.

ghost use Rattle.std.specs.Prelude.{◌≡◌, ◌<◌, ◌+◌, ℕ, length, true, false};
ghost use Rattle.std.specs.Prelude.{if◌then◌else◌, slice_index_or};
ghost use Rattle.std.specs.Bool.{OnTrue};

use crate::seat::Seat;
use crate::seats::Seats;
use crate::slots::SLOTS;

/// A number for each seat. Seats with one number, which is not zero, know the same: an update for
/// one of them was given to the others.
#[derive(Clone, Copy, Debug)]
pub(crate) struct Kin {
    numbers: [u64; SLOTS],
    // The largest number that was ever given.
    latest: u64,
    ghost eight: { length numbers ≡ 8 },
    ghost within: { (k : ℕ) → slice_index_or numbers k 0 < latest + 1 },
}

impl Kin {
    ghost use Rattle.rfb_picture.specs.Places.{has_bit};
    ghost use Rattle.rfb_session.specs.ShareKin.{AreKin, Leaves, is_met};

    /// No seat has any.
    pub(crate) fn none() -> Kin
        ensures { (j k : ℕ) → AreKin result j k → ⊥ }
    {
        Kin {
            numbers: [0; SLOTS],
            latest: 0,
        }
    }

    /// Whether two seats are kin.
    pub(crate) fn are(&self, one: usize, other: usize) -> bool
        requires { (one < 8) × (other < 8) }
        ensures { OnTrue result (AreKin self.now one other) }
    {
        self.numbers[one] != 0 && self.numbers[one] == self.numbers[other]
    }

    /// Those of a set that are kin of a seat.
    pub(crate) fn among(&self, own: usize, others: Seats) -> Seats
        requires { own < 8 }
        ensures { (k : ℕ) → has_bit result k ≡ true → has_bit others k ≡ true }
    {
        let mut kin = Seats::none();
        for place in 0..SLOTS {
            let seat = Seat::at(place);
            if others.has(seat) && self.are(own, place) {
                kin = kin.with(seat);
            }
        }
        kin
    }

    /// A seat has none from here on. The others have what they had.
    pub(crate) fn leave(&mut self, place: usize)
        requires { place < 8 }
        ensures { Leaves place self.old self.new }
    {
        self.numbers[place] = 0;
    }

    /// The same, unless it stays.
    pub(crate) fn leave_unless(&mut self, stays: bool, place: usize)
        requires { place < 8 }
        ensures stays { stays ≡ true → self.new ≡ self.old }
        ensures leaves { stays ≡ false → Leaves place self.old self.new }
    {
        if !stays {
            self.leave(place);
        }
    }

    /// A seat and those of a set are kin from here on, and of no others. These have what they had.
    pub(crate) fn meet(&mut self, own: usize, others: Seats)
        ensures alike { (j k : ℕ) → AreKin self.new j k →
            is_met own others j ≡ is_met own others k }
        ensures old { (j k : ℕ) → AreKin self.new j k → is_met own others j ≡ false →
            AreKin self.old j k }
    {
        let Some(number) = self.latest.checked_add(1) else {
            *self = Kin::none();
            return;
        };
        self.numbers = Kin::renumbered(&self.numbers, own, others, number);
        self.latest = number;
    }

    // The numbers, where a seat and those of a set have another one.
    fn renumbered(numbers: &[u64; SLOTS], own: usize, others: Seats, number: u64) -> [u64; SLOTS]
        ensures size { length result ≡ 8 }
        ensures each { (k : ℕ) → k < 8 → slice_index_or result k 0 ≡
            (if is_met own others k then number else slice_index_or numbers.now k 0) }
    {
        let mut new = *numbers;
        for place in 0..SLOTS {
            if place == own || others.has(Seat::at(place)) {
                new[place] = number;
            }
        }
        new
    }
}
