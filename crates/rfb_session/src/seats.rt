//! Sets of seats.

ghost use Rattle.std.specs.Prelude.{◌≡◌, ◌<◌, ◌&&◌, ◌||◌, ℕ, nat_eq, not, true, false};
ghost use Rattle.std.specs.Iterator.{YieldsFirst, item_count};
ghost use Rattle.rfb_picture.specs.Places.{has_bit};

use crate::seat::Seat;
use std::marker::Model;

/// A set of seats.
#[derive(Clone, Copy, Debug, PartialEq, Eq)]
pub struct Seats {
    bits: u8,
}

impl Model for Seats {
    ghost Value = { ℕ };

    ghost view = { λ s. s.bits };

    ghost inverse = { λ n. record { bits = n } };
}

impl Seats {
    ghost use Rattle.rfb_session.specs.Seats.{seats_left, seats_in};

    /// No seat.
    pub fn none() -> Seats
        ensures { (k : ℕ) → has_bit result k ≡ false }
    {
        Seats { bits: 0 }
    }

    /// All eight.
    pub fn all() -> Seats
        ensures { (k : ℕ) → k < 8 → has_bit result k ≡ true }
    {
        Seats { bits: 255 }
    }

    /// Those whose bit is set: bit 0 is that of seat 0.
    pub(crate) fn of_bits(bits: u8) -> Seats
        ensures { result ≡ bits }
    {
        Seats { bits }
    }

    /// Whether a seat is in it.
    pub fn has(self, seat: Seat) -> bool
        ensures { result ≡ has_bit self seat }
    {
        self.bits >> seat.number() & 1 == 1
    }

    /// The set with one more.
    pub fn with(self, seat: Seat) -> Seats
        ensures { (k : ℕ) → has_bit result k ≡ (has_bit self k || nat_eq k seat) }
    {
        Seats {
            bits: self.bits | 1 << seat.number(),
        }
    }

    /// The set without a seat.
    pub fn without(self, seat: Seat) -> Seats
        ensures { (k : ℕ) → k < 8 →
            has_bit result k ≡ (has_bit self k && not (nat_eq k seat)) }
    {
        Seats {
            bits: self.bits & !(1 << seat.number()),
        }
    }

    /// The set without those of another.
    pub(crate) fn without_all(self, other: Seats) -> Seats
        ensures { (k : ℕ) → k < 8 →
            has_bit result k ≡ (has_bit self k && not (has_bit other k)) }
    {
        Seats {
            bits: self.bits & !other.bits,
        }
    }

    /// The seats that are in one of two sets.
    pub(crate) fn or(self, other: Seats) -> Seats
        ensures { (k : ℕ) → has_bit result k ≡ (has_bit self k || has_bit other k) }
    {
        Seats {
            bits: self.bits | other.bits,
        }
    }

    /// Whether no seat is in it.
    pub fn is_empty(self) -> bool
        ensures { result ≡ true → (k : ℕ) → has_bit self k ≡ false }
    {
        self.bits == 0
    }

    /// Its seats, the first ones first.
    pub fn iter(self) -> SeatsLeft
        ensures { seats_left result ≡ seats_in self }
    {
        SeatsLeft {
            bits: self.bits,
            at: 0,
        }
    }
}

/// The seats of a set that are left, in order.
#[derive(Clone, Debug, Drop)]
pub struct SeatsLeft {
    bits: u8,
    // The seats below it are not left.
    at: u8,
}

impl Iterator for SeatsLeft {
    ghost use Rattle.rfb_session.specs.Seats.{seats_left};

    type Item = Seat;

    ghost next_gives = { YieldsFirst (λ left. seats_left left) };

    ghost remaining = { item_count (λ left. seats_left left) };

    fn next(&mut self) -> Option<Seat> {
        while self.at < 8 {
            let number = self.at;
            self.at += 1;
            if self.bits >> number & 1 == 1 {
                return Some(Seat::at(number as usize));
            }
        }
        None
    }
}
