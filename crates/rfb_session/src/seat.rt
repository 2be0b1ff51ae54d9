//! The seats of a share, by number.

ghost use Rattle.std.specs.Prelude.{◌≡◌, ◌<◌, ◌↔◌, ℕ, IsSome, IfSome};
ghost use Rattle.rfb_session.specs.Rounds.{seat_after};

use crate::slots::SLOTS;
use std::marker::Model;

/// A seat of a share: a number from 0 to 7.
#[derive(Clone, Copy, Debug, PartialEq, Eq, PartialOrd, Ord)]
pub struct Seat {
    number: u8,
}

impl Model for Seat {
    ghost Value = { ℕ };

    ghost view = { λ s. s.number };

    ghost invariant = { λ s. s.number < 8 };

    ghost inverse = { λ n. record { number = n } };
}

impl Seat {
    /// The seat of that number, if there is one: it is below 8.
    pub fn new(number: u8) -> Option<Seat>
        ensures below { IsSome result ↔ (number < 8) }
        ensures value { IfSome result (λ seat. seat ≡ number) }
    {
        if number < 8 {
            return Some(Seat { number });
        }
        None
    }

    /// Its number.
    pub fn number(self) -> u8
        ensures value { result ≡ self }
        ensures below { result < 8 }
    {
        self.number
    }

    /// The seat at that place of eight.
    pub(crate) fn at(place: usize) -> Seat
        requires { place < 8 }
        ensures { result ≡ place }
    {
        Seat {
            number: place as u8,
        }
    }

    /// The seat that comes so many places after this one, going round.
    pub(crate) fn after(self, count: usize) -> Seat
        requires { count < 8 }
        ensures { result ≡ seat_after self count }
    {
        let place = self.place() + count;
        if place < SLOTS {
            Seat::at(place)
        } else {
            Seat::at(place - SLOTS)
        }
    }

    /// Its place of eight.
    pub(crate) fn place(self) -> usize
        ensures value { result ≡ self }
        ensures below { result < 8 }
    {
        self.number as usize
    }
}
