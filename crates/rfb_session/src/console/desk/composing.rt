//! Updates that are composed for the viewers of a console.

ghost use Rattle.std.specs.Prelude.{◌≡◌, ◌⊎◌, ℕ, true, false};
ghost use Rattle.rfb_picture.specs.Places.{has_bit};
ghost use Rattle.rfb_session.specs.Share.{screen_of, seat_in};
ghost use Rattle.rfb_session.specs.ShareWork.{RestsIn};
ghost use Rattle.rfb_session.specs.console.Time.{IsByEnd};
ghost use Rattle.rfb_session.specs.console.Updates.{ComposesAll, ComposesOne, ComposesRound};
ghost use Rattle.rfb_session.specs.console.Updates.{IsBusy, IsLarge};

use crate::console::desk::Desk;
use crate::seat::Seat;
use crate::seats::Seats;
use crate::slots::SLOTS;

// After an update of more than a mebibyte no other is composed in a turn.
const LARGE: usize = 1 << 20;

// While more bytes than these of it wait, what is not slight is put off,
const MUCH: usize = 1 << 16;

// but not for longer than this after it was composed, in milliseconds.
const PUT_OFF: u64 = 100;

/// What came of composing in a turn.
#[derive(Clone, Copy, Debug)]
pub(crate) struct Round {
    /// Whether memory was wanting for an update, which may be composed later.
    pub wants: bool,
    /// The seat for which a large update was composed, the last of this turn.
    pub last: Option<Seat>,
}

// What came of composing for a seat.
#[derive(Clone, Copy, Debug)]
struct Served {
    wants: bool,
    is_large: bool,
    // Who was given the same update.
    given: Seats,
}

// What came of trying to.
#[derive(Clone, Copy, Debug)]
struct Tried {
    wants: bool,
    given: Seats,
}

impl Desk {
    /// Composes an update for each viewer for which nothing waits and one is due. It is given also
    /// to each later one for which it is the same. Returns whether memory was wanting for one,
    /// which may be composed later.
    pub(crate) fn compose(&mut self) -> bool
        ensures { ComposesAll self.old result self.new }
    {
        let mut wants = false;
        let mut left = self.share.to_serve();
        for place in 0..SLOTS {
            let seat = Seat::at(place);
            let tries = left.has(seat);
            let others = left.without(seat);
            let tried = self.compose_at(seat, tries, others);
            left = others.without_all(tried.given);
            wants |= tried.wants;
        }
        wants
    }

    /// The same, but one seat after the other, round from the first of this turn, and no further
    /// than to a large update. So at most one large update is composed before anything is written.
    /// Where another leaves, what is not slight is put off.
    pub(crate) fn compose_round(&mut self, is_busy: bool) -> Round
        ensures { ComposesRound self.old is_busy result.wants result.last self.new }
    {
        let mut wants = false;
        let mut left = self.to_serve(is_busy);
        let first = self.first;
        for step in 0..SLOTS {
            if left.is_empty() {
                return Round { wants, last: None };
            }
            let seat = first.after(step);
            let tries = left.has(seat);
            let others = left.without(seat);
            let served = self.serve(seat, tries, others);
            left = others.without_all(served.given);
            wants |= served.wants;
            if served.is_large {
                return Round {
                    wants,
                    last: Some(seat),
                };
            }
        }
        Round { wants, last: None }
    }

    // Whether a large update leaves, composed so short a time ago that others are put off for it.
    // Each is most of the memory that waits, and on its own it leaves sooner.
    pub(super) fn is_busy(&self, now: u64) -> bool
        ensures { result ≡ true → IsBusy self.now.large now (seat_in self.now.share) }
    {
        let Some(since) = self.large else {
            return false;
        };
        if now.saturating_sub(since) >= PUT_OFF {
            return false;
        }
        for place in 0..SLOTS {
            if self.share.to_write(Seat::at(place)).len() > MUCH {
                return true;
            }
        }
        false
    }

    // When nothing is put off any more, if anything is now.
    pub(super) fn busy_ends(&self, is_busy: bool) -> Option<u64>
        ensures { is_busy ≡ true → IsByEnd 100 self.now.large result }
    {
        match self.large {
            Some(since) if is_busy => Some(since.saturating_add(PUT_OFF)),
            _ => None,
        }
    }

    // The seats with work. Where others are put off, only those for which little may need sending.
    fn to_serve(&self, is_busy: bool) -> Seats
        ensures rests { (k : ℕ) → has_bit result k ≡ false → (is_busy ≡ true)
            ⊎ RestsIn (screen_of self.now.share) (seat_in self.now.share k) }
    {
        let work = self.share.to_serve();
        if is_busy {
            self.share.slight_of(work)
        } else {
            work
        }
    }

    // Composes an update for the viewer of a seat, if that is to be tried, and says whether it is a
    // large one. It may be given to some others.
    fn serve(&mut self, seat: Seat, tries: bool, others: Seats) -> Served
        ensures one { ComposesOne self.old seat tries result.wants others result.given self.new }
        ensures large { result.is_large ≡ true →
            IsLarge (seat_in self.old.share seat) (seat_in self.new.share seat) }
        ensures small { result.is_large ≡ false →
            IsLarge (seat_in self.old.share seat) (seat_in self.new.share seat) → ⊥ }
    {
        let is_free = self.share.to_write(seat).is_empty();
        let tried = self.compose_at(seat, tries, others);
        let is_large = is_free && self.share.to_write(seat).len() > LARGE;
        Served {
            wants: tried.wants,
            is_large,
            given: tried.given,
        }
    }

    fn compose_at(&mut self, seat: Seat, tries: bool, others: Seats) -> Tried
        ensures { ComposesOne self.old seat tries result.wants others result.given self.new }
    {
        let given = Seats::none();
        if !tries {
            return Tried {
                wants: false,
                given,
            };
        }
        let others = self.share.worth_sharing(seat, others);
        match self.share.compose_shared(seat, others) {
            Ok((_, given)) => Tried {
                wants: false,
                given,
            },
            Err(_) => Tried { wants: true, given },
        }
    }
}
