//! Seats of a share that are twins: what is composed for one of them is given to the others.

ghost use Rattle.std.specs.Prelude.{◌≡◌, ◌<◌, ℕ, length, nat_eq, true, false, Some, IfOk, OnErr};
ghost use Rattle.std.specs.Bool.{OnTrue, OnFalse};
ghost use Rattle.std.specs.Option.{ForSome};
ghost use Rattle.rfb_session.specs.ShareSeats.{session_at};
ghost use Rattle.rfb_picture.specs.Places.{has_bit};
ghost use Rattle.rfb_server.specs.KnownScreen.{Follows};
ghost use Rattle.rfb_session.specs.ShareKin.{KnowAlike, known_at};
ghost use Rattle.rfb_session.specs.ShareTwins.{IsTwinIn, IsTwinOf, IsGiven, IsGivenTo};
ghost use Rattle.rfb_session.specs.ShareTwins.{IsToBeGiven, IsHeirIn, IsGivenFrom, IsSharedIn};
ghost use Rattle.rfb_session.specs.Slots.{seat_at};

use crate::seat::Seat;
use crate::seats::Seats;
use crate::share::Share;
use crate::share::event::Composing;
use crate::share::kin::Kin;
use crate::share::seat::ShareSeat;
use crate::slots::SLOTS;
use crate::told::NoMemory;
use rfb_picture::Picture;
use rfb_pixel::Colour;

impl Share {
    ghost use Rattle.rfb_session.specs.Share.{screen_of};
    ghost use Rattle.rfb_session.specs.ShareSteps.{KeepsScreen, WantsRoomAs};
    ghost use Rattle.rfb_session.specs.ShareTwins.{ComposesShared};

    /// Composes an update for the viewer of a seat, as `compose` does. It is given also to each of
    /// the others for which nothing waits, and whose viewer has and asks for the same. To the byte
    /// it is the update that would be composed there. Returns which seats these are. The update
    /// waits in the same memory for all. Where there is none for what they share, a few bytes, it
    /// is given to none of the others, and an update may be composed later for each.
    pub fn compose_shared(
        &mut self,
        seat: Seat,
        others: Seats,
    ) -> Result<(Composing, Seats), NoMemory>
        ensures composes { IfOk result (λ told.
            ComposesShared self.old seat told.0 others told.1 self.new) }
        ensures wants { OnErr result (WantsRoomAs self.old seat self.new) }
    {
        let twins = twins_in(&self.seats, &self.kin, seat.place(), others);
        match self.compose(seat)? {
            Composing::Composed => {
                let given = self.give(seat, twins);
                self.meet_alike(seat);
                Ok((Composing::Composed, given))
            }
            told => Ok((told, Seats::none())),
        }
    }

    /// The others at which it is worth looking for twins of a seat. Where nothing needs sending to
    /// its viewer these are none. Where little may, they are the ones known to have the same:
    /// composing so little takes less than finding more. Otherwise they are all.
    pub fn worth_sharing(&self, seat: Seat, others: Seats) -> Seats
        ensures { (k : ℕ) → has_bit result k ≡ true → has_bit others k ≡ true }
    {
        match &self.seats[seat.place()] {
            Some(own) if own.is_still() => Seats::none(),
            Some(own) if own.is_slight() => self.kin.among(seat.place(), others),
            _ => others,
        }
    }

    /// Those of some seats to whose viewers little may need sending. It is about costs: no result
    /// depends on it.
    pub fn slight_of(&self, seats: Seats) -> Seats {
        let mut slight = Seats::none();
        for place in 0..SLOTS {
            let seat = Seat::at(place);
            match &self.seats[place] {
                Some(own) if seats.has(seat) && own.is_slight() => slight = slight.with(seat),
                _ => {}
            }
        }
        slight
    }

    // What waits at a seat is given to its twins.
    fn give(&mut self, seat: Seat, twins: Seats) -> Seats
        requires { (k : ℕ) → has_bit twins k ≡ true →
            IsToBeGiven (screen_of self.old) self.old.seats seat k }
        ensures given { IsGivenTo (screen_of self.old) seat self.old.seats self.new.seats result }
        ensures within { (k : ℕ) → has_bit result k ≡ true → has_bit twins k ≡ true }
        ensures keeps { KeepsScreen self.old self.new }
    {
        if twins.is_empty() {
            return Seats::none();
        }
        let own = seat.place();
        let given = give_all(&mut self.seats, own, twins, self.screen.picture());
        self.kin.meet(own, given);
        self.stirred = self.stirred.or(given);
        given
    }
}

// The seats of some that are twins of one.
fn twins_in(slots: &[Option<ShareSeat>; SLOTS], kin: &Kin, own: usize, others: Seats) -> Seats
    requires own { own < 8 }
    requires alike { KnowAlike kin.now slots.now }
    ensures twins { (k : ℕ) → has_bit result k ≡ true → IsTwinIn slots.now own k }
    ensures within { (k : ℕ) → has_bit result k ≡ true → has_bit others k ≡ true }
{
    let mut twins = Seats::none();
    let Some(one) = &slots[own] else {
        return twins;
    };
    for place in 0..SLOTS {
        let is_kin = kin.are(own, place);
        twins = twins.or(twin_at(&slots[place], place, own, others, one, is_kin));
    }
    twins
}

// That seat, where it is one of the others and not the seat `own`, and a twin of that sits there.
// Kin know the same.
fn twin_at(
    slot: &Option<ShareSeat>,
    place: usize,
    own: usize,
    others: Seats,
    one: &ShareSeat,
    is_kin: bool,
) -> Seats
    requires place { place < 8 }
    requires same { is_kin ≡ true →
        ForSome slot.now (λ other. known_at one.now ≡ known_at other) }
    ensures twin { (k : ℕ) → has_bit result k ≡ true →
        (k ≡ place) × (nat_eq k own ≡ false) × IsTwinOf one.now slot.now }
    ensures within { (k : ℕ) → has_bit result k ≡ true → has_bit others k ≡ true }
{
    let seat = Seat::at(place);
    if place == own || !others.has(seat) {
        return Seats::none();
    }
    match slot {
        Some(other) if other.is_twin_of(one, is_kin) => Seats::none().with(seat),
        _ => Seats::none(),
    }
}

// The update of one seat is shared, and given to its twins.
fn give_all(
    slots: &mut [Option<ShareSeat>; SLOTS],
    own: usize,
    twins: Seats,
    screen: &Picture<Colour>,
) -> Seats
    requires own { own < 8 }
    requires twins { (k : ℕ) → has_bit twins k ≡ true → IsToBeGiven screen.now slots.old own k }
    ensures size { length slots.new ≡ length slots.old }
    ensures given { IsGivenTo screen.now own slots.old slots.new result }
    ensures within { (k : ℕ) → has_bit result k ≡ true → has_bit twins k ≡ true }
{
    share_in(&mut slots[own]);
    let mut given = Seats::none();
    for place in 0..SLOTS {
        given = given.or(give_at(slots, own, place, twins, screen));
    }
    given
}

// What waits for whoever sits there may be taken over by others.
fn share_in(slot: &mut Option<ShareSeat>)
    ensures { IsSharedIn slot.old slot.new }
{
    if let Some(seat) = slot {
        seat.share();
    }
}

// Whoever sits at that place is given the update of seat `own`, if it is one of the twins and the
// update is shared.
fn give_at(
    slots: &mut [Option<ShareSeat>; SLOTS],
    own: usize,
    place: usize,
    twins: Seats,
    screen: &Picture<Colour>,
) -> Seats
    requires own { own < 8 }
    requires place { place < 8 }
    requires twin { has_bit twins place ≡ true → IsToBeGiven screen.now slots.old own place }
    ensures size { length slots.new ≡ length slots.old }
    ensures only { (k : ℕ) → has_bit result k ≡ true → (k ≡ place) × (nat_eq k own ≡ false) }
    ensures within { (k : ℕ) → has_bit result k ≡ true → has_bit twins k ≡ true }
    ensures given { has_bit result place ≡ true →
        IsGivenFrom screen.now own place slots.old slots.new }
    ensures none { has_bit result place ≡ false →
        seat_at place slots.new ≡ seat_at place slots.old }
    ensures others { (k : ℕ) → nat_eq k place ≡ false → seat_at k slots.new ≡ seat_at k slots.old }
{
    let seat = Seat::at(place);
    if !twins.has(seat) || place == own {
        return Seats::none();
    }
    if give_apart(slots, own, place, screen) {
        return Seats::none().with(seat);
    }
    Seats::none()
}

// The same of one who is. The slots are borrowed in two parts: a seat is large, and stays where it
// is.
fn give_apart(
    slots: &mut [Option<ShareSeat>],
    own: usize,
    place: usize,
    screen: &Picture<Colour>,
) -> bool
    requires own { own < length slots.old }
    requires place { place < length slots.old }
    requires twin { IsToBeGiven screen.now slots.old own place }
    ensures size { length slots.new ≡ length slots.old }
    ensures given { OnTrue result (IsGivenFrom screen.now own place slots.old slots.new) }
    ensures none { OnFalse result (seat_at place slots.new ≡ seat_at place slots.old) }
    ensures others { (k : ℕ) → nat_eq k place ≡ false → seat_at k slots.new ≡ seat_at k slots.old }
{
    if place < own {
        let (front, back) = slots.split_at_mut(own);
        give(&mut front[place], &back[0], screen)
    } else {
        let (front, back) = slots.split_at_mut(place);
        give(&mut back[0], &front[own], screen)
    }
}

// Whoever sits in a slot is given the update that waits for whoever sits in another.
fn give(slot: &mut Option<ShareSeat>, other: &Option<ShareSeat>, screen: &Picture<Colour>) -> bool
    requires { IsHeirIn screen.now other.now slot.old }
    ensures given { OnTrue result (IsGiven screen.now other.now slot.old slot.new) }
    ensures follows { OnTrue result
        (ForSome slot.new (λ seat. Follows screen.now (session_at seat))) }
    ensures none { OnFalse result (slot.new ≡ slot.old) }
{
    match (slot, other) {
        (Some(seat), Some(sent)) => seat.take_over(screen, sent),
        _ => false,
    }
}
