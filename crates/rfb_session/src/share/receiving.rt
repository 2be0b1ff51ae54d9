//! Bytes that the viewers of a share sent.

ghost use Rattle.std.specs.Prelude.{◌≡◌, ◌≢◌, ◌≤◌, ◌<◌, ◌&&◌, length, take, IfOk, IfErr, None};
ghost use Rattle.std.specs.Bool.{OnTrue, OnFalse};
ghost use Rattle.std.specs.Option.{ForSome};
ghost use Rattle.rfb_pixel.specs.declared.colour.Colour.{Colour};
ghost use Rattle.rfb_picture.specs.Grid.{Grid};
ghost use Rattle.rfb_server.specs.KnownScreen.{Follows};
ghost use Rattle.rfb_server.specs.Intake.{AreTaken};
ghost use Rattle.rfb_server.specs.Told.{seen};
ghost use Rattle.rfb_session.specs.declared.share.event.ShareFault.TheVariants.{NoMemory};
ghost use Rattle.rfb_session.specs.ShareKin.{KnowsFirst, StaysOrLeaves, StillKnows};
ghost use Rattle.rfb_session.specs.ShareSeats.{session_at};
ghost use Rattle.rfb_session.specs.ShareSlots.{HearsIn, EndsIn};
ghost use Rattle.rfb_session.specs.ShareSteps.{asks_alone, event_seen, seat_told};

use crate::link::asks_sole;
use crate::seat::Seat;
use crate::seats::Seats;
use crate::share::Share;
use crate::share::event::{Heard, SeatEvent, ShareFault};
use crate::share::kin::Kin;
use crate::share::seat::ShareSeat;
use crate::slots::{empty, empty_others};
use rfb_hello::Fed;
use rfb_server::ServerEvent;

impl Share {
    ghost use Rattle.rfb_session.specs.ShareSteps.{ReceivesAs, RefusesAs, HearsBy};

    /// Takes bytes that the viewer of a seat sent, up to the last of its first item that is
    /// answered or reported, or all. An answer waits after what waits there. What the viewer did is
    /// reported with its seat. A viewer that asks for the screen alone, by its ClientInit (RFC 6143
    /// section 7.3.1), empties the other seats at that byte, which is reported too.
    ///
    /// What a client did wrong, or want of memory for a text, is given as a fault of its seat. Each
    /// later call gives it again, and takes nothing. What waits there still waits, and no other
    /// seat is changed. Where the bytes may end its handshake, the memory of its session is taken
    /// first; where there is none the seat is emptied.
    pub fn received(&mut self, seat: Seat, bytes: &[u8]) -> Result<Heard, ShareFault>
        ensures used { IfOk result (λ heard. heard.used ≤ length bytes.now) }
        ensures some { IfOk result (λ heard. 0 < length bytes.now → 0 < heard.used) }
        ensures heard { IfOk result (λ heard.
            ReceivesAs self.old seat bytes.now heard self.new) }
        ensures refused { IfErr result (λ fault. RefusesAs self.old seat bytes.now fault self.new) }
    {
        self.received_by(seat, bytes, true)
    }

    /// The same. A viewer's wish to be alone is heeded, or is not: then no other seat is changed.
    pub fn received_by(
        &mut self,
        seat: Seat,
        bytes: &[u8],
        heeds: bool,
    ) -> Result<Heard, ShareFault>
        ensures used { IfOk result (λ heard. heard.used ≤ length bytes.now) }
        ensures some { IfOk result (λ heard. 0 < length bytes.now → 0 < heard.used) }
        ensures heard { IfOk result (λ heard.
            HearsBy heeds self.old seat bytes.now heard self.new) }
        ensures refused { IfErr result (λ fault. RefusesAs self.old seat bytes.now fault self.new) }
    {
        let place = seat.place();
        self.stirred = self.stirred.with(seat);
        let fed = hear_at(place, &mut self.seats[place], &mut self.kin, bytes)?;
        if is_sole(heeds, &fed.event) {
            let ended = empty_others(&mut self.seats, place);
            return Ok(told_of(seat, fed, ended));
        }
        Ok(told_of(seat, fed, 0))
    }
}

// Whether the client that did this is to have the screen alone.
fn is_sole(heeds: bool, event: &Option<ServerEvent>) -> bool
    ensures { result ≡ (heeds && asks_alone (seen event.now)) }
{
    if heeds { asks_sole(event) } else { false }
}

// The answer to bytes that were taken there, which emptied those seats.
fn told_of(seat: Seat, fed: Fed<ServerEvent>, ended: u8) -> Heard
    ensures seat { result.seat ≡ seat }
    ensures used { result.used ≡ fed.used }
    ensures event { event_seen result.event ≡ seat_told (seen fed.event) }
    ensures ended { result.ended ≡ ended }
{
    Heard {
        seat,
        used: fed.used,
        event: event_of(fed.event),
        ended: Seats::of_bits(ended),
    }
}

// The viewer of a seat is heard, where there is one. If it knows something of the first place, its
// format and what it knows are as they were. Otherwise it leaves its kin.
fn hear_at(
    place: usize,
    slot: &mut Option<ShareSeat>,
    kin: &mut Kin,
    bytes: &[u8],
) -> Result<Fed<ServerEvent>, ShareFault>
    requires { place < 8 }
    ensures taken { IfOk result (AreTaken bytes.now) }
    ensures heard { IfOk result (λ fed.
        HearsIn (take fed.used bytes.now) (seen fed.event) slot.old slot.new) }
    ensures ended { IfErr result (λ fault. EndsIn bytes.now fault slot.old slot.new) }
    ensures follows { (screen : Grid Colour) →
        ForSome slot.old (λ seat. Follows screen (session_at seat)) →
        ForSome slot.new (λ seat. Follows screen (session_at seat)) }
    ensures kin { StaysOrLeaves place kin.old kin.new slot.old slot.new }
{
    let heard = hear_in(slot, bytes);
    kin.leave_unless(knows_first(slot), place);
    heard
}

// The same, whoever is kin.
fn hear_in(slot: &mut Option<ShareSeat>, bytes: &[u8]) -> Result<Fed<ServerEvent>, ShareFault>
    ensures taken { IfOk result (AreTaken bytes.now) }
    ensures heard { IfOk result (λ fed.
        HearsIn (take fed.used bytes.now) (seen fed.event) slot.old slot.new) }
    ensures ended { IfErr result (λ fault. EndsIn bytes.now fault slot.old slot.new) }
    ensures follows { (screen : Grid Colour) →
        ForSome slot.old (λ seat. Follows screen (session_at seat)) →
        ForSome slot.new (λ seat. Follows screen (session_at seat)) }
    ensures known { KnowsFirst slot.new → StillKnows slot.old slot.new }
{
    let Some(seat) = slot else {
        return Err(ShareFault::NoSuchSeat);
    };
    match seat.hear(bytes) {
        Ok(fed) => Ok(fed),
        Err(fault) => {
            if is_wanting(fault) {
                empty(slot);
                return Err(fault);
            }
            Err(fault)
        }
    }
}

// Whether something is known of the first place of whoever sits there.
fn knows_first(slot: &Option<ShareSeat>) -> bool
    ensures { OnTrue result (KnowsFirst slot.now) }
{
    match slot {
        Some(seat) => seat.knows_first(),
        None => false,
    }
}

// Whether there is no memory for the session of a seat.
fn is_wanting(fault: ShareFault) -> bool
    ensures yes { OnTrue result (fault ≡ NoMemory) }
    ensures no { OnFalse result (fault ≢ NoMemory) }
{
    matches!(fault, ShareFault::NoMemory)
}

// What a viewer did, if that is reported: answers are not.
fn event_of(event: Option<ServerEvent>) -> Option<SeatEvent>
    ensures { event_seen result ≡ seat_told (seen event) }
{
    match event {
        None => None,
        Some(ServerEvent::Reply(_)) => None,
        Some(ServerEvent::Ready { reply: _, shared }) => Some(SeatEvent::Ready { shared }),
        Some(ServerEvent::Key { down, key }) => Some(SeatEvent::Key { down, key }),
        Some(ServerEvent::Pointer { buttons, x, y }) => Some(SeatEvent::Pointer { buttons, x, y }),
        Some(ServerEvent::CutText { kept, length }) => Some(SeatEvent::CutText { kept, length }),
    }
}
