//! A hub: one screen, and up to eight viewers of it, each with a session and bytes of its own.

ghost use Rattle.std.specs.Prelude.{◌≡◌, ◌≢◌, ◌≤◌, ℕ, List, [], length, All, None, Some};
ghost use Rattle.std.specs.Prelude.{true, false, IfOk, OnOk, OnErr, IsOk, IsErr, option_copied};
ghost use Rattle.std.specs.Option.{ForSome};
ghost use Rattle.rfb_server.specs.KnownScreen.{Follows};
ghost use Rattle.rfb_session.specs.LinkModel.{session_of_link};

pub(crate) mod drawing;
pub(crate) mod event;
mod joining;
mod of_slot;
mod playing;
pub(crate) mod seat;
mod telling;
#[cfg(test)]
mod tests;

use crate::hub::event::{HubEvent, HubTold};
use crate::hub::seat::HubSeat;
use crate::slots::{SLOTS, seat_of};
use crate::told::NoMemory;
use arrayvec::ArrayVec;
use rfb_hello::Version;
use rfb_picture::Picture;
use rfb_pixel::Colour;
use rfb_server::{Drawing, ServerSetup as HubSetup};
use std::alloc::{AllocError, Global};

/// The longest name of a screen, in bytes.
pub(crate) const NAME_LIMIT: usize = 255;

/// The colour of a screen that was not drawn on.
pub(crate) const BLACK: Colour = Colour { r: 0, g: 0, b: 0 };

/// One screen, and eight slots for viewers of it. Each viewer has a session of its own, and bytes
/// in flight between the two. What happens comes as events: drawings are everyone's, all else is
/// of one slot. No viewer changes what another one has, but by asking for the screen alone.
#[derive(Debug, Drop)]
pub struct Hub {
    alloc: Global,
    screen: Picture<Colour>,
    name: ArrayVec<u8, NAME_LIMIT>,
    offer: Version,
    text_limit: u32,
    slots: [Option<HubSeat>; SLOTS],
    // After want of memory, for good.
    closed: bool,
    ghost eight: { length slots ≡ 8 },
    ghost columns: { screen.width ≤ 4096 },
    ghost rows: { screen.height ≤ 4096 },
    ghost follow: { All (λ slot. ForSome slot (λ seat.
        Follows screen (session_of_link seat.link))) slots },
}

impl Hub {
    ghost use Rattle.rfb_pixel.specs.declared.colour.Colour.{Colour};
    ghost use Rattle.rfb_picture.specs.Grid.{Grid, uniform};
    ghost use Rattle.rfb_server.specs.Server.{black};
    ghost use Rattle.rfb_server.specs.Model.{serving_with};
    ghost use Rattle.rfb_session.specs.declared.hub.seat.HubSeat.{HubSeat};
    ghost use Rattle.rfb_session.specs.Headline.{due_picture};
    ghost use Rattle.rfb_session.specs.Hub.{IsEmptyHub, serving_in, seat_in, is_shut};
    ghost use Rattle.rfb_session.specs.HubSeats.{SeatStandsFor};
    ghost use Rattle.rfb_session.specs.Link.{Ends};
    ghost use Rattle.rfb_session.specs.Network.{Network};
    ghost use Rattle.rfb_session.specs.Hub.{HubStands, HasFewHubBytes, shown_in, fault_number_in};
    ghost use Rattle.rfb_session.specs.HubSteps.{HubActs, OthersStay, SlotsDo};
    ghost use Rattle.rfb_session.specs.HubSteps.{HubSteps, NeedsNoMemory, RunsHub};
    ghost use Rattle.rfb_session.specs.Hub.{NoneFailed, AllShowKnown, AllShowLatest, AllHeadlines};
    ghost use Rattle.rfb_session.specs.Slots.{is_taken};

    /// A hub with a black screen and eight empty slots. Each session offers versions up to
    /// `setup.offer`, names the screen, and keeps at most `setup.text_limit` bytes of each text
    /// that its viewer cuts. Where there is no memory it gives the error, and nothing is kept.
    pub fn of(alloc: Global, setup: HubSetup) -> Result<Hub, AllocError>
        requires columns { setup.width ≤ 4096 }
        requires rows { setup.height ≤ 4096 }
        requires name { length setup.name.now ≤ 255 }
        ensures empty { IfOk result (λ hub. IsEmptyHub hub) }
        ensures screen { let setup = setup.entry in
            IfOk result (λ hub. hub.screen ≡ uniform setup.width setup.height black) }
        ensures made { let setup = setup.entry in IfOk result (λ hub. serving_in hub
            ≡ serving_with setup.offer setup.width setup.height setup.name.now setup.text_limit) }
        ensures open { IfOk result (λ hub. is_shut hub ≡ false) }
        ensures stands { IfOk result HubStands }
    {
        let screen = Picture::new(alloc, setup.width, setup.height, BLACK)?;
        Ok(Hub {
            alloc,
            screen,
            name: name_of(setup.name),
            offer: setup.offer,
            text_limit: setup.text_limit,
            slots: [None, None, None, None, None, None, None, None],
            closed: false,
        })
    }

    /// Makes an event happen. Returns how many bytes it moved, its refusal, whether an update was
    /// composed, and which slots it emptied. A refused event changes nothing. Memory can be wanting
    /// as in a world, for a viewer that joins, and for foreign bytes. The hub is closed then, and
    /// each later step gives the same error.
    pub fn step(&mut self, event: &HubEvent) -> Result<HubTold, NoMemory>
        requires few { HasFewHubBytes event.now }
        // What becomes of the screen and of the event's own slot, whatever is there.
        ensures acts { IfOk result (λ told. HubActs self.old event.now told self.new) }
        // Nothing becomes of the others, but for drawings, hints, and slots that are reported as
        // ended.
        ensures others { IfOk result (λ told. OthersStay self.old event.now told self.new) }
        // Of the networks that its slots stood for, the event is a step, and the answer says so.
        ensures does { IfOk result (λ told. SlotsDo self.old event.now told self.new) }
        // All of these.
        ensures steps { IfOk result (λ told. HubSteps self.old event.now told self.new) }
        // Where its slots stood for networks over the screen, they do.
        ensures stands { HubStands self.old → OnOk result (HubStands self.new) }
        ensures kept { IfOk result (λ told. told.refused ≢ None → self.new ≡ self.old) }
        // Drawings, hints, leavings, and what is refused, lost or not due, take no memory.
        ensures spared { NeedsNoMemory self.old event.now → is_shut self.old ≡ false → IsOk result }
        // Want of memory closes it for good.
        ensures closes { OnErr result (is_shut self.new ≡ true) }
        ensures closed { is_shut self.old ≡ true → IsErr result × (self.new ≡ self.old) }
    {
        if self.closed {
            return Err(NoMemory);
        }
        match self.happen(event) {
            Err(error) => {
                self.closed = true;
                Err(error)
            }
            Ok(told) => Ok(told),
        }
    }

    /// All events, in order; it stops where memory is wanting. If its slots stood for networks, as
    /// those of a new hub do, each clause holds of every slot that got no foreign bytes, and whose
    /// viewer admits the screen.
    pub fn run(&mut self, events: &[HubEvent]) -> Result<(), NoMemory>
        requires few { All HasFewHubBytes events.now }
        // The events are its steps.
        ensures steps { OnOk result (RunsHub self.old events.now self.new) }
        ensures stands { HubStands self.old → OnOk result (HubStands self.new) }
        // Neither end has refused a byte of the other's.
        ensures neither_failed { HubStands self.old → OnOk result (NoneFailed self.new) }
        // Wherever it is known what a viewer has, it shows that, once all in flight has arrived.
        ensures known { HubStands self.old → OnOk result (AllShowKnown self.new) }
        // Over the area of its latest update it then shows the screen as it was composed of.
        ensures latest { HubStands self.old → OnOk result (AllShowLatest self.new) }
        // All of these of one network.
        ensures headline { HubStands self.old → OnOk result (AllHeadlines self.new) }
        ensures closes { OnErr result (is_shut self.new ≡ true) }
    {
        for event in events {
            self.step(event)?;
        }
        Ok(())
    }

    /// What the viewer of a slot shows, or `None` where there is no viewer or no screen yet.
    pub fn picture(&self, slot: u8) -> Option<&Picture<Colour>>
        ensures shown { option_copied result ≡ shown_in self.now slot }
        // Where nothing is in flight to the viewer, it is what is due.
        ensures due { (seat : HubSeat) (e : Ends) (n : Network) →
            seat_in self.now slot ≡ Some seat → SeatStandsFor e self.now.screen seat n →
            n.link.to_viewer ≡ [] → option_copied result ≡ due_picture e n.link }
    {
        match seat_of(&self.slots, slot) {
            Some(seat) => seat.link().picture(),
            None => None,
        }
    }

    /// Whether a viewer sits in the slot.
    pub fn is_taken(&self, slot: u8) -> bool
        ensures { result ≡ is_taken (seat_in self.now slot) }
    {
        seat_of(&self.slots, slot).is_some()
    }

    /// The number of the fault that the session of a slot has failed with, if it has.
    pub fn fault(&self, slot: u8) -> Option<u8>
        ensures { result ≡ fault_number_in self.now slot }
    {
        match seat_of(&self.slots, slot) {
            Some(seat) => seat.link().server_fault_number(),
            None => None,
        }
    }

    // Makes an event happen.
    fn happen(&mut self, event: &HubEvent) -> Result<HubTold, NoMemory>
        requires few { HasFewHubBytes event.now }
        ensures steps { IfOk result (λ told. HubSteps self.old event.now told self.new) }
        ensures spared { NeedsNoMemory self.old event.now → IsOk result }
    {
        match event {
            HubEvent::Join(slot, setup) => self.join(*slot, setup),
            HubEvent::Leave(slot) => Ok(self.leave(*slot)),
            HubEvent::Of(slot, event) => self.of_slot(*slot, event),
            HubEvent::Foreign(slot, bytes) => self.foreign(*slot, bytes),
            HubEvent::Fill(rect, colour) => Ok(self.drawn(&Drawing::Fill(*rect, *colour))),
            HubEvent::Put(x, y, row) => Ok(self.drawn(&Drawing::Put(*x, *y, row))),
            HubEvent::Copy(rect, sx, sy) => Ok(self.drawn(&Drawing::Copy(*rect, *sx, *sy))),
            HubEvent::Hint(rect, sx, sy) => Ok(self.drawn(&Drawing::Hint(*rect, *sx, *sy))),
        }
    }
}

/// The name of a screen, to be kept.
pub(crate) fn name_of(name: &[u8]) -> ArrayVec<u8, NAME_LIMIT>
    requires { length name.now ≤ 255 }
    ensures { result.items ≡ name.now }
{
    let mut kept = ArrayVec::new();
    match kept.try_extend_from_slice(name) {
        Ok(()) => kept,
        Err(_) => unreachable!(),
    }
}
