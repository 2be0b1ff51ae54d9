//! Viewers that join and leave a hub, and bytes that none of them sent.

ghost use Rattle.std.specs.Prelude.{◌≡◌, ◌≤◌, length, None, IfOk, IsOk};
ghost use Rattle.rfb_session.specs.HubSlots.{TakesOrNot};
ghost use Rattle.rfb_session.specs.Slots.{OnSlot};
ghost use Rattle.rfb_session.specs.LinkModel.{session_of_link};
ghost use Rattle.rfb_session.specs.declared.hub.event.HubEvent.TheVariants.{Join, Leave, Foreign};

use crate::hub::Hub;
use crate::hub::event::{HubFault, HubTold};
use crate::hub::seat::HubSeat;
use crate::hub::telling::{told_made, told_refused};
use crate::link::{Link, copy_of};
use crate::slots::{SLOTS, empty, seat_in, taken};
use crate::told::NoMemory;
use rfb_server::Session;
use rfb_viewer::{Viewer, ViewerSetup as Setup};

impl Hub {
    ghost use Rattle.rfb_session.specs.Hub.{IsFreshSeat};
    ghost use Rattle.rfb_session.specs.HubSteps.{HubSteps, NeedsNoMemory};

    // A viewer takes an empty slot, with a session of its own. Its memory is taken before anything
    // is changed. It is no part of `step`, of which most need no such stack.
    #[inline(never)]
    pub(super) fn join(&mut self, slot: u8, setup: &Setup) -> Result<HubTold, NoMemory>
        ensures steps { IfOk result (λ told.
            HubSteps self.old (Join slot setup.now) told self.new) }
        ensures spared { NeedsNoMemory self.old (Join slot setup.now) → IsOk result }
    {
        let wanted = slot as usize;
        if wanted >= SLOTS {
            return Ok(told_refused(HubFault::NoSuchSlot));
        }
        if taken(&self.slots, wanted) {
            return Ok(told_refused(HubFault::SlotTaken));
        }
        let seat = self.seat_for(setup)?;
        seat_in(&mut self.slots[wanted], seat);
        Ok(told_made())
    }

    // A seat for a viewer of that setup: two fresh ends, and the session's greeting in flight.
    fn seat_for(&self, setup: &Setup) -> Result<HubSeat, NoMemory>
        ensures { IfOk result (λ seat. IsFreshSeat self.now setup.now seat) }
    {
        let session = Session::new(
            self.alloc,
            self.screen.width(),
            self.screen.height(),
            self.name.as_slice(),
            self.offer,
            self.text_limit,
        )?;
        let viewer = Viewer::of(self.alloc, setup_of(setup));
        let link = Link::new(self.alloc, session, viewer)?;
        Ok(HubSeat::new(setup_of(setup), link))
    }

    // The viewer of a slot goes, and what was in flight between it and its session.
    pub(super) fn leave(&mut self, slot: u8) -> HubTold
        ensures { HubSteps self.old (Leave slot) result self.new }
    {
        let place = slot as usize;
        if place >= SLOTS || !empty(&mut self.slots[place]) {
            return told_refused(HubFault::NoSuchSlot);
        }
        told_made()
    }

    // Bytes that no viewer sent are in flight to the session of a slot.
    pub(super) fn foreign(&mut self, slot: u8, bytes: &Vec<u8>) -> Result<HubTold, NoMemory>
        requires few { length bytes.now.items ≤ 1048576 }
        ensures steps { IfOk result (λ told.
            HubSteps self.old (Foreign slot bytes.now) told self.new) }
        ensures spared { NeedsNoMemory self.old (Foreign slot bytes.now) → IsOk result }
    {
        let place = slot as usize;
        if place >= SLOTS || !take_foreign(&mut self.slots[place], bytes)? {
            return Ok(told_refused(HubFault::NoSuchSlot));
        }
        Ok(told_made())
    }
}

// They are in flight to the session of a seat, if there is one. Returns whether there is.
fn take_foreign(slot: &mut Option<HubSeat>, bytes: &[u8]) -> Result<bool, NoMemory>
    requires few { length bytes.now ≤ 1048576 }
    ensures taken { IfOk result (λ taken. TakesOrNot taken bytes.now slot.old slot.new) }
    ensures session { OnSlot (λ a b. session_of_link b.link ≡ session_of_link a.link)
        slot.old slot.new }
    ensures spared { slot.old ≡ None → IsOk result }
{
    match slot {
        Some(seat) => {
            seat.take_foreign(bytes)?;
            Ok(true)
        }
        None => Ok(false),
    }
}

// The same setup.
fn setup_of(setup: &Setup) -> Setup
    ensures { result ≡ setup.now }
{
    Setup {
        format: setup.format,
        encodings: copy_of(&setup.encodings),
        limit: setup.limit,
        shared: setup.shared,
        max_places: setup.max_places,
        text_limit: setup.text_limit,
    }
}
