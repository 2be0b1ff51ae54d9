//! What happens in one slot of a hub.

ghost use Rattle.std.specs.Prelude.{◌≡◌, IfOk, IsOk};
ghost use Rattle.std.specs.Option.{ForSome};
ghost use Rattle.rfb_server.specs.KnownScreen.{Follows};
ghost use Rattle.rfb_session.specs.LinkModel.{session_of_link};
ghost use Rattle.rfb_session.specs.HubSeats.{HasFewSlotBytes};
ghost use Rattle.rfb_session.specs.HubSlots.{DoesIn, SparesIn};
ghost use Rattle.rfb_session.specs.declared.hub.event.HubEvent.TheVariants.{Of};

use crate::hub::Hub;
use crate::hub::event::{HubFault, HubTold, SlotEvent};
use crate::hub::seat::HubSeat;
use crate::hub::telling::{told_for, told_refused};
use crate::slots::{SLOTS, empty_others};
use crate::told::{Delivery, NoMemory};
use rfb_picture::Picture;
use rfb_pixel::Colour;

impl Hub {
    ghost use Rattle.rfb_session.specs.HubSteps.{HubSteps, NeedsNoMemory};

    // An event of one slot happens there. Where its client asked for the screen alone, the others
    // are emptied.
    pub(super) fn of_slot(&mut self, slot: u8, event: &SlotEvent) -> Result<HubTold, NoMemory>
        requires few { HasFewSlotBytes event.now }
        ensures steps { IfOk result (λ told. HubSteps self.old (Of slot event.now) told self.new) }
        ensures spared { NeedsNoMemory self.old (Of slot event.now) → IsOk result }
    {
        let place = slot as usize;
        if place >= SLOTS {
            return Ok(told_refused(HubFault::NoSuchSlot));
        }
        match happen_in(&mut self.slots[place], event, &self.screen)? {
            None => Ok(told_refused(HubFault::NoSuchSlot)),
            Some(delivery) => {
                if delivery.sole {
                    let ended = empty_others(&mut self.slots, place);
                    return Ok(told_for(delivery.told, ended));
                }
                Ok(told_for(delivery.told, 0))
            }
        }
    }
}

// Makes an event of the slot happen, where there is a seat.
fn happen_in(
    slot: &mut Option<HubSeat>,
    event: &SlotEvent,
    screen: &Picture<Colour>,
) -> Result<Option<Delivery>, NoMemory>
    requires follows { ForSome slot.old (λ seat. Follows screen.now (session_of_link seat.link)) }
    requires few { HasFewSlotBytes event.now }
    ensures does { IfOk result (λ d. DoesIn screen.now slot.old event.now d slot.new) }
    ensures follows { ForSome slot.new (λ seat. Follows screen.now (session_of_link seat.link)) }
    ensures spared { SparesIn screen.now slot.old event.now → IsOk result }
{
    match slot {
        Some(seat) => Ok(Some(seat.happen(event, screen)?)),
        None => Ok(None),
    }
}
