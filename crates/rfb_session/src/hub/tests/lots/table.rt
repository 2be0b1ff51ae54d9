//! What a hub is to be: its screen, and a plain machine for each viewer that joined.

use crate::event::Event;
use crate::told::Refused;
use crate::world::tests::machine::plain::{Making, Plain};
use crate::world::tests::machine::{encodings_of, format_of, version_of};
use std::alloc::{AllocError, Global};
use std::mem;

/// A slot, with the machine of the viewer that joined there last.
#[derive(Drop)]
pub(super) struct Guest {
    pub(super) slot: u8,
    pub(super) taken: bool,
    shared: bool,
    pub(super) plain: Plain,
}

/// What an event is to be answered. A refusal is given by its number, 0 is none.
#[derive(Clone, Copy)]
pub(super) struct Due {
    pub(super) moved: u32,
    pub(super) refused: u8,
    pub(super) ended: u8,
}

/// Eight slots of one screen.
#[derive(Drop)]
pub(super) struct Table {
    pub(super) alloc: Global,
    // Which version the hub offers.
    offer: u16,
    // A machine to which nobody came: it knows the screen alone.
    pub(super) screen: Plain,
    pub(super) guests: Vec<Guest>,
    /// How many updates have arrived whole.
    pub(super) updates: u32,
    /// How often viewers were sent away by another's.
    pub(super) emptied: u32,
}

fn number_of(refused: Option<Refused>) -> u8 {
    let Some(refused) = refused else {
        return 0;
    };
    match refused {
        Refused::Outside => 24,
        Refused::NotReady => 25,
        Refused::Busy => 26,
        Refused::AreaOutside => 27,
    }
}

// What is due where nothing but that refusal is.
fn mere(refused: u8) -> Due {
    Due {
        moved: 0,
        refused,
        ended: 0,
    }
}

fn is_drawing(event: &Event) -> bool {
    matches!(
        event,
        Event::Fill(_, _) | Event::Put(_, _, _) | Event::Copy(_, _, _) | Event::Hint(_, _, _)
    )
}

// The machine of a viewer's number, at a black screen.
fn machine_of(
    alloc: Global,
    width: u16,
    height: u16,
    offer: u16,
    number: u16,
) -> Result<Plain, AllocError> {
    let making = Making {
        width,
        height,
        version: version_of((offer % 3).min(number / 3 % 3)),
        format: format_of(number),
        encodings: encodings_of(number / 9),
    };
    Plain::new(alloc, &making)
}

impl Table {
    pub(super) fn new(
        alloc: Global,
        width: u16,
        height: u16,
        offer: u16,
    ) -> Result<Table, AllocError> {
        let mut guests = Vec::new(alloc);
        for slot in 0..8 {
            guests.push(Guest {
                slot,
                taken: false,
                shared: true,
                plain: machine_of(alloc, width, height, offer, 0)?,
            })?;
        }
        Ok(Table {
            alloc,
            offer,
            screen: machine_of(alloc, width, height, offer, 0)?,
            guests,
            updates: 0,
            emptied: 0,
        })
    }

    /// A viewer of that number joins, if its slot is there and empty. It sees what was drawn.
    pub(super) fn join(&mut self, slot: u8, number: u16, shared: bool) -> Result<Due, AllocError> {
        let mut plain = machine_of(
            self.alloc,
            self.screen.width,
            self.screen.height,
            self.offer,
            number,
        )?;
        plain.places = self.screen.places.copied(self.alloc)?;
        let mut due = mere(32);
        for guest in &mut self.guests {
            if guest.slot == slot {
                due.refused = 31;
                if !guest.taken {
                    due.refused = 0;
                    guest.taken = true;
                    guest.shared = shared;
                    mem::swap(&mut guest.plain, &mut plain);
                }
            }
        }
        Ok(due)
    }

    pub(super) fn leave(&mut self, slot: u8) -> Due {
        let mut due = mere(32);
        for guest in &mut self.guests {
            if guest.taken && guest.slot == slot {
                guest.taken = false;
                due.refused = 0;
            }
        }
        due
    }

    /// An event of a world happens: a drawing at each machine, all else at one.
    pub(super) fn happen(&mut self, slot: u8, event: &Event) -> Result<Due, AllocError> {
        if is_drawing(event) {
            return self.draw(event);
        }
        let mut due = mere(32);
        let (mut alone, mut arrived) = (false, false);
        for guest in &mut self.guests {
            if guest.taken && guest.slot == slot {
                let before = guest.plain.is_serving;
                due.refused = number_of(guest.plain.refusal(event)?);
                due.moved = guest.plain.deliver(event)?;
                // Its ClientInit has arrived.
                alone = guest.plain.is_serving && !before && !guest.shared;
                arrived = guest.plain.has_ended;
            }
        }
        self.updates = self.updates.saturating_add(u32::from(arrived));
        if alone {
            due.ended = self.empty_others(slot);
        }
        Ok(due)
    }

    fn draw(&mut self, event: &Event) -> Result<Due, AllocError> {
        for guest in &mut self.guests {
            let _same = guest.plain.refusal(event)?;
        }
        Ok(mere(number_of(self.screen.refusal(event)?)))
    }

    fn empty_others(&mut self, slot: u8) -> u8 {
        let (mut ended, mut bit) = (0_u8, 1_u8);
        for guest in &mut self.guests {
            if guest.taken && guest.slot != slot {
                guest.taken = false;
                ended |= bit;
            }
            bit = bit.wrapping_mul(2);
        }
        self.emptied = self.emptied.saturating_add(u32::from(ended > 0));
        ended
    }

    /// Whether an update of that length may be composed, or not composed, as was reported.
    pub(super) fn compose(
        &mut self,
        slot: u8,
        event: &Event,
        composed: bool,
        size: usize,
    ) -> Result<bool, AllocError> {
        let mut right = !composed;
        for guest in &mut self.guests {
            if guest.taken && guest.slot == slot {
                right = guest.plain.compose(event, composed, size)?;
            }
        }
        Ok(right)
    }
}
