//! Hubs run by events that are drawn by lot, beside a plain machine for each viewer that joined.

ghost use Rattle.std.specs.Prelude.{IfOk};
ghost use Rattle.rfb_session.specs.Hub.{HasFewHubBytes};
ghost use Rattle.rfb_session.specs.HubSeats.{HasFewSlotBytes};

use super::*;
use crate::HubSetup;
use crate::event::Event;
use crate::link::copy_of;
use crate::slots::seat_of;
use crate::world::tests::machine::lot::Lot;
use crate::world::tests::machine::{encodings_of, format_of, version_of};

mod table;

use table::{Due, Guest, Table};

const HUBS: u16 = 126;

const TURNS: u32 = 200;

// An event of a world, at a slot of a hub. None here has a long text.
fn event_of(alloc: Global, slot: u8, event: &Event) -> Result<HubEvent, AllocError>
    ensures few { IfOk result HasFewHubBytes }
{
    match event {
        Event::Fill(rect, colour) => Ok(HubEvent::Fill(*rect, *colour)),
        Event::Put(x, y, row) => Ok(HubEvent::Put(*x, *y, row.as_slice().to_vec(alloc)?)),
        Event::Copy(rect, x, y) => Ok(HubEvent::Copy(*rect, *x, *y)),
        Event::Hint(rect, x, y) => Ok(HubEvent::Hint(*rect, *x, *y)),
        event => Ok(HubEvent::Of(slot, slot_event_of(alloc, event)?)),
    }
}

fn slot_event_of(alloc: Global, event: &Event) -> Result<SlotEvent, AllocError>
    ensures few { IfOk result HasFewSlotBytes }
{
    match event {
        Event::Request(incremental, rect) => Ok(SlotEvent::Request(*incremental, *rect)),
        Event::SetFormat(format) => Ok(SlotEvent::SetFormat(*format)),
        Event::SetEncodings(encodings) => Ok(SlotEvent::SetEncodings(copy_of(encodings))),
        Event::Key(down, key) => Ok(SlotEvent::Key(*down, *key)),
        Event::Pointer(buttons, x, y) => Ok(SlotEvent::Pointer(*buttons, *x, *y)),
        Event::CutText(text) if text.len() <= 1_048_576 => {
            Ok(SlotEvent::CutText(text.as_slice().to_vec(alloc)?))
        }
        Event::ToServer(count) => Ok(SlotEvent::ToServer(*count)),
        Event::ToViewer(count) => Ok(SlotEvent::ToViewer(*count)),
        _ => Ok(SlotEvent::Compose),
    }
}

// The number of a refusal, 0 for none.
fn number_of(refused: Option<HubFault>) -> u8 {
    let Some(fault) = refused else {
        return 0;
    };
    match fault {
        HubFault::Outside => 24,
        HubFault::NotReady => 25,
        HubFault::Busy => 26,
        HubFault::AreaOutside => 27,
        HubFault::SlotTaken => 31,
        HubFault::NoSuchSlot => 32,
    }
}

fn in_flight_to_viewer(hub: &Hub, slot: u8) -> usize {
    match seat_of(&hub.slots, slot) {
        Some(seat) => seat.link().in_flight_to_viewer(),
        None => 0,
    }
}

// Whether a slot is as its machine.
fn is_alike(hub: &Hub, guest: &mut Guest) -> bool {
    let Some(seat) = seat_of(&hub.slots, guest.slot) else {
        return !guest.taken;
    };
    guest.taken
        && hub.fault(guest.slot).is_none()
        && seat.link().in_flight_to_server() == guest.plain.to_server.len()
        && seat.link().in_flight_to_viewer() == guest.plain.to_viewer.len()
        && guest.plain.shows(hub.picture(guest.slot))
}

// Whether a hub answers as it is due, and is as the table after it.
fn is_as(hub: &Hub, table: &mut Table, told: HubTold, due: Due) -> bool {
    let mut alike = told.moved == due.moved
        && number_of(told.refused) == due.refused
        && told.ended == due.ended;
    for guest in &mut table.guests {
        alike = alike && is_alike(hub, guest);
    }
    alike
}

// Whether both answer an event of a slot alike, and are alike after it.
fn both_take(
    hub: &mut Hub,
    table: &mut Table,
    slot: u8,
    event: &Event,
) -> Result<bool, AllocError> {
    let due = table.happen(slot, event)?;
    let before = in_flight_to_viewer(hub, slot);
    let happening = event_of(table.alloc, slot, event)?;
    let Some(told) = step(hub, happening) else {
        return Ok(false);
    };
    let size = in_flight_to_viewer(hub, slot).saturating_sub(before);
    let composed = table.compose(slot, event, told.composed, size)?;
    Ok(composed && is_as(hub, table, told, due))
}

// The same where a viewer joins.
fn both_join(
    hub: &mut Hub,
    table: &mut Table,
    slot: u8,
    number: u16,
    shared: bool,
) -> Result<bool, AllocError> {
    let due = table.join(slot, number, shared)?;
    let setup = Setup {
        format: format_of(number),
        encodings: encodings_of(number / 9),
        limit: version_of(number / 3),
        shared,
        max_places: 4096,
        text_limit: 16,
    };
    let Some(told) = step(hub, HubEvent::Join(slot, setup)) else {
        return Ok(false);
    };
    Ok(!told.composed && is_as(hub, table, told, due))
}

// The same where one leaves.
fn both_leave(hub: &mut Hub, table: &mut Table, slot: u8) -> bool {
    let due = table.leave(slot);
    let Some(told) = step(hub, HubEvent::Leave(slot)) else {
        return false;
    };
    !told.composed && is_as(hub, table, told, due)
}

// All bytes reach the session of a slot, then an update is composed, and all reach the viewer.
fn both_settle(hub: &mut Hub, table: &mut Table, slot: u8) -> Result<bool, AllocError> {
    let to_server = both_take(hub, table, slot, &Event::ToServer(ALL))?;
    let composed = both_take(hub, table, slot, &Event::Compose)?;
    let to_viewer = both_take(hub, table, slot, &Event::ToViewer(ALL))?;
    Ok(to_server && composed && to_viewer)
}

// The same, once the viewer has asked for the screen.
fn both_ask(
    hub: &mut Hub,
    table: &mut Table,
    slot: u8,
    incremental: bool,
) -> Result<bool, AllocError> {
    let screen = Rect {
        x: 0,
        y: 0,
        w: table.screen.width,
        h: table.screen.height,
    };
    let asked = both_take(hub, table, slot, &Event::Request(incremental, screen))?;
    let settled = both_settle(hub, table, slot)?;
    Ok(asked && settled)
}

// What is drawn next happens to both, at one of three slots.
fn turn(hub: &mut Hub, table: &mut Table, lot: &mut Lot, first: u8) -> Result<bool, AllocError> {
    let slot = first.saturating_add(lot.up_to(2) as u8);
    match lot.up_to(63) {
        0 => Ok(both_leave(hub, table, slot)),
        1..=6 => both_join(hub, table, slot, lot.up_to(251), lot.up_to(7) > 0),
        7..=24 => both_settle(hub, table, slot),
        25..=31 => both_ask(hub, table, slot, lot.up_to(1) > 0),
        _ => {
            let event = lot.event(table.alloc, table.screen.width, table.screen.height)?;
            both_take(hub, table, slot, &event)
        }
    }
}

// Whether the two agree at a number of turns.
fn agree(hub: &mut Hub, table: &mut Table, lot: &mut Lot) -> Result<bool, AllocError> {
    // The last slots are 6, 7, and 8, which is none.
    let first = lot.up_to(6) as u8;
    for _ in 0..TURNS {
        if !turn(hub, table, lot, first)? {
            return Ok(false);
        }
    }
    Ok(true)
}

// Whether they agree in the run of that number, how many updates arrived, and how often slots were
// emptied.
fn run_of(alloc: Global, number: u16) -> Result<(bool, u32, u32), AllocError> {
    let mut lot = Lot::new(u64::from(number));
    let width = 1 + lot.up_to(11);
    let height = 1 + lot.up_to(3);
    let mut table = Table::new(alloc, width, height, number)?;
    let setup = HubSetup {
        offer: version_of(number),
        text_limit: 16,
        ..HubSetup::usual(width, height, b"rfb")
    };
    let mut hub = Hub::of(alloc, setup)?;
    let agreed = agree(&mut hub, &mut table, &mut lot);
    drop(hub);
    Ok((agreed?, table.updates, table.emptied))
}

#[test]
fn hubs_run_as_plain_machines(rt: HostRuntime) -> Result<(), AllocError> {
    let (mut updates, mut emptied) = (0_u32, 0_u32);
    for number in 0..HUBS {
        let run = run_of(rt.alloc(), number)?;
        assert!(rt; run.0, "hub {number}");
        updates = updates.saturating_add(run.1);
        emptied = emptied.saturating_add(run.2);
    }
    // They are no idle runs.
    assert!(rt;
        updates > 900 && emptied > 50,
        "{updates} updates, {emptied} times emptied"
    );
    Ok(())
}
