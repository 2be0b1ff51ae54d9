//! A world and the plain machine, at the same events.

use super::lot::Lot;
use super::plain::Plain;
use crate::event::Event;
use crate::world::World;
use crate::world::tests::step;
use std::alloc::{AllocError, Global};

// Whether both answer an event alike, and are alike after it.
fn is_alike(world: &mut World, plain: &mut Plain, event: &Event) -> Result<bool, AllocError> {
    let before = world.link.in_flight_to_viewer();
    let Some(told) = step(world, event) else {
        return Ok(false);
    };
    let refused = plain.refusal(event)?;
    let moved = plain.deliver(event)?;
    let composed = plain.compose(
        event,
        told.composed,
        world.link.in_flight_to_viewer().saturating_sub(before),
    )?;
    Ok(
        told.refused == refused
            && told.moved == moved
            && composed
            && world.link.in_flight_to_server() == plain.to_server.len()
            && world.link.in_flight_to_viewer() == plain.to_viewer.len()
            && plain.shows(world.picture()),
    )
}

/// How many updates arrive whole in a number of events; `None` where the two differ.
pub(super) fn updates_of(
    world: &mut World,
    plain: &mut Plain,
    alloc: Global,
    lot: &mut Lot,
    count: u32,
) -> Result<Option<u32>, AllocError> {
    for _ in 0..count {
        let event = lot.event(alloc, plain.width, plain.height)?;
        if !is_alike(world, plain, &event)? {
            return Ok(None);
        }
    }
    Ok(Some(plain.updates))
}
