//! Growths that are refused: the world is closed then, and shows what it showed. Where each
//! allocation fails in turn, these tests pass all the same.

use super::*;

fn world_at_last(alloc: Global) -> Result<World, AllocError> {
    match row_of(alloc, 2) {
        Ok(world) => Ok(world),
        Err(_) => row_of(alloc, 2),
    }
}

fn new_text(alloc: Global) -> Result<Event, AllocError> {
    let text = [b'A', b'B'].to_vec(alloc)?;
    Ok(Event::CutText(text))
}

fn text_at_last(alloc: Global) -> Result<Event, AllocError> {
    match new_text(alloc) {
        Ok(text) => Ok(text),
        Err(_) => new_text(alloc),
    }
}

// After the handshake an update is composed; then each other call is made, and its message arrives.
fn event_at(turn: u32) -> Event {
    match turn {
        0 => Event::Fill(FIRST, ORANGE),
        9 => Event::Request(false, BOTH),
        11 => Event::Compose,
        15 => Event::Key(true, 97),
        17 => Event::Pointer(1, 0, 0),
        19 => Event::SetFormat(Format::rgb565()),
        21 => Event::SetEncodings(ArrayVec::new()),
        _ if turn % 2 == 0 => Event::ToServer(ALL),
        _ => Event::ToViewer(ALL),
    }
}

// Whether an event is answered by want of memory.
fn wants_memory(world: &mut World, event: &Event) -> bool {
    step(world, event).is_none()
}

// Whether nothing happens any more.
fn is_closed(world: &mut World) -> bool {
    let before = shown(world, 0);
    let closed = wants_memory(world, &Event::Fill(BOTH, BLACK))
        && wants_memory(world, &Event::ToServer(ALL))
        && wants_memory(world, &Event::ToViewer(ALL))
        && wants_memory(world, &Event::Compose);
    closed && shown(world, 0) == before
}

// Whether each event happens, or the world is closed by one for want of memory. A text is cut last.
fn is_whole_or_closed(world: &mut World, text: &Event) -> bool {
    for turn in 0..25 {
        let wanting = if turn == 23 {
            wants_memory(world, text)
        } else {
            wants_memory(world, &event_at(turn))
        };
        if wanting {
            return is_closed(world);
        }
    }
    shown(world, 0) == Some(ORANGE_OF_888) && world.link.in_flight_to_server() == 0
}

fn ends_whole_or_closed(alloc: Global) -> Result<bool, AllocError> {
    let text = text_at_last(alloc)?;
    let mut world = world_at_last(alloc)?;
    let ended = is_whole_or_closed(&mut world, &text);
    drop(world);
    Ok(ended)
}

#[test]
fn a_world_that_is_refused_memory_is_closed(rt: HostRuntime) -> Result<(), AllocError> {
    let ended = ends_whole_or_closed(rt.alloc())?;
    assert!(rt; ended);
    Ok(())
}
