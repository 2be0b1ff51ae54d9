//! Items that arrive in pieces: byte by byte, and an update that is split at each of its bytes.

use super::*;

// How many bytes arrive each way, a byte at a time, until none is in flight.
fn byte_by_byte(world: &mut World) -> (u32, u32) {
    let (mut server, mut viewer) = (0_u32, 0_u32);
    for _ in 0..200 {
        server = server.saturating_add(to_server(world, 1));
        viewer = viewer.saturating_add(to_viewer(world, 1));
    }
    (server, viewer)
}

// A handshake, a request and its update, whose bytes arrive one by one.
fn runs_in_single_bytes(world: &mut World) -> bool {
    world.picture().is_none()
        && takes(world, Event::Fill(FIRST, ORANGE))
        // 12 and 1 and 1 and 20 and 8; 12 and 2 and 4 and 24 and 3.
        && byte_by_byte(world) == (42, 45)
        && shown(world, 0) == Some(BLACK)
        && takes(world, Event::Request(false, FIRST))
        && byte_by_byte(world) == (10, 0)
        && composes(world)
        && byte_by_byte(world) == (0, 20)
        && shown(world, 0) == Some(ORANGE_OF_888)
}

fn arrives_in_single_bytes(alloc: Global) -> Result<bool, AllocError> {
    let mut world = row_of(alloc, 1)?;
    let arrived = runs_in_single_bytes(&mut world);
    drop(world);
    Ok(arrived)
}

#[test]
fn a_session_arrives_in_single_bytes(rt: HostRuntime) -> Result<(), AllocError> {
    let arrived = arrives_in_single_bytes(rt.alloc())?;
    assert!(rt; arrived);
    Ok(())
}

fn rgb565() -> Event {
    Event::SetFormat(Format::rgb565())
}

// A request is composed once its last byte has arrived, and `count` bytes of its update arrive.
fn is_cut_at(world: &mut World, count: u32) -> bool {
    takes(world, Event::Fill(FIRST, ORANGE))
        && settle(world) == (42, 45)
        && takes(world, Event::Request(false, BOTH))
        && to_server(world, 9) == 9
        && !composes(world)
        && to_server(world, 1) == 1
        && composes(world)
        && to_viewer(world, count) == count
}

// The format is taken, and the next update is of it. `before` bytes were in flight to the server.
fn changes_format(world: &mut World, before: u32) -> bool {
    takes(world, rgb565())
        && takes(world, Event::Request(true, BOTH))
        && settle(world) == (before.saturating_add(30), 0)
        && composes(world)
        && settle(world) == (0, 20)
        && shown(world, 0) == Some(ORANGE_OF_565)
        && shown(world, 1) == Some(BLACK)
}

fn waits_when_cut_at(alloc: Global, count: u32) -> Result<bool, AllocError> {
    let mut world = row_of(alloc, 2)?;
    let waits = waits_in(&mut world, count);
    drop(world);
    Ok(waits)
}

fn waits_in(world: &mut World, count: u32) -> bool {
    is_cut_at(world, count)
        && refuses(world, rgb565(), Refused::Busy)
        && to_viewer(world, ALL) == 24_u32.saturating_sub(count)
        && shown(world, 0) == Some(ORANGE_OF_888)
        && changes_format(world, 0)
}

#[test]
fn a_format_waits_for_an_update_that_is_cut_anywhere(rt: HostRuntime) -> Result<(), AllocError> {
    for count in 0..24 {
        let waits = waits_when_cut_at(rt.alloc(), count)?;
        assert!(rt; waits, "cut at {count}");
    }
    Ok(())
}

fn is_taken_and_again(world: &mut World) -> bool {
    is_cut_at(world, 24) && takes(world, rgb565()) && changes_format(world, 20)
}

fn takes_a_format_twice(alloc: Global) -> Result<bool, AllocError> {
    let mut world = row_of(alloc, 2)?;
    let taken = is_taken_and_again(&mut world);
    drop(world);
    Ok(taken)
}

#[test]
fn a_format_is_taken_after_a_whole_update_and_again(rt: HostRuntime) -> Result<(), AllocError> {
    let taken = takes_a_format_twice(rt.alloc())?;
    assert!(rt; taken);
    Ok(())
}
