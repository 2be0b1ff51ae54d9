//! Events as one list.

ghost use Rattle.std.specs.Prelude.{All, IfOk};
ghost use Rattle.rfb_session.specs.World.{HasFewBytes};

use super::*;

#[derive(Clone, Copy)]
enum List {
    // The first place is orange, is asked for, and is sent; each delivery is of one byte.
    SingleBytes,
    // Both places are sent, in an update that is split inside a pixel; then the format is another
    // one, and the second place a copy of the first.
    AnotherFormat,
}

// How many events a list has.
fn count_of(list: List) -> u32 {
    match list {
        List::SingleBytes => 300,
        List::AnotherFormat => 25,
    }
}

fn single_byte_at(turn: u32) -> Event
    ensures { HasFewBytes result }
{
    match turn {
        0 => Event::Fill(FIRST, ORANGE),
        200 => Event::Request(false, FIRST),
        240 => Event::Compose,
        _ if turn % 2 == 0 => Event::ToServer(1),
        _ => Event::ToViewer(1),
    }
}

fn another_format_at(turn: u32) -> Event
    ensures { HasFewBytes result }
{
    match turn {
        10 => Event::Fill(FIRST, ORANGE),
        11 => Event::Request(false, BOTH),
        12 => Event::ToServer(9),
        13 | 15 | 23 => Event::Compose,
        14 => Event::ToServer(1),
        16 => Event::ToViewer(19),
        // Refused, and then taken.
        17 | 19 => Event::SetFormat(Format::rgb565()),
        18 | 24 => Event::ToViewer(ALL),
        20 => Event::Copy(SECOND, 0, 0),
        21 => Event::Request(true, BOTH),
        _ if turn % 2 == 0 => Event::ToServer(ALL),
        _ => Event::ToViewer(ALL),
    }
}

fn event_at(list: List, turn: u32) -> Event
    ensures { HasFewBytes result }
{
    match list {
        List::SingleBytes => single_byte_at(turn),
        List::AnotherFormat => another_format_at(turn),
    }
}

fn events_of(alloc: Global, list: List) -> Result<Vec<Event>, AllocError>
    ensures few { IfOk result (λ events. All HasFewBytes events.items) }
{
    let mut events = Vec::new(alloc);
    for turn in 0..count_of(list) {
        events.push(event_at(list, turn))?;
    }
    Ok(events)
}

fn shown_after_single_bytes(alloc: Global) -> Result<Option<Colour>, AllocError> {
    let events = events_of(alloc, List::SingleBytes)?;
    let mut world = row_of(alloc, 1)?;
    let shown = match world.run(&events) {
        Ok(()) => shown(&world, 0),
        Err(_) => None,
    };
    drop(world);
    Ok(shown)
}

#[test]
fn a_session_in_single_bytes_is_one_list(rt: HostRuntime) -> Result<(), AllocError> {
    let shown = shown_after_single_bytes(rt.alloc())?;
    assert_eq!(rt; shown, Some(ORANGE_OF_888));
    Ok(())
}

// Both places, after the list.
fn shown_after_another_format(alloc: Global) -> Result<[Option<Colour>; 2], AllocError> {
    let events = events_of(alloc, List::AnotherFormat)?;
    let Ok(world) = World::played(alloc, 2, 1, &events) else {
        return Ok([None, None]);
    };
    let shown = [shown(&world, 0), shown(&world, 1)];
    drop(world);
    Ok(shown)
}

#[test]
fn a_run_composes_and_copies_and_changes_its_format(rt: HostRuntime) -> Result<(), AllocError> {
    let shown = shown_after_another_format(rt.alloc())?;
    assert_eq!(rt; shown, [Some(ORANGE_OF_565), Some(ORANGE_OF_565)]);
    Ok(())
}
