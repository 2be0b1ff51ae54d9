//! Calls and drawings: what is taken, how the rest is refused, and how long messages are.

use super::*;

const FOUR: Rect = Rect {
    x: 0,
    y: 0,
    w: 4,
    h: 1,
};

const RIGHT_HALF: Rect = Rect {
    x: 2,
    y: 0,
    w: 2,
    h: 1,
};

// Whether the viewer's calls are refused, each with `NotReady`.
fn waits_for_the_handshake(world: &mut World) -> bool {
    refuses(world, Event::Request(false, FIRST), Refused::NotReady)
        && refuses(world, Event::Key(true, 97), Refused::NotReady)
        && refuses(world, Event::Pointer(1, 0, 0), Refused::NotReady)
        && refuses(world, Event::SetFormat(Format::bgr233()), Refused::NotReady)
        && refuses(
            world,
            Event::SetEncodings(ArrayVec::new()),
            Refused::NotReady,
        )
}

// Whether drawings and hints are taken on the screen, and refused off it.
fn may_be_drawn_on(world: &mut World) -> bool {
    takes(world, Event::Fill(BOTH, ORANGE))
        && takes(world, Event::Hint(SECOND, 0, 0))
        && takes(world, Event::Copy(SECOND, 0, 0))
        && refuses(world, Event::Copy(BOTH, 1, 0), Refused::Outside)
        && refuses(world, Event::Hint(BOTH, 1, 0), Refused::Outside)
        && refuses(
            world,
            Event::Fill(Rect { h: 2, ..BOTH }, BLACK),
            Refused::Outside,
        )
}

fn refuses_calls(alloc: Global) -> Result<(bool, u32, u32), AllocError> {
    let mut world = row_of(alloc, 2)?;
    let refused = waits_for_the_handshake(&mut world) && may_be_drawn_on(&mut world);
    let (server, viewer) = (to_server(&mut world, ALL), to_viewer(&mut world, ALL));
    drop(world);
    Ok((refused, server, viewer))
}

#[test]
fn a_call_before_the_handshake_is_refused(rt: HostRuntime) -> Result<(), AllocError> {
    let refused = refuses_calls(rt.alloc())?;
    // The greeting alone is in flight.
    assert_eq!(rt; refused, (true, 0, 12));
    Ok(())
}

// A request is judged by what is outstanding, and then by its area.
fn judges_requests(world: &mut World) -> bool {
    let outside = Rect { w: 3, ..BOTH };
    settle(world) == (42, 45)
        && refuses(world, Event::Request(true, outside), Refused::AreaOutside)
        && takes(world, Event::Request(true, BOTH))
        && refuses(world, Event::Request(true, outside), Refused::Busy)
        && to_server(world, ALL) == 10
}

fn judges_in_order(alloc: Global) -> Result<bool, AllocError> {
    let mut world = row_of(alloc, 2)?;
    let judged = judges_requests(&mut world);
    drop(world);
    Ok(judged)
}

#[test]
fn a_request_is_judged_by_what_is_outstanding_and_then_by_its_area(
    rt: HostRuntime,
) -> Result<(), AllocError> {
    let judged = judges_in_order(rt.alloc())?;
    assert!(rt; judged);
    Ok(())
}

fn two_encodings() -> Event {
    let mut encodings = ArrayVec::new();
    encodings.push(Encoding::Hextile);
    encodings.push(Encoding::CopyRect);
    Event::SetEncodings(encodings)
}

// How many bytes a call puts in flight to the server.
fn size_of(world: &mut World, event: Event) -> u32 {
    if takes(world, event) {
        to_server(world, ALL)
    } else {
        0
    }
}

fn sizes_in(world: &mut World, text: Event) -> [u32; 4] {
    settle(world);
    [
        size_of(world, Event::Key(true, 97)),
        size_of(world, Event::Pointer(1, 1, 0)),
        size_of(world, two_encodings()),
        size_of(world, text),
    ]
}

fn sizes_of_calls(alloc: Global) -> Result<[u32; 4], AllocError> {
    let text = text_of(alloc, 2000)?;
    let mut world = row_of(alloc, 2)?;
    let sizes = sizes_in(&mut world, text);
    drop(world);
    Ok(sizes)
}

#[test]
fn each_call_is_a_message_of_its_size(rt: HostRuntime) -> Result<(), AllocError> {
    let sizes = sizes_of_calls(rt.alloc())?;
    assert_eq!(rt; sizes, [8, 6, 12, 2008]);
    Ok(())
}

// A text of `count` letters.
fn text_of(alloc: Global, count: usize) -> Result<Event, AllocError> {
    let mut text = Vec::new(alloc);
    text.resize(count, b'A')?;
    Ok(Event::CutText(text))
}

// A row of black and orange, from a column on.
fn row_from(alloc: Global, x: u16) -> Result<Event, AllocError> {
    let row = [BLACK, ORANGE].to_vec(alloc)?;
    Ok(Event::Put(x, 0, row))
}

// What both places show once all was asked for and sent.
fn shown_after_an_update(world: &mut World) -> [Option<Colour>; 2] {
    settle(world);
    if takes(world, Event::Request(false, BOTH)) && settle(world) == (10, 0) && composes(world) {
        settle(world);
    }
    [shown(world, 0), shown(world, 1)]
}

// What both places show of a row, where one that leaves the screen was refused before.
fn shown_of_a_row(world: &mut World, outside: Event, row: Event) -> Option<[Option<Colour>; 2]> {
    if refuses(world, outside, Refused::Outside) && takes(world, row) {
        Some(shown_after_an_update(world))
    } else {
        None
    }
}

fn puts_a_row(alloc: Global) -> Result<Option<[Option<Colour>; 2]>, AllocError> {
    let row = row_from(alloc, 0)?;
    let outside = row_from(alloc, 1)?;
    let mut world = row_of(alloc, 2)?;
    let shown = shown_of_a_row(&mut world, outside, row);
    drop(world);
    Ok(shown)
}

#[test]
fn a_row_is_put(rt: HostRuntime) -> Result<(), AllocError> {
    let shown = puts_a_row(rt.alloc())?;
    assert_eq!(rt; shown, Some([Some(BLACK), Some(ORANGE_OF_888)]));
    Ok(())
}

fn copy_rect_alone() -> Event {
    let mut encodings = ArrayVec::new();
    encodings.push(Encoding::CopyRect);
    Event::SetEncodings(encodings)
}

// All is asked for and sent; how many bytes reached the viewer.
fn refresh(world: &mut World, incremental: bool) -> u32 {
    let asked = takes(world, Event::Request(incremental, FOUR));
    let (server, _viewer) = settle(world);
    if asked && server == 10 && composes(world) {
        let (_server, viewer) = settle(world);
        viewer
    } else {
        0
    }
}

// How many bytes an update of four places has, and after a copy that is hinted at, and what the
// last place shows then.
fn copies(world: &mut World) -> (u32, u32, Option<Colour>) {
    takes(world, Event::Fill(BOTH, ORANGE));
    settle(world);
    takes(world, copy_rect_alone());
    settle(world);
    let pixels = refresh(world, false);
    takes(world, Event::Copy(RIGHT_HALF, 0, 0));
    takes(world, Event::Hint(RIGHT_HALF, 0, 0));
    let copy = refresh(world, true);
    (pixels, copy, shown(world, 3))
}

fn copies_on_a_row(alloc: Global) -> Result<(u32, u32, Option<Colour>), AllocError> {
    let mut world = row_of(alloc, 4)?;
    let copied = copies(&mut world);
    drop(world);
    Ok(copied)
}

#[test]
fn a_hinted_copy_arrives_as_its_source(rt: HostRuntime) -> Result<(), AllocError> {
    let copied = copies_on_a_row(rt.alloc())?;
    // After two heads of 4 and 12 bytes: four pixels of four bytes; then a column and a row, where
    // two pixels would be 8 bytes.
    assert_eq!(rt; copied, (32, 20, Some(ORANGE_OF_888)));
    Ok(())
}
