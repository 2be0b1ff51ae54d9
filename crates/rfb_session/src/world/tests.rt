//! Worlds of two ends of ours.

ghost use Rattle.std.specs.Prelude.{◌≤◌};

mod calls;
mod cuts;
mod failed;
mod lists;
pub(crate) mod machine;
mod memory;

use super::World;
use crate::event::Event;
use crate::told::{Refused, Told};
use arrayvec::ArrayVec;
use rfb_picture::Rect;
use rfb_pixel::{Colour, Format};
use rfb_server::{Server, ServerSetup};
use rfb_viewer::{Viewer, ViewerSetup};
use rfb_wire::Encoding;
use std::alloc::{AllocError, Global};

// More bytes than are ever in flight here.
const ALL: u32 = 4_294_967_295;

// Its red is the least that is sent as FF at rgb888, its blue the greatest that is sent as 01.
const ORANGE: Colour = Colour {
    r: 65_407,
    g: 32_896,
    b: 385,
};

// Orange, as rgb888 shows it: 255, 128 and 1 of 255.
const ORANGE_OF_888: Colour = Colour {
    r: 65_535,
    g: 32_896,
    b: 257,
};

// Orange, as RFC 6143's rgb565 of 5, 6 and 5 bits shows it: 31 of 31, 32 of 63 and 0 of 31.
const ORANGE_OF_565: Colour = Colour {
    r: 65_535,
    g: 33_288,
    b: 0,
};

const BLACK: Colour = Colour { r: 0, g: 0, b: 0 };

const FIRST: Rect = Rect {
    x: 0,
    y: 0,
    w: 1,
    h: 1,
};

const SECOND: Rect = Rect {
    x: 1,
    y: 0,
    w: 1,
    h: 1,
};

const BOTH: Rect = Rect {
    x: 0,
    y: 0,
    w: 2,
    h: 1,
};

// A world of a row of places: version 3.8, the name `rfb`, Raw at rgb888.
fn row_of(alloc: Global, width: u16) -> Result<World, AllocError>
    requires { (1 ≤ width) × (width ≤ 4096) }
{
    let mut encodings = ArrayVec::new();
    encodings.push(Encoding::Raw);
    let server = Server::of(alloc, ServerSetup::usual(width, 1, b"rfb"))?;
    let viewing = ViewerSetup {
        encodings,
        ..ViewerSetup::usual(Format::rgb888())
    };
    World::new(alloc, server, Viewer::of(alloc, viewing))
}

// The colour of a place of the row, where one is shown.
fn shown(world: &World, x: u16) -> Option<Colour> {
    let picture = world.picture()?;
    if x < picture.width() && picture.height() > 0 {
        Some(picture.at(x, 0))
    } else {
        None
    }
}

// What an event does; `None` where memory is wanting, or where its text is longer than an event's
// may be.
fn step(world: &mut World, event: &Event) -> Option<Told> {
    match event {
        Event::CutText(text) if text.len() > 1_048_576 => None,
        event => world.step(event).ok(),
    }
}

// Whether an event is taken.
fn takes(world: &mut World, event: Event) -> bool {
    match step(world, &event) {
        Some(told) => told.refused.is_none(),
        None => false,
    }
}

// Whether an event is refused so.
fn refuses(world: &mut World, event: Event, refused: Refused) -> bool {
    match step(world, &event) {
        Some(told) => told.refused == Some(refused),
        None => false,
    }
}

// Whether an update is composed.
fn composes(world: &mut World) -> bool {
    match step(world, &Event::Compose) {
        Some(told) => told.composed,
        None => false,
    }
}

// How many of `count` bytes reach the server.
fn to_server(world: &mut World, count: u32) -> u32 {
    match step(world, &Event::ToServer(count)) {
        Some(told) => told.moved,
        None => 0,
    }
}

// How many of `count` bytes reach the viewer.
fn to_viewer(world: &mut World, count: u32) -> u32 {
    match step(world, &Event::ToViewer(count)) {
        Some(told) => told.moved,
        None => 0,
    }
}

// How many bytes arrive each way, all that is in flight at once, until none is.
fn settle(world: &mut World) -> (u32, u32) {
    let (mut server, mut viewer) = (0_u32, 0_u32);
    for _ in 0..8 {
        server = server.saturating_add(to_server(world, ALL));
        viewer = viewer.saturating_add(to_viewer(world, ALL));
    }
    (server, viewer)
}
