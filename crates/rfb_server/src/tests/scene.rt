//! A server played step by step: what is done to it, and what it then has to answer.

ghost use Rattle.std.specs.Prelude.{◌≤◌};

use crate::Server;
use rfb_hello::Version;
use rfb_picture::Rect;
use rfb_pixel::{Colour, Format};
use std::alloc::{AllocError, Global};

/// What is done to a server, or what holds of it. One that is refused, or does not hold, is wrong.
#[derive(Clone, Copy)]
pub(super) enum Step<'a> {
    /// The client sends bytes that give at most one event.
    Feed(&'a [u8]),
    /// The same, and their event prints so.
    Tells(&'a [u8], &'a str),
    Fill(Rect, Colour),
    /// The place of that column of the first row gets the colour whose red is that byte at rgb888,
    /// with no green and no blue.
    Draw(u16, u8),
    /// The same of the place of that row of the first column.
    DrawRow(u16, u8),
    /// Colours for a part of a row, from a column on.
    Put(u16, u16, &'a [Colour]),
    Copy(Rect, u16, u16),
    /// A number of places of the first column, from a row on, get what those from another have.
    CopyRows(u16, u16, u16),
    /// The same hint, that number of times.
    Hints(u16, Rect, u16, u16),
    /// A hint that a number of places of the first row, from a column on, look as those from
    /// another.
    Hint(u16, u16, u16),
    /// The same of places of the first column.
    HintRows(u16, u16, u16),
    /// An update of exactly these bytes is composed.
    Sends(&'a [u8]),
    /// No update is composed, and no byte.
    Quiet,
    /// The colour of a place; none beyond the edges.
    Shows(u16, u16, Option<Colour>),
    /// Whether a place is asked for, and whether whole; none beyond the edges.
    Asks(u16, u16, Option<(bool, bool)>),
    /// Whether its format is rgb888.
    HasRgb888(bool),
    /// Whether the client's bytes end between two messages.
    Between(bool),
    /// How many bytes are pending.
    Pending(usize),
    Greets(&'a [u8]),
}

/// Whether the event of the bytes prints so.
pub(super) fn tells(server: &mut Server, alloc: Global, bytes: &[u8], printed: &str) -> bool {
    let told = server.feed(bytes);
    match format!(in alloc; "{told:?}") {
        Ok(text) => text.as_str() == printed,
        Err(_) => false,
    }
}

// Whether composing answers so, and appends exactly these bytes.
fn composes(server: &mut Server, alloc: Global, did: bool, bytes: &[u8]) -> bool {
    let mut out = Vec::new(alloc);
    server.compose(&mut out) == Ok(did) && out.as_slice() == bytes
}

fn hints(server: &mut Server, times: u16, to: Rect, sx: u16, sy: u16) -> bool {
    let mut kept = true;
    for _ in 0..times {
        kept = kept && server.hint(to, sx, sy).is_ok();
    }
    kept
}

fn shown(server: &Server, x: u16, y: u16) -> Option<Colour> {
    let screen = server.screen();
    if x < screen.width() && y < screen.height() {
        Some(screen.at(x, y))
    } else {
        None
    }
}

fn asked(server: &Server, x: u16, y: u16) -> Option<(bool, bool)> {
    let area = server.asked();
    if x < area.width() && y < area.height() {
        Some((area.is_asked(x, y), area.is_whole(x, y)))
    } else {
        None
    }
}

// Columns of the first row.
fn columns(x: u16, w: u16) -> Rect {
    Rect { x, y: 0, w, h: 1 }
}

// Rows of the first column.
fn rows(y: u16, h: u16) -> Rect {
    Rect { x: 0, y, w: 1, h }
}

fn draws(server: &mut Server, place: Rect, r: u8) -> bool {
    let colour = Colour {
        r: u16::from(r) * 257,
        g: 0,
        b: 0,
    };
    server.fill(place, colour).is_ok()
}

// Whether that holds of it.
fn holds(server: &Server, step: &Step) -> bool {
    match *step {
        Step::Shows(x, y, colour) => shown(server, x, y) == colour,
        Step::Asks(x, y, asks) => asked(server, x, y) == asks,
        Step::HasRgb888(has) => (server.format() == Format::rgb888()) == has,
        Step::Between(between) => server.between() == between,
        Step::Pending(count) => server.pending() == count,
        Step::Greets(text) => server.greeting().as_slice() == text,
        _ => false,
    }
}

// Whether it is drawn or hinted so.
fn is_drawn(server: &mut Server, step: &Step) -> bool {
    match *step {
        Step::Fill(rect, colour) => server.fill(rect, colour).is_ok(),
        Step::Draw(x, r) => draws(server, columns(x, 1), r),
        Step::DrawRow(y, r) => draws(server, rows(y, 1), r),
        Step::Put(x, y, row) => server.put(x, y, row).is_ok(),
        Step::Copy(to, sx, sy) => server.copy(to, sx, sy).is_ok(),
        Step::CopyRows(y, h, from) => server.copy(rows(y, h), 0, from).is_ok(),
        Step::Hints(times, to, sx, sy) => hints(server, times, to, sx, sy),
        Step::Hint(x, w, from) => hints(server, 1, columns(x, w), from, 0),
        Step::HintRows(y, h, from) => hints(server, 1, rows(y, h), 0, from),
        _ => holds(server, step),
    }
}

fn is_right(server: &mut Server, alloc: Global, step: &Step) -> bool {
    match *step {
        Step::Feed(bytes) => server.feed(bytes).is_ok(),
        Step::Tells(bytes, printed) => tells(server, alloc, bytes, printed),
        Step::Sends(bytes) => composes(server, alloc, true, bytes),
        Step::Quiet => composes(server, alloc, false, &[]),
        _ => is_drawn(server, step),
    }
}

/// The number of the first step that is wrong, if one is.
pub(super) fn first_wrong(server: &mut Server, alloc: Global, steps: &[Step]) -> Option<usize> {
    for index in 0..steps.len() {
        if !is_right(server, alloc, &steps[index]) {
            return Some(index);
        }
    }
    None
}

/// A server of a screen of that size that keeps four bytes of a text, after the handshake of 3.3,
/// RFC 6143 sections 7.1.1 and 7.3.1.
pub(super) fn ready(alloc: Global, width: u16, height: u16) -> Result<Server, AllocError>
    requires columns { (1 ≤ width) × (width ≤ 4096) }
    requires rows { (1 ≤ height) × (height ≤ 4096) }
{
    let name = b"t".as_slice();
    let mut server = Server::new(alloc, width, height, name, Version::V38, 4)?;
    feed(&mut server, b"RFB 003.003\n".as_slice());
    feed(&mut server, b"\x01".as_slice());
    Ok(server)
}

/// Feeds it bytes that give at most one event.
pub(super) fn feed(server: &mut Server, bytes: &[u8]) {
    let _told = server.feed(bytes);
}

/// The number of the first step that is wrong of such a server, if one is; and how many steps there
/// are, where memory is wanting for a server.
pub(super) fn first_wrong_of(
    alloc: Global,
    width: u16,
    height: u16,
    steps: &[Step],
) -> Option<usize>
    requires columns { (1 ≤ width) × (width ≤ 4096) }
    requires rows { (1 ≤ height) × (height ≤ 4096) }
{
    match ready(alloc, width, height) {
        Ok(server) => first_wrong_then_drop(server, alloc, steps),
        Err(_) => Some(steps.len()),
    }
}

/// The number of the first step that is wrong of a server that is then dropped.
pub(super) fn first_wrong_then_drop(
    server: Server,
    alloc: Global,
    steps: &[Step],
) -> Option<usize> {
    let mut server = server;
    let wrong = first_wrong(&mut server, alloc, steps);
    drop(server);
    wrong
}
