//! A screen that is scrolled by a row: one CopyRect, and the new row, RFC 6143 section 7.7.2.

use super::scene::{feed, ready};
use crate::Server;
use rfb_picture::Rect;
use rfb_pixel::Colour;
use std::alloc::{AllocError, Global};

// SetEncodings with Raw and CopyRect.
const LIST: &[u8] = b"\x02\0\0\x02\0\0\0\0\0\0\0\x01";

// Requests for all of 64 by 64 places: whole, and what changed.
const ALL: &[u8] = b"\x03\0\0\0\0\0\0\x40\0\x40";

const CHANGED: &[u8] = b"\x03\x01\0\0\0\0\0\x40\0\x40";

fn row(y: u16) -> Rect {
    Rect {
        x: 0,
        y,
        w: 64,
        h: 1,
    }
}

// Each row of the screen has another colour.
fn draw(server: &mut Server) {
    for y in 0..64 {
        let colour = Colour {
            r: y * 257,
            g: 0,
            b: 0,
        };
        let _drawn = server.fill(row(y), colour);
    }
}

// Two rectangles: 63 rows copied from row 1 on, and the heads of row 63 in Raw.
const HEADS: &[u8] =
    b"\0\0\0\x02\0\0\0\0\0\x40\0\x3F\0\0\0\x01\0\0\0\x01\0\0\0\x3F\0\x40\0\x01\0\0\0\0";

// Whether the bytes are these and 64 blue pixels at rgb888.
fn is_scrolled(bytes: &[u8]) -> bool {
    let (heads, pixels) = bytes.split_at(bytes.len().min(32));
    let mut blue = heads == HEADS && pixels.len() == 256;
    for pixel in pixels.chunks(4) {
        blue = blue && pixel == b"\xFF\0\0\0".as_slice();
    }
    blue
}

const BLUE: Colour = Colour {
    r: 0,
    g: 0,
    b: 65_535,
};

// Its colours.
const LAST_ROW: &[Colour] = &[BLUE; 64];

// Whether all moves a row higher, and the last row becomes blue.
fn scrolls_up(server: &mut Server) -> bool {
    server.scroll(Rect::whole(64, 64), 0, -1).is_ok() && server.put_rows(row(63), LAST_ROW).is_ok()
}

// Whether the viewer gets all that it asks for.
fn sends_all(server: &mut Server, alloc: Global) -> bool {
    draw(server);
    feed(server, LIST);
    feed(server, ALL);
    let mut out = Vec::new(alloc);
    server.compose(&mut out) == Ok(true)
}

// Whether it is scrolled for the viewer.
fn sends_scrolled(server: &mut Server, alloc: Global) -> bool {
    feed(server, CHANGED);
    let mut out = Vec::new(alloc);
    server.compose(&mut out) == Ok(true) && is_scrolled(out.as_slice())
}

// Whether all that a viewer has is scrolled for it.
fn scrolls(server: &mut Server, alloc: Global) -> bool {
    sends_all(server, alloc) && scrolls_up(server) && sends_scrolled(server, alloc)
}

fn is_sent(alloc: Global) -> Result<bool, AllocError> {
    let mut server = ready(alloc, 64, 64)?;
    let scrolled = scrolls(&mut server, alloc);
    drop(server);
    Ok(scrolled)
}

#[test]
fn a_scroll_is_one_copy_and_its_new_row(rt: HostRuntime) -> Result<(), AllocError> {
    assert!(rt; is_sent(rt.alloc())?);
    Ok(())
}

// ---- a blank screen

// Each of sixteen scrolls is hinted, and leaves all as it is.
fn scrolls_blank(server: &mut Server) -> bool {
    for _ in 0..16u8 {
        if server.scroll(Rect::whole(64, 64), 0, -1).is_err() {
            return false;
        }
    }
    true
}

fn sends_nothing(server: &mut Server, alloc: Global) -> bool {
    feed(server, LIST);
    feed(server, ALL);
    let mut out = Vec::new(alloc);
    let first = server.compose(&mut out) == Ok(true);
    let scrolled = scrolls_blank(server);
    feed(server, CHANGED);
    first && scrolled && server.compose(&mut out) == Ok(false)
}

fn is_left(alloc: Global) -> Result<bool, AllocError> {
    let mut server = ready(alloc, 64, 64)?;
    let left = sends_nothing(&mut server, alloc);
    drop(server);
    Ok(left)
}

#[test]
fn a_blank_screen_that_scrolls_is_not_sent(rt: HostRuntime) -> Result<(), AllocError> {
    assert!(rt; is_left(rt.alloc())?);
    Ok(())
}
