//! Pictures in memory, drawn as they are. Pixels are laid out as RFC 6143 section 7.4 has them.

use crate::{Drawing, Server, ServerSetup};
use rfb_picture::Rect;
use rfb_pixel::{Colour, Format};
use std::alloc::{AllocError, Global};

// Two columns and three rows, from (1, 1) on.
const AREA: Rect = Rect {
    x: 1,
    y: 1,
    w: 2,
    h: 3,
};

// Of each place a byte of red, of green and of blue.
const BYTES: &[u8] = &[
    1, 2, 3, 4, 5, 6, // the first row
    7, 8, 9, 250, 251, 252, // the second
    13, 14, 15, 16, 17, 18, // the third
];

// 32 bits a pixel, big-endian, true colour, maxima of 255, blue shifted by 16, green by 8.
const BIG_ENDIAN: &[u8; 16] = &[32, 24, 1, 1, 0, 255, 0, 255, 0, 255, 0, 8, 16, 0, 0, 0];

// A byte that says nothing, then blue, green, red.
const PIXELS: &[u8] = &[
    0, 3, 2, 1, 0, 6, 5, 4, // the first row
    0, 9, 8, 7, 0, 252, 251, 250, // the second
    0, 15, 14, 13, 0, 18, 17, 16, // the third
];

fn black(alloc: Global) -> Result<Server, AllocError> {
    Server::of(alloc, ServerSetup::usual(4, 5, b"t"))
}

fn shows(server: &Server, x: u16, y: u16, r: u8, g: u8, b: u8) -> bool {
    server.screen().holds(Rect::new(x, y, 1, 1))
        && server.screen().at(x, y) == Colour::of_bytes(r, g, b)
}

// Whether the six places have the colours of `BYTES`, and those around them are black.
fn shows_all(server: &Server) -> bool {
    shows(server, 1, 1, 1, 2, 3)
        && shows(server, 2, 1, 4, 5, 6)
        && shows(server, 1, 2, 7, 8, 9)
        && shows(server, 2, 2, 250, 251, 252)
        && shows(server, 1, 3, 13, 14, 15)
        && shows(server, 2, 3, 16, 17, 18)
        && shows(server, 0, 2, 0, 0, 0)
        && shows(server, 3, 2, 0, 0, 0)
        && shows(server, 1, 0, 0, 0, 0)
        && shows(server, 2, 4, 0, 0, 0)
}

#[test]
fn three_bytes_a_place_are_its_colour(rt: HostRuntime) -> Result<(), AllocError> {
    let mut server = black(rt.alloc())?;
    let drawn = server.draw(&Drawing::Bytes(AREA, BYTES)).is_ok();
    let shown = shows_all(&server);
    drop(server);
    assert!(rt; drawn && shown);
    Ok(())
}

#[test]
fn pixels_are_read_in_the_byte_order_of_their_format(rt: HostRuntime) -> Result<(), AllocError> {
    let mut server = black(rt.alloc())?;
    let drawn = match Format::read(BIG_ENDIAN) {
        Ok(format) => server.draw(&Drawing::Pixels(AREA, format, PIXELS)).is_ok(),
        Err(_) => false,
    };
    let shown = shows_all(&server);
    drop(server);
    assert!(rt; drawn && shown);
    Ok(())
}

#[test]
fn a_scroll_moves_what_lies_there(rt: HostRuntime) -> Result<(), AllocError> {
    let mut server = black(rt.alloc())?;
    let drawn = server.draw(&Drawing::Bytes(AREA, BYTES)).is_ok()
        && server
            .draw(&Drawing::Scroll(Rect::new(0, 1, 3, 3), -1, 1))
            .is_ok();
    let shown = shows(&server, 0, 2, 1, 2, 3)
        && shows(&server, 1, 2, 4, 5, 6)
        && shows(&server, 1, 3, 250, 251, 252)
        && shows(&server, 2, 3, 16, 17, 18)
        && shows(&server, 1, 1, 1, 2, 3)
        && shows(&server, 0, 1, 0, 0, 0);
    drop(server);
    assert!(rt; drawn && shown);
    Ok(())
}
