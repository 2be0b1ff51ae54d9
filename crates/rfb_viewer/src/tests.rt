//! Tests of a viewer that is fed what servers send. Streams, answers and colours were worked out by
//! hand from RFC 6143. Most tests are lists of steps, written as constants behind a `&`: a list
//! that is made in a test's body takes several times as long to prove.

mod calls;
mod counted;
mod cuts;
mod damage;
mod encodings;
mod faults;
mod handshakes;
mod hostile;
mod long_texts;
mod messages;
mod moved;
mod offered;
mod one_server;
mod painting;
mod pending;
mod plain;
mod play;

use crate::{Viewer, ViewerEvent};
use arrayvec::ArrayVec;
use rfb_hello::{Fed, Version};
use rfb_pixel::{Colour, Format};
use rfb_wire::Encoding;
use std::alloc::{AllocError, Global};

const BLACK: Colour = Colour { r: 0, g: 0, b: 0 };

// Pixels 10 and 20 at bgr233: 2 and 4 sevenths of green, rounded.
const TEN: Colour = Colour {
    r: 0,
    g: 18_724,
    b: 0,
};

const TWENTY: Colour = Colour {
    r: 0,
    g: 37_449,
    b: 0,
};

// A viewer of shared screens of up to 1,024 places that takes Raw, and keeps four bytes of a text.
fn viewer(alloc: Global, format: Format, limit: Version) -> Viewer {
    let mut encodings = ArrayVec::new();
    encodings.push(Encoding::Raw);
    Viewer::new(alloc, format, encodings, limit, true, 1_024, 4)
}

// A server of 3.3 of so wide and high a screen of no name, up to the end of its handshake.
const HELLO_1_BY_1: &[u8] = b"RFB 003.003\n\0\0\0\x01\0\x01\0\x01................\0\0\0\0";

const HELLO_2_BY_1: &[u8] = b"RFB 003.003\n\0\0\0\x01\0\x02\0\x01................\0\0\0\0";

const HELLO_17_BY_1: &[u8] = b"RFB 003.003\n\0\0\0\x01\0\x11\0\x01................\0\0\0\0";

const HELLO_8_BY_6: &[u8] = b"RFB 003.003\n\0\0\0\x01\0\x08\0\x06................\0\0\0\0";

// A viewer that took such a handshake.
fn ready(alloc: Global, format: Format, hello: &[u8]) -> Viewer {
    let mut viewer = viewer(alloc, format, Version::V38);
    let mut rest = hello;
    for _ in 0..3 {
        rest = rest.get(taken(&mut viewer, rest)..).unwrap_or_default();
    }
    viewer
}

// How many bytes it takes up to its next event.
fn taken(viewer: &mut Viewer, bytes: &[u8]) -> usize {
    match viewer.feed(bytes) {
        Ok(fed) => fed.used,
        Err(_) => 0,
    }
}

// A row that it shows, or nothing where there is none.
fn row_of(viewer: &Viewer, y: u16) -> &[Colour] {
    match viewer.picture() {
        Some(picture) if y < picture.height() => picture.row(0, y, picture.width()),
        _ => &[],
    }
}
