//! Engines over memory, whole and through devices that are short or fail.

mod devices;
mod faults;
mod pixmap;
mod playing;
mod playing_some;
mod serving;
mod streams;
mod turns;
mod viewing;
mod watching;

use rfb_picture::Rect;
use rfb_pixel::{Colour, Format};
use rfb_server::{Server, ServerSetup};
use rfb_viewer::{Viewer, ViewerSetup};
use rfb_wire::Encoding;
use std::alloc::{AllocError, Global};

// A viewer of version 3.8 that lists Raw, and keeps four bytes of each text.
fn viewer_in(alloc: Global, format: Format) -> Viewer {
    let mut encodings = arrayvec::ArrayVec::new();
    encodings.push(Encoding::Raw);
    let setup = ViewerSetup {
        encodings,
        max_places: 4096,
        text_limit: 4,
        ..ViewerSetup::usual(format)
    };
    Viewer::of(alloc, setup)
}

// A server of version 3.8 with the name `rfb`, whose screen of two places is black and
// (1028, 0, 514).
fn server_of_two_places(alloc: Global) -> Result<Server, AllocError> {
    let mut server = Server::of(alloc, ServerSetup::usual(2, 1, b"rfb"))?;
    let right = Rect {
        x: 1,
        y: 0,
        w: 1,
        h: 1,
    };
    let _ = server.fill(
        right,
        Colour {
            r: 1028,
            g: 0,
            b: 514,
        },
    );
    Ok(server)
}

// These bytes, one after the other.
fn joined(alloc: Global, parts: &[&[u8]]) -> Result<Vec<u8>, AllocError> {
    let mut bytes = Vec::new(alloc);
    for part in parts {
        bytes.extend_from_slice(part)?;
    }
    Ok(bytes)
}
