//! The loop of a viewer for one server, as README.md has it.

use crate::{Viewer, ViewerEvent, ViewerSetup};
use rfb_picture::Rect;
use rfb_pixel::{Colour, Format};
use std::alloc::{AllocError, Global};
use std::test::Fail;

const WHOLE: Rect = Rect {
    x: 0,
    y: 0,
    w: 2,
    h: 1,
};

// What a server sends, as it comes: the handshake of 3.8, with a screen of two places by one in
// rgb888 and the name t; and one update, in Raw, of a black place and an orange one.
const CAME: &[&[u8]] = &[
    b"RFB 003.008\n\x01",
    b"\x01\0\0\0\0\0\x02\0\x01\x20\x18\0\x01\0\xFF\0\xFF\0\xFF\x10\x08\0\0\0\0",
    b"\0\0\0\x01t\0\0\0\x01",
    b"\0\0\0\0\0\x02\0\x01\0\0\0\0\0\0\0\0\x08\x80",
    b"\xFF\0",
];

// What it is sent: the version, None and the shared-flag. Then SetPixelFormat to rgb888,
// SetEncodings with CopyRect, Hextile, RRE and Raw, a request for all, and one for what changed.
const SENT: &[u8] =
    b"RFB 003.008\n\x01\x01\0\0\0\0\x20\x18\0\x01\0\xFF\0\xFF\0\xFF\x10\x08\0\0\0\0\x02\0\0\x04\0\0\0\x01\0\0\0\x05\0\0\0\x02\0\0\0\0\x03\0\0\0\0\0\0\x02\0\x01\x03\x01\0\0\0\0\0\x02\0\x01";

// What a viewer of one server does with bytes that came: it takes them all and answers; it asks for
// all once it is ready, and for what changed after each update.
fn view(viewer: &mut Viewer, came: &[u8], sent: &mut Vec<u8>) -> Result<(), Fail> {
    let mut rest = came;
    while !rest.is_empty() {
        let fed = viewer.feed(rest)?;
        rest = &rest[fed.used..];
        if let Some(event) = &fed.event {
            sent.extend_from_slice(event.reply())?;
        }
        match fed.event {
            Some(ViewerEvent::Ready { .. }) => {
                sent.extend_from_slice(&viewer.request(false, WHOLE)?)?;
            }
            Some(ViewerEvent::UpdateDone) => {
                sent.extend_from_slice(&viewer.request(true, WHOLE)?)?;
            }
            _ => {}
        }
    }
    Ok(())
}

// Orange is seen through rgb888 as FF, 80 and 08, each times 257.
const ORANGE: Colour = Colour {
    r: 65_535,
    g: 32_896,
    b: 2_056,
};

fn shows_orange(viewer: &Viewer) -> bool {
    match viewer.picture() {
        Some(picture) if picture.width() == 2 && picture.height() == 1 => {
            picture.at(1, 0) == ORANGE
        }
        _ => false,
    }
}

fn views_all(viewer: &mut Viewer, alloc: Global) -> Result<bool, Fail> {
    let mut sent = Vec::new(alloc);
    for came in CAME {
        view(viewer, came, &mut sent)?;
    }
    Ok(sent.as_slice() == SENT && shows_orange(viewer))
}

fn views_one_server(alloc: Global) -> Result<bool, Fail> {
    let mut viewer = Viewer::of(alloc, ViewerSetup::usual(Format::rgb888()));
    let viewed = views_all(&mut viewer, alloc);
    drop(viewer);
    viewed
}

#[test]
fn a_viewer_for_one_server_is_a_loop(rt: HostRuntime) -> Result<(), Fail> {
    assert!(rt; views_one_server(rt.alloc())?);
    Ok(())
}
