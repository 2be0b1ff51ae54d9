//! What both ends keep where an engine ends at a fault.

use super::devices::Recolouring;
use super::streams::{CLIENT, HANDSHAKE, UPDATE};
use super::{joined, server_of_two_places, viewer_in};
use crate::engine::{EngineFault, Tally, play, play_some, ppm, serve, view};
use rfb_picture::{Area, Picture};
use rfb_pixel::{Colour, Format};
use rfb_server::{Server, ServerFault};
use rfb_viewer::{Viewer, ViewerFault};
use std::alloc::{AllocError, Global};

// The pixmap of black and (1028, 0, 514).
const FIRST: &[u8] = b"P6\n2 1\n65535\n\0\0\0\0\0\0\x04\x04\0\0\x02\x02";

// That of (65535, 0, 4112) and black.
const RED_AND_BLACK: &[u8] = b"P6\n2 1\n65535\n\xFF\xFF\0\0\x10\x10\0\0\0\0\0\0";

// Whether a picture has this pixmap.
fn has_pixmap(alloc: Global, picture: &Picture<Colour>, pixmap: &[u8]) -> bool {
    let mut sink = Tally::new(Vec::new(alloc));
    let written = ppm(picture, &mut sink);
    written == Ok(()) && sink.into_inner().as_slice() == pixmap
}

// Serves a client that sends these bytes in one read.
fn serving(alloc: Global, client: &[u8], server: &mut Server) -> Result<u64, EngineFault> {
    let mut source = Tally::new(client);
    let mut sink = Tally::new(Vec::new(alloc));
    let mut scene = Recolouring { drawings: 0 };
    serve(alloc, &mut source, &mut sink, server, &mut scene)
}

// A client's handshake: ProtocolVersion, the security type None, and ClientInit.
const CLIENT_HANDSHAKE: &[u8] = b"RFB 003.008\n\x01\x01";

// A PIXEL_FORMAT of RFC 6143 section 7.4: 8 bits a pixel, a depth of 8, maxima of 7, 7 and 3,
// shifts of 0, 3 and 6.
const OF_8_BITS: &[u8] = b"\x08\x08\0\x01\0\x07\0\x07\0\x03\0\x03\x06\0\0\0";

// One of 24 bits a pixel, which is none of 8, 16 and 32.
const OF_24_BITS: &[u8] = b"\x18\x18\0\x01\0\xFF\0\xFF\0\xFF\x10\x08\0\0\0\0";

// The head of a SetPixelFormat: its type, and padding.
const SET_PIXEL_FORMAT: &[u8] = b"\0\0\0\0";

// Whether a server whose client sends these bytes ends by that fault with that PIXEL_FORMAT.
fn keeps_format(
    alloc: Global,
    client: &[u8],
    fault: ServerFault,
    format: &[u8],
) -> Result<bool, AllocError> {
    let mut server = server_of_two_places(alloc)?;
    let answer = serving(alloc, client, &mut server);
    let written = server.format().write();
    drop(server);
    Ok(answer == Err(EngineFault::Server(fault)) && written.as_slice() == format)
}

#[test]
fn a_server_keeps_the_format_that_came_before_a_bad_one(rt: HostRuntime) -> Result<(), AllocError> {
    let formats = [SET_PIXEL_FORMAT, OF_8_BITS, SET_PIXEL_FORMAT, OF_24_BITS];
    let messages = joined(rt.alloc(), &formats)?;
    let client = joined(rt.alloc(), &[CLIENT_HANDSHAKE, &messages])?;
    let kept = keeps_format(rt.alloc(), &client, ServerFault::BadBits, OF_8_BITS)?;
    assert!(rt; kept);
    Ok(())
}

// Whether both places of a screen of 2 by 1 are asked for.
fn are_asked(area: &Area) -> bool {
    area.width() == 2 && area.height() == 1 && area.is_asked(0, 0) && area.is_asked(1, 0)
}

// Whether a server whose client asks for both places, and then sends a message of type 1, has its
// screen, and both places as asked ones.
fn keeps_screen(alloc: Global) -> Result<bool, AllocError> {
    let client = joined(alloc, &[CLIENT, b"\x01"])?;
    let mut server = server_of_two_places(alloc)?;
    let answer = serving(alloc, &client, &mut server);
    let right = answer == Err(EngineFault::Server(ServerFault::UnknownMessage(1)))
        && are_asked(server.asked())
        && has_pixmap(alloc, server.screen(), FIRST);
    drop(server);
    Ok(right)
}

#[test]
fn a_server_keeps_its_screen_and_what_was_asked(rt: HostRuntime) -> Result<(), AllocError> {
    let kept = keeps_screen(rt.alloc())?;
    assert!(rt; kept);
    Ok(())
}

// The engines that feed a viewer.
#[derive(Clone, Copy, Debug)]
enum Engine {
    Play,
    PlaySome,
    View,
}

const ENGINES: &[Engine] = &[Engine::Play, Engine::PlaySome, Engine::View];

// The fault that a viewer ends with that is fed these bytes.
fn watching(
    alloc: Global,
    engine: Engine,
    bytes: &[u8],
    viewer: &mut Viewer,
) -> Option<EngineFault> {
    let mut source = Tally::new(bytes);
    match engine {
        Engine::Play => play(&mut source, viewer).err(),
        Engine::PlaySome => play_some(&mut source, viewer, 9).err(),
        Engine::View => {
            let mut sink = Tally::new(Vec::new(alloc));
            view(&mut source, &mut sink, viewer, 9).err()
        }
    }
}

// Whether a viewer that is fed these bytes ends by that fault, and shows a picture of that pixmap.
fn shows(alloc: Global, engine: Engine, bytes: &[u8], fault: ViewerFault, pixmap: &[u8]) -> bool {
    let mut viewer = viewer_in(alloc, Format::rgb888());
    let ended = watching(alloc, engine, bytes, &mut viewer);
    let shown = match viewer.picture() {
        Some(picture) => has_pixmap(alloc, picture, pixmap),
        None => false,
    };
    drop(viewer);
    ended == Some(EngineFault::Viewer(fault)) && shown
}

#[test]
fn a_viewer_shows_the_updates_before_a_fault(rt: HostRuntime) -> Result<(), AllocError> {
    // No server's message has the type 255.
    let bytes = joined(rt.alloc(), &[HANDSHAKE, UPDATE, b"\xFF"])?;
    let fault = ViewerFault::UnknownMessage(255);
    for engine in ENGINES {
        let shown = shows(rt.alloc(), *engine, &bytes, fault, FIRST);
        assert!(rt; shown, "{engine:?}");
    }
    Ok(())
}

// An update of two rectangles: (65535, 0, 4112) at the first place, Raw; and one in an encoding
// that has the number 7.
const BAD_UPDATE: &[u8] = b"\0\0\0\x02\0\0\0\0\0\x01\0\x01\0\0\0\0\x10\0\xFF\0\
\0\x01\0\0\0\x01\0\x01\0\0\0\x07";

#[test]
fn a_viewer_shows_the_rectangles_before_a_bad_one(rt: HostRuntime) -> Result<(), AllocError> {
    let bytes = joined(rt.alloc(), &[HANDSHAKE, BAD_UPDATE])?;
    let fault = ViewerFault::UnknownEncoding(7);
    for engine in ENGINES {
        let shown = shows(rt.alloc(), *engine, &bytes, fault, RED_AND_BLACK);
        assert!(rt; shown, "{engine:?}");
    }
    Ok(())
}

// A server's refusal, RFC 6143 section 7.1.2: ProtocolVersion, no security type, and a reason of
// four bytes.
const REFUSAL: &[u8] = b"RFB 003.008\n\0\0\0\0\x04busy";

// A SecurityResult that is not OK, section 7.1.3: ProtocolVersion, the security type None, the
// result 1, and a reason of six bytes.
const FAILURE: &[u8] = b"RFB 003.008\n\x01\x01\0\0\0\x01\0\0\0\x06no way";

// Whether a viewer that is fed these bytes ends by that fault, has that reason, and shows nothing.
fn has_reason(
    alloc: Global,
    engine: Engine,
    bytes: &[u8],
    fault: ViewerFault,
    reason: &[u8],
) -> bool {
    let mut viewer = viewer_in(alloc, Format::rgb888());
    let ended = watching(alloc, engine, bytes, &mut viewer);
    let right = ended == Some(EngineFault::Viewer(fault))
        && viewer.reason() == reason
        && viewer.picture().is_none();
    drop(viewer);
    right
}

#[test]
fn a_viewer_keeps_the_reason_of_a_refusal(rt: HostRuntime) {
    for engine in ENGINES {
        let fault = ViewerFault::Refused(4);
        let kept = has_reason(rt.alloc(), *engine, REFUSAL, fault, b"busy");
        assert!(rt; kept, "{engine:?}");
    }
}

#[test]
fn a_viewer_keeps_four_bytes_of_the_reason_of_a_failure(rt: HostRuntime) {
    for engine in ENGINES {
        let fault = ViewerFault::SecurityFailed(6);
        let kept = has_reason(rt.alloc(), *engine, FAILURE, fault, b"no w");
        assert!(rt; kept, "{engine:?}");
    }
}
