//! A share of the picture that a viewer has. The server's bytes are laid out as RFC 6143 has them.

ghost use Rattle.rfb_session.specs.Mirrors.{StandsOrFailed};

use super::*;
use rfb_pixel::Format;
use rfb_viewer::{Viewer, ViewerSetup};

// A server of 3.3 without security, up to the end of its handshake, sections 7.1 and 7.3.2: two
// columns and one row, or four columns; a format that no viewer reads, and no name.
const HELLO_2_BY_1: &[u8] = b"RFB 003.003\n\0\0\0\x01\0\x02\0\x01................\0\0\0\0";

const HELLO_4_BY_1: &[u8] = b"RFB 003.003\n\0\0\0\x01\0\x04\0\x01................\0\0\0\0";

// The first two of four places, red and blue, and a CopyRect of them to the other two, section
// 7.7.2.
const TWO_OF_FOUR: &[u8] = b"\0\0\0\x01\0\0\0\0\0\x02\0\x01\0\0\0\0\0\0\xFF\0\xFF\0\0\0";

const COPY_OF_TWO: &[u8] = b"\0\0\0\x01\0\x02\0\0\0\x02\0\x01\0\0\0\x01\0\0\0\0";

// Section 7.5.2, SetEncodings: CopyRect and Raw. Section 7.5.3: four places are asked for.
const TAKES_COPIES: &[u8] = b"\x02\0\0\x02\0\0\0\x01\0\0\0\0";

const ASKS_FOUR: &[u8] = b"\x03\0\0\0\0\0\0\x04\0\x01";

const ASKS_CHANGES_OF_FOUR: &[u8] = b"\x03\x01\0\0\0\0\0\x04\0\x01";

// A viewer takes bytes of its server's up to its next event: the others.
fn fed<'a>(viewer: &mut Viewer, bytes: &'a [u8]) -> &'a [u8]
    requires { ∥ StandsOrFailed viewer.old ∥₁ }
    ensures { ∥ StandsOrFailed viewer.new ∥₁ }
{
    match viewer.feed(bytes) {
        Ok(fed) => &bytes[fed.used..],
        Err(_) => &[],
    }
}

// A viewer that took such a handshake.
fn viewer_of(alloc: Global, hello: &[u8]) -> Viewer
    ensures { ∥ StandsOrFailed result ∥₁ }
{
    let mut viewer = Viewer::of(alloc, ViewerSetup::usual(Format::rgb888()));
    let rest = fed(&mut viewer, hello);
    let rest = fed(&mut viewer, rest);
    fed(&mut viewer, rest);
    viewer
}

// A share of what it shows, if it shows something.
fn share_of(alloc: Global, hello: &[u8]) -> Option<Share> {
    match Share::of_viewer(alloc, viewer_of(alloc, hello), b"rfb", 16) {
        Ok(share) => Some(share),
        Err(_) => None,
    }
}

// The server sends an update, which the share's viewer takes whole.
fn comes(share: &mut Share, bytes: &[u8]) -> bool {
    match share.feed(bytes) {
        Some(Ok(fed)) => fed.used == bytes.len(),
        Some(Err(_)) | None => false,
    }
}

// A viewer of the share is sent what the server draws.
fn shows_what_comes(share: &mut Share) -> bool {
    greeted(share, SHARED)
        && send(share, at(0), ASKS_ALL)
        && composes(share, at(0), Composing::Composed)
        && takes(share, at(0), BLACK_UPDATE)
        && send(share, at(0), ASKS_CHANGES)
        && composes(share, at(0), Composing::NotDue)
        && share.is_asked()
        && comes(share, RED_UPDATE)
        && composes(share, at(0), Composing::Composed)
        && takes(share, at(0), RED_UPDATE)
        && !share.is_asked()
}

#[test]
fn a_seat_is_sent_what_the_server_draws(rt: HostRuntime) {
    let told = match share_of(rt.alloc(), HELLO_2_BY_1) {
        Some(mut share) => shows_what_comes(&mut share),
        None => false,
    };
    assert!(rt; told);
}

// A viewer of the share that takes copies is sent the server's copy as one.
fn passes_a_copy_on(share: &mut Share) -> bool {
    let Some(seat) = seated(share) else {
        return false;
    };
    let said = send(share, seat, CLIENT_VERSION)
        && send(share, seat, CHOICE)
        && send(share, seat, SHARED)
        && send(share, seat, TAKES_COPIES)
        && comes(share, TWO_OF_FOUR)
        && send(share, seat, ASKS_FOUR);
    share.written(seat, 297);
    let composed = composes(share, seat, Composing::Composed);
    share.written(seat, 297);
    said && composed
        && comes(share, COPY_OF_TWO)
        && send(share, seat, ASKS_CHANGES_OF_FOUR)
        && composes(share, seat, Composing::Composed)
        && takes(share, seat, COPY_OF_TWO)
}

#[test]
fn a_copy_of_the_servers_is_one_at_a_seat(rt: HostRuntime) {
    let told = match share_of(rt.alloc(), HELLO_4_BY_1) {
        Some(mut share) => passes_a_copy_on(&mut share),
        None => false,
    };
    assert!(rt; told);
}

#[test]
fn the_owner_does_not_draw_what_a_viewer_shows(rt: HostRuntime) {
    let told = match share_of(rt.alloc(), HELLO_2_BY_1) {
        Some(mut share) => !paint(&mut share, RED),
        None => false,
    };
    assert!(rt; told);
}

// A viewer of another size is given back, and one of the same size is shown.
fn shows_its_size_alone(alloc: Global, share: &mut Share) -> bool {
    share.show(viewer_of(alloc, HELLO_4_BY_1)).is_err()
        && share.show(viewer_of(alloc, b"")).is_err()
        && share.show(viewer_of(alloc, HELLO_2_BY_1)).is_ok()
}

#[test]
fn a_viewer_of_another_size_is_given_back(rt: HostRuntime) {
    let told = match share_of(rt.alloc(), HELLO_2_BY_1) {
        Some(mut share) => shows_its_size_alone(rt.alloc(), &mut share),
        None => false,
    };
    assert!(rt; told);
}

#[test]
fn a_viewer_without_a_picture_has_no_share(rt: HostRuntime) {
    assert!(rt; share_of(rt.alloc(), b"RFB 003.003\n").is_none());
}
