//! A server that is taken apart, and the loop of a server for one viewer, as README.md has it.

use super::places::ORANGE;
use super::scene::{feed, ready};
use crate::{Server, ServerSetup};
use rfb_picture::Rect;
use std::alloc::{AllocError, Global};
use std::test::Fail;

const PLACE: Rect = Rect {
    x: 0,
    y: 0,
    w: 1,
    h: 1,
};

// One orange place in Raw at rgb888.
const ONE_PLACE: &[u8] = b"\0\0\0\x01\0\0\0\0\0\x01\0\x01\0\0\0\0\x08\x80\xFF\0";

// A server of one orange place, which is asked for whole.
fn asked_server(alloc: Global) -> Result<Server, AllocError> {
    let mut server = ready(alloc, 1, 1)?;
    let _drawn = server.fill(PLACE, ORANGE);
    feed(&mut server, b"\x03\0\0\0\0\0\0\x01\0\x01".as_slice());
    Ok(server)
}

// The same server, by way of its parts.
fn taken_apart(server: Server) -> Server {
    let (screen, session) = server.into_parts();
    Server::from_parts(screen, session)
}

fn sends_from_parts(alloc: Global) -> Result<bool, AllocError> {
    let mut server = taken_apart(asked_server(alloc)?);
    let mut out = Vec::new(alloc);
    let sent = server.compose(&mut out) == Ok(true) && out.as_slice() == ONE_PLACE;
    drop(server);
    Ok(sent)
}

#[test]
fn a_server_of_the_parts_of_another_sends_what_that_owed(
    rt: HostRuntime,
) -> Result<(), AllocError> {
    assert!(rt; sends_from_parts(rt.alloc())?);
    Ok(())
}

// What a viewer sends, as it comes: the handshake of 3.8, and two requests for two places by one.
const CAME: &[&[u8]] = &[
    b"RFB 003.008\n\x01\x01",
    b"\x03\0\0\0\0\0\0\x02",
    b"\0\x01",
    b"\x03\x01\0\0\0\0\0\x02\0\x01",
];

// What it is sent: the greeting, one security type, None; SecurityResult; ServerInit of two places
// by one in rgb888, with the name t; and one update, in Raw, of an orange place and a black one.
const SENT: &[u8] =
    b"RFB 003.008\n\x01\x01\0\0\0\0\0\x02\0\x01\x20\x18\0\x01\0\xFF\0\xFF\0\xFF\x10\x08\0\0\0\0\0\0\0\x01t\0\0\0\x01\0\0\0\0\0\x02\0\x01\0\0\0\0\x08\x80\xFF\0\0\0\0\0";

// What a server of one viewer does with bytes that came: it hears them all and answers; then its
// owner draws, and what the viewer asked for and lacks is sent.
fn serve(server: &mut Server, came: &[u8], sent: &mut Vec<u8>) -> Result<(), Fail> {
    let mut rest = came;
    while !rest.is_empty() {
        let fed = server.feed(rest)?;
        rest = &rest[fed.used..];
        if let Some(event) = &fed.event {
            sent.extend_from_slice(event.reply())?;
        }
    }
    server.fill(PLACE, ORANGE)?;
    server.compose(sent)?;
    Ok(())
}

fn serves_all(server: &mut Server, alloc: Global) -> Result<bool, Fail> {
    let mut sent = Vec::new(alloc);
    sent.extend_from_slice(&server.greeting())?;
    for came in CAME {
        serve(server, came, &mut sent)?;
    }
    Ok(sent.as_slice() == SENT)
}

fn serves_one_viewer(alloc: Global) -> Result<bool, Fail> {
    let mut server = Server::of(alloc, ServerSetup::usual(2, 1, b"t"))?;
    let served = serves_all(&mut server, alloc);
    drop(server);
    served
}

#[test]
fn a_server_for_one_viewer_is_a_loop(rt: HostRuntime) -> Result<(), Fail> {
    assert!(rt; serves_one_viewer(rt.alloc())?);
    Ok(())
}
