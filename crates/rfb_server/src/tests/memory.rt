//! Growths that are refused: the call that wanted the memory changes nothing, and made again gives
//! what it would have given. Where each allocation fails in turn, these tests pass all the same.

use crate::{Server, ServerFault};
use rfb_hello::{Fed, Version};
use rfb_picture::Rect;
use rfb_pixel::Colour;
use std::alloc::{AllocError, Global};

fn new_server(alloc: Global) -> Result<Server, AllocError> {
    let name = b"t".as_slice();
    Server::new(alloc, 1, 1, name, Version::V38, 4)
}

// A server, by a second call where the first one was refused memory.
fn server_at_last(alloc: Global) -> Result<Server, AllocError> {
    match new_server(alloc) {
        Ok(server) => Ok(server),
        Err(_) => new_server(alloc),
    }
}

fn feed(server: &mut Server, bytes: &[u8]) {
    let _told = server.feed(bytes);
}

// After the handshake of 3.3, with one orange place that is asked for whole.
fn ask(server: &mut Server) {
    let orange = Colour {
        r: 65_535,
        g: 32_896,
        b: 257,
    };
    let place = Rect {
        x: 0,
        y: 0,
        w: 1,
        h: 1,
    };
    let _drawn = server.fill(place, orange);
    feed(server, b"RFB 003.003\n".as_slice());
    feed(server, b"\x01".as_slice());
    feed(server, b"\x03\0\0\0\0\0\0\x01\0\x01".as_slice());
}

fn is_asked(server: &Server) -> bool {
    let area = server.asked();
    if area.width() == 0 || area.height() == 0 {
        return false;
    }
    area.is_whole(0, 0)
}

// One orange place in Raw.
const UPDATE: &[u8] = b"\0\0\0\x01\0\0\0\0\0\x01\0\x01\0\0\0\0\x01\x80\xFF\0";

// Whether it composes the update, by a second call where the first one was refused memory: then
// nothing had changed.
fn composes_at_last(server: &mut Server, alloc: Global) -> bool {
    ask(server);
    let mut out = Vec::new(alloc);
    let did = match server.compose(&mut out) {
        Ok(did) => did,
        Err(_) => {
            let same = out.is_empty() && is_asked(server) && server.between();
            same && server.compose(&mut out) == Ok(true)
        }
    };
    did && out.as_slice() == UPDATE
}

// Whether it takes the length of a text, or has failed for good for want of memory.
fn takes_a_text(server: &mut Server, alloc: Global) -> bool {
    ask(server);
    match server.feed(b"\x06\0\0\0\0\0\0\x02".as_slice()) {
        Ok(
            Fed {
                used: 8,
                event: None,
            },
        ) => server.feed(b"ab".as_slice()).is_ok(),
        Err(ServerFault::NoMemory) => is_failed(server, alloc),
        _ => false,
    }
}

fn is_failed(server: &mut Server, alloc: Global) -> bool {
    let again = matches!(server.feed(b"ab".as_slice()), Err(ServerFault::NoMemory));
    let mut out = Vec::new(alloc);
    let quiet = server.compose(&mut out) == Ok(false) && out.is_empty();
    again && quiet && !server.between() && server.pending() == 0
}

// What a server asks for memory for.
#[derive(Clone, Copy)]
enum Growth {
    Update,
    Text,
}

fn outlives(alloc: Global, growth: Growth) -> Result<bool, AllocError> {
    let mut server = server_at_last(alloc)?;
    let outlived = match growth {
        Growth::Update => composes_at_last(&mut server, alloc),
        Growth::Text => takes_a_text(&mut server, alloc),
    };
    drop(server);
    Ok(outlived)
}

#[test]
fn an_update_that_was_refused_memory_is_composed_by_the_next_call(
    rt: HostRuntime,
) -> Result<(), AllocError> {
    assert!(rt; outlives(rt.alloc(), Growth::Update)?);
    Ok(())
}

#[test]
fn a_text_that_was_refused_memory_fails_the_server_for_good(
    rt: HostRuntime,
) -> Result<(), AllocError> {
    assert!(rt; outlives(rt.alloc(), Growth::Text)?);
    Ok(())
}
