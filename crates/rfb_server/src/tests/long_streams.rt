//! Long messages, slice by slice, in constant memory: a text of the greatest length, and a list of
//! the greatest count of numbers.

use crate::{Server, ServerEvent};
use rfb_hello::{Fed, Version};
use std::alloc::{AllocError, Global};

// A server after the handshake of 3.3 that keeps up to `text_limit` bytes of a text.
fn ready(alloc: Global, text_limit: u32) -> Result<Server, AllocError> {
    let name = b"t".as_slice();
    let mut server = Server::new(alloc, 1, 1, name, Version::V38, text_limit.min(1_048_576))?;
    feed(&mut server, b"RFB 003.003\n".as_slice());
    feed(&mut server, b"\x01".as_slice());
    Ok(server)
}

fn feed(server: &mut Server, bytes: &[u8]) {
    let _told = server.feed(bytes);
}

// Whether it takes all of the bytes, which do not end a message, and keeps none as pending.
fn waits(server: &mut Server, bytes: &[u8]) -> bool {
    match server.feed(bytes) {
        Ok(Fed { used, event: None }) => {
            used == bytes.len() && server.pending() == 0 && !server.between()
        }
        _ => false,
    }
}

// Whether the bytes end the longest text, with its first MiB kept.
fn ends_the_longest(server: &mut Server, bytes: &[u8]) -> bool {
    match server.feed(bytes) {
        Ok(
            Fed {
                event: Some(ServerEvent::CutText { kept, length }),
                ..
            },
        ) => kept.len() == 1_048_576 && length == u32::MAX,
        _ => false,
    }
}

// Slices of 65,536 bytes make 4,294,967,296, one more than the longest text has.
fn takes_the_longest_text(server: &mut Server, slice: &[u8]) -> bool {
    let mut waiting = waits(server, b"\x06\0\0\0\xFF\xFF\xFF\xFF".as_slice());
    for _ in 0..65_535 {
        waiting = waiting && waits(server, slice);
    }
    waiting && ends_the_longest(server, slice.get(1..).unwrap_or_default()) && server.between()
}

fn takes_it_by_slices(server: &mut Server, alloc: Global) -> bool {
    let mut slice = Vec::new(alloc);
    slice.resize(65_536, b'n').is_ok() && takes_the_longest_text(server, slice.as_slice())
}

// Five numbers: Raw, CopyRect, RRE, Hextile and one that is none.
const NUMBERS: &[u8] = b"\0\0\0\0\0\0\0\x01\0\0\0\x02\0\0\0\x05\0\0\0\x07";

// Whether the bytes are a key.
fn is_key(server: &mut Server, bytes: &[u8]) -> bool {
    matches!(
        server.feed(bytes),
        Ok(Fed {
            event: Some(ServerEvent::Key { .. }),
            ..
        })
    )
}

// 65,535 numbers are 13,107 times five.
fn takes_the_longest_list(server: &mut Server) -> bool {
    let mut waiting = waits(server, b"\x02\0\xFF\xFF".as_slice());
    for _ in 0..13_106 {
        waiting = waiting && waits(server, NUMBERS);
    }
    feed(server, NUMBERS);
    waiting && server.between() && is_key(server, b"\x04\0\0\0\0\0\0A".as_slice())
}

// The two messages that have no bound but their count.
#[derive(Clone, Copy)]
enum Longest {
    Text,
    List,
}

fn takes(alloc: Global, longest: Longest) -> Result<bool, AllocError> {
    let mut server = ready(alloc, 1_048_576)?;
    let taken = match longest {
        Longest::Text => takes_it_by_slices(&mut server, alloc),
        Longest::List => takes_the_longest_list(&mut server),
    };
    drop(server);
    Ok(taken)
}

#[test]
fn the_longest_text_is_taken_slice_by_slice(rt: HostRuntime) -> Result<(), AllocError> {
    assert!(rt; takes(rt.alloc(), Longest::Text)?);
    Ok(())
}

#[test]
fn the_longest_list_is_taken_slice_by_slice(rt: HostRuntime) -> Result<(), AllocError> {
    assert!(rt; takes(rt.alloc(), Longest::List)?);
    Ok(())
}
