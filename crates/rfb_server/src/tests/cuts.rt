//! A server is fed its clients' bytes whole, byte by byte, in two slices, and damaged: what it
//! reports and the state it is in do not depend on where they are split.

use crate::{Server, ServerEvent, ServerFault};
use rfb_hello::{Fed, Version};
use std::alloc::{AllocError, Global};
use std::fmt::Debug;

// Each message in turn, after the handshakes of 3.8, 3.7 and 3.3: a format of 16 bits, a list with
// unknown encodings, a request, a key, the pointer, a text above its limit and one without bytes.
// The last is a format whose green maximum is no power of two less one.
const CLIENTS: &[&[u8]] = &[
    b"RFB 003.008\n\x01\x01\0\0\0\0\x10\x10\0\x01\0\x1F\0\x3F\0\x1F\x0B\x05\0\0\0\0\x02\0\0\x04\0\0\0\x10\0\0\0\x05\0\0\0\x01\xFF\xFF\xFF\x21\x03\0\0\x01\0\0\xFF\xFF\xFF\xFF\x04\x01\0\0\0\0\0A",
    b"RFB 003.007\n\x01\0\x05\x02\0\x07\0\x08\x06\0\0\0\0\0\0\x05ABCDE\x06\0\0\0\0\0\0\0\x04\0\0\0\0\0\0B",
    b"RFB 003.003\n\x01\x02\0\0\0\x03\x01\0\0\0\0\0\x01\0\x01\x02\0\0\x02\0\0\0\x02\0\0\0\x02",
    b"RFB 003.008\n\x01\x01\0\0\0\0\x10\x10\0\x01\0\x1F\0\x3E\0\x1F\x0B\x05\0\0\0\0",
];

// Writes a line to the log.
fn note<T: Debug>(alloc: Global, seen: &T, log: &mut String) {
    if let Ok(line) = format!(in alloc; "{seen:?}\n") {
        let _noted = log.push_str(line.as_str());
    }
}

// Writes the answer to the log: how many bytes were used, or none where it was a fault.
fn note_told(
    alloc: Global,
    told: Result<Fed<ServerEvent>, ServerFault>,
    log: &mut String,
) -> Option<usize> {
    match told {
        Ok(fed) => {
            if let Some(event) = &fed.event {
                note(alloc, event, log);
            }
            Some(fed.used)
        }
        Err(fault) => {
            note(alloc, &fault, log);
            None
        }
    }
}

// Feeds it all of a slice. Whether it goes on.
fn goes_on(server: &mut Server, alloc: Global, slice: &[u8], log: &mut String) -> bool {
    let mut rest = slice;
    for _ in 0..8 {
        match note_told(alloc, server.feed(rest), log) {
            Some(used) => rest = rest.get(used..).unwrap_or_default(),
            None => return false,
        }
    }
    true
}

// Writes its state to the log, and what it composes.
fn note_state(server: &mut Server, alloc: Global, log: &mut String) {
    note(alloc, &server.format(), log);
    note(alloc, &server.pending(), log);
    note(alloc, &server.between(), log);
    let mut out = Vec::new(alloc);
    let did = server.compose(&mut out);
    note(alloc, &did, log);
    note(alloc, &out.as_slice(), log);
}

// Feeds it a stream in slices: its first bytes, and then slices of one length.
fn feed_all(
    server: &mut Server,
    alloc: Global,
    stream: &[u8],
    first: usize,
    size: usize,
    log: &mut String,
) {
    let (front, back) = stream.split_at(first.min(stream.len()));
    let mut going = goes_on(server, alloc, front, log);
    for slice in back.chunks(size.max(1)) {
        going = going && goes_on(server, alloc, slice, log);
    }
    note_state(server, alloc, log);
}

fn new_server(alloc: Global) -> Result<Server, AllocError> {
    let name = b"t".as_slice();
    Server::new(alloc, 2, 1, name, Version::V38, 4)
}

// Writes to the log all that a new server reports of such a stream, and its state then.
fn note_all(
    alloc: Global,
    stream: &[u8],
    first: usize,
    size: usize,
    log: &mut String,
) -> Result<(), AllocError> {
    let mut server = new_server(alloc)?;
    feed_all(&mut server, alloc, stream, first, size, log);
    drop(server);
    Ok(())
}

// That log.
fn told(alloc: Global, stream: &[u8], first: usize, size: usize) -> Result<String, AllocError> {
    let mut log = String::new(alloc);
    note_all(alloc, stream, first, size, &mut log)?;
    Ok(log)
}

// Whether two ways to split the stream give the same.
fn is_alike(
    alloc: Global,
    stream: &[u8],
    one: (usize, usize),
    other: (usize, usize),
) -> Result<bool, AllocError> {
    let first = told(alloc, stream, one.0, one.1)?;
    let second = told(alloc, stream, other.0, other.1)?;
    Ok(first.as_str() == second.as_str())
}

// Whether the stream gives the same whole, byte by byte, and in two slices wherever it is split.
fn is_answered_alike(alloc: Global, stream: &[u8]) -> Result<bool, AllocError> {
    let whole = (stream.len(), 1);
    let mut alike = is_alike(alloc, stream, whole, (1, 1))?;
    for cut in 0..stream.len() {
        alike = alike && is_alike(alloc, stream, whole, (cut, stream.len()))?;
    }
    Ok(alike)
}

#[test]
fn events_do_not_depend_on_how_bytes_are_split(rt: HostRuntime) -> Result<(), AllocError> {
    for stream in CLIENTS {
        assert!(rt; is_answered_alike(rt.alloc(), stream)?);
    }
    Ok(())
}

// The same where the byte at that offset is another, whole, byte by byte, and split in front of it.
fn is_answered_alike_with(
    alloc: Global,
    stream: &[u8],
    place: usize,
    byte: u8,
) -> Result<bool, AllocError> {
    let mut damaged = stream.to_vec(alloc)?;
    if let Some(here) = damaged.get_mut(place) {
        *here = byte;
    }
    let whole = (stream.len(), 1);
    let bytes = is_alike(alloc, &damaged, whole, (1, 1))?;
    Ok(bytes && is_alike(alloc, &damaged, whole, (place, stream.len()))?)
}

// The same at each place, by the least byte and by the greatest.
fn is_answered_alike_damaged(alloc: Global, stream: &[u8]) -> Result<bool, AllocError> {
    let mut alike = true;
    for place in 0..stream.len() {
        alike = alike && is_answered_alike_with(alloc, stream, place, 0)?;
        alike = alike && is_answered_alike_with(alloc, stream, place, 0xFF)?;
    }
    Ok(alike)
}

#[test]
fn nor_does_it_where_a_byte_is_damaged(rt: HostRuntime) -> Result<(), AllocError> {
    for stream in CLIENTS {
        assert!(rt; is_answered_alike_damaged(rt.alloc(), stream)?);
    }
    Ok(())
}
