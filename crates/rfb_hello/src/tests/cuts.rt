//! Both ends are fed their streams whole, byte by byte, in two slices, and damaged: what they
//! report doesn't depend on where the streams are split.

use super::ends::{feed_server, feed_viewer, reason_of, server_of, viewer_of};
use crate::{Fed, HelloFault, ServerHello, Version, ViewerHello};
use std::alloc::{AllocError, Global};
use std::fmt::Debug;

// What the other end sends: 3.8, 3.7, 3.3, a refusal, a failed result.
const SERVERS: [&[u8]; 5] = [
    b"RFB 003.008\n\x03\x10\x02\x01\0\0\0\0\0\x02\0\x01\
        \x20\x18\0\x01\0\xFF\0\xFF\0\xFF\x10\x08\0\0\0\0\0\0\0\x01t",
    b"RFB 003.007\n\x01\x01\0\x02\0\x01\x20\x18\0\x01\0\xFF\0\xFF\0\xFF\x10\x08\0\0\0\0\0\0\0\0",
    b"RFB 003.889\n\0\0\0\x01\0\x02\0\x01\
        \x20\x18\0\x01\0\xFF\0\xFF\0\xFF\x10\x08\0\0\0\0\0\0\0\x03abc",
    b"RFB 003.008\n\0\0\0\0\x02No",
    b"RFB 003.008\n\x01\x01\0\0\0\x01\0\0\0\x02No",
];

const CLIENTS: [&[u8]; 4] = [
    b"RFB 003.008\n\x01\x01",
    b"RFB 003.007\n\x01\0",
    b"RFB 003.003\n\x01",
    b"RFB 003.008\n\x02",
];

#[derive(Drop)]
enum End {
    Server(ServerHello),
    Viewer(ViewerHello),
}

fn end_of(alloc: Global, server: bool) -> End {
    if server {
        End::Server(server_of(Version::V38, 2, 1, b"t"))
    } else {
        End::Viewer(viewer_of(alloc, Version::V38, 16, 2))
    }
}

// Writes an event to the log, if there is one.
fn note<E: Debug>(alloc: Global, event: &Option<E>, log: &mut String) -> Result<(), AllocError> {
    if let Some(event) = event {
        log.push_str(&format!(in alloc; "{event:?}\n")?)?;
    }
    Ok(())
}

// Writes what an end reported of bytes, and for a fault the reason. How many bytes it used, if
// there was no fault.
fn note_told<E: Debug + Drop>(
    alloc: Global,
    told: Result<Fed<E>, HelloFault>,
    log: &mut String,
) -> Result<Option<usize>, AllocError> {
    match told {
        Ok(Fed { used, event }) => {
            let noted = note(alloc, &event, log);
            drop(event);
            noted?;
            Ok(Some(used))
        }
        Err(fault) => {
            log.push_str(&format!(in alloc; "{fault:?}")?)?;
            Ok(None)
        }
    }
}

impl End {
    // Feeds it bytes and writes what it reports. How many it used, if there was no fault.
    fn feed(
        &mut self,
        alloc: Global,
        bytes: &[u8],
        log: &mut String,
    ) -> Result<Option<usize>, AllocError> {
        match self {
            End::Server(hello) => note_told(alloc, feed_server(hello, bytes), log),
            End::Viewer(hello) => note_told(alloc, feed_viewer(hello, bytes), log),
        }
    }

    // The same of a slice, in as many calls as it may take. How many bytes are left of it.
    fn feed_all(
        &mut self,
        alloc: Global,
        slice: &[u8],
        log: &mut String,
    ) -> Result<Option<usize>, AllocError> {
        let mut rest = slice;
        for _ in 0..8 {
            match self.feed(alloc, rest, log)? {
                Some(used) => rest = rest.get(used..).unwrap_or_default(),
                None => return Ok(None),
            }
        }
        Ok(Some(rest.len()))
    }

    // The same of a stream that is split after its first bytes and then at a fixed size.
    fn feed_slices(
        &mut self,
        alloc: Global,
        stream: &[u8],
        first: usize,
        size: usize,
        log: &mut String,
    ) -> Result<Option<usize>, AllocError> {
        let (front, back) = stream.split_at(first.min(stream.len()));
        let mut left = match self.feed_all(alloc, front, log)? {
            Some(here) => here,
            None => return Ok(None),
        };
        for slice in back.chunks(size.max(1)) {
            match self.feed_all(alloc, slice, log)? {
                Some(here) => left = left.saturating_add(here),
                None => return Ok(None),
            }
        }
        Ok(Some(left))
    }

    fn reason(&self) -> &[u8] {
        match self {
            End::Server(_) => b"",
            End::Viewer(hello) => reason_of(hello),
        }
    }

    // Writes all that it reports of a stream in slices: its events, and how many bytes it left, or
    // its fault with the reason.
    fn tell(
        &mut self,
        alloc: Global,
        stream: &[u8],
        first: usize,
        size: usize,
        log: &mut String,
    ) -> Result<(), AllocError> {
        match self.feed_slices(alloc, stream, first, size, log)? {
            Some(left) => log.push_str(&format!(in alloc; "left {left}")?),
            None => {
                let reason = self.reason();
                log.push_str(&format!(in alloc; " {reason:?}")?)
            }
        }
    }
}

// All that an end reports of a stream, split after its first bytes and then at a fixed size.
fn told(
    alloc: Global,
    server: bool,
    stream: &[u8],
    first: usize,
    size: usize,
) -> Result<String, AllocError> {
    let mut log = String::new(alloc);
    let mut end = end_of(alloc, server);
    let written = end.tell(alloc, stream, first, size, &mut log);
    drop(end);
    written?;
    Ok(log)
}

// Whether it reports that.
fn tells(
    alloc: Global,
    server: bool,
    stream: &[u8],
    first: usize,
    size: usize,
    wanted: &str,
) -> Result<bool, AllocError> {
    let told = told(alloc, server, stream, first, size)?;
    Ok(told.as_str() == wanted)
}

// Whether it reports the same byte by byte as of the whole.
fn is_same_byte_by_byte(alloc: Global, server: bool, stream: &[u8]) -> Result<bool, AllocError> {
    let whole = told(alloc, server, stream, stream.len(), 1)?;
    tells(alloc, server, stream, 1, 1, &whole)
}

// The same in two slices, split at each byte.
fn is_same_in_two(alloc: Global, server: bool, stream: &[u8]) -> Result<bool, AllocError> {
    let whole = told(alloc, server, stream, stream.len(), 1)?;
    let mut good = true;
    for cut in 0..stream.len() {
        good &= tells(alloc, server, stream, cut, stream.len(), &whole)?;
    }
    Ok(good)
}

fn is_same_at_all_splits(alloc: Global, server: bool, stream: &[u8]) -> Result<bool, AllocError> {
    Ok(is_same_byte_by_byte(alloc, server, stream)? && is_same_in_two(alloc, server, stream)?)
}

#[test]
fn events_do_not_depend_on_how_bytes_are_split(rt: HostRuntime) -> Result<(), AllocError> {
    for stream in CLIENTS {
        assert!(rt; is_same_at_all_splits(rt.alloc(), true, stream)?);
    }
    for stream in SERVERS {
        assert!(rt; is_same_at_all_splits(rt.alloc(), false, stream)?);
    }
    Ok(())
}

// Whether the events are the same byte by byte and whole where its byte at this offset is another.
fn is_same_with(
    alloc: Global,
    server: bool,
    stream: &[u8],
    place: usize,
    damage: u8,
) -> Result<bool, AllocError> {
    let mut damaged = stream.to_vec(alloc)?;
    if let Some(byte) = damaged.get_mut(place) {
        *byte = damage;
    }
    is_same_byte_by_byte(alloc, server, &damaged)
}

// The same where each byte in turn is 00, and FF.
fn is_same_damaged(alloc: Global, server: bool, stream: &[u8]) -> Result<bool, AllocError> {
    let mut good = true;
    for place in 0..stream.len() {
        good &= is_same_with(alloc, server, stream, place, 0)?;
        good &= is_same_with(alloc, server, stream, place, 0xFF)?;
    }
    Ok(good)
}

#[test]
fn nor_does_it_where_a_byte_is_damaged(rt: HostRuntime) -> Result<(), AllocError> {
    for stream in CLIENTS {
        assert!(rt; is_same_damaged(rt.alloc(), true, stream)?);
    }
    for stream in SERVERS {
        assert!(rt; is_same_damaged(rt.alloc(), false, stream)?);
    }
    Ok(())
}
