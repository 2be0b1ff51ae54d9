//! Single messages of a client: the event of each, and what it changes.

use super::scene::{Step, first_wrong, first_wrong_of, ready, tells};
use crate::Server;
use rfb_pixel::Format;
use std::alloc::{AllocError, Global};

// Texts above the limit and without bytes, keys, the pointer, and the pointer after a list.
const MESSAGES: &[(&[u8], &str)] = &[
    (
        b"\x06\0\0\0\0\0\0\x05ABCDE",
        "Ok(Fed { used: 13, event: Some(CutText { kept: [65, 66, 67, 68], length: 5 }) })",
    ),
    (
        b"\x06\0\0\0\0\0\0\0",
        "Ok(Fed { used: 8, event: Some(CutText { kept: [], length: 0 }) })",
    ),
    (
        b"\x04\x01\0\0\0\0\xFF\x0D",
        "Ok(Fed { used: 8, event: Some(Key { down: true, key: 65293 }) })",
    ),
    (
        b"\x04\0\xFF\xFF\0\0\0a",
        "Ok(Fed { used: 8, event: Some(Key { down: false, key: 97 }) })",
    ),
    (
        b"\x05\x05\x12\x34\x56\x78",
        "Ok(Fed { used: 6, event: Some(Pointer { buttons: 5, x: 4660, y: 22136 }) })",
    ),
    (
        b"\x02\0\0\x01\0\0\0\x05\x05\0\0\0\0\0\x04",
        "Ok(Fed { used: 14, event: Some(Pointer { buttons: 0, x: 0, y: 0 }) })",
    ),
];

// Whether one gives this event, between messages before and after it.
fn tells_one(server: &mut Server, alloc: Global, bytes: &[u8], printed: &str) -> bool {
    let before = server.between();
    before && tells(server, alloc, bytes, printed) && server.between()
}

// The number of the first message that is not, if one is not.
fn first_wrong_message(server: &mut Server, alloc: Global) -> Option<usize> {
    for at in 0..MESSAGES.len() {
        let (bytes, printed) = MESSAGES[at];
        if !tells_one(server, alloc, bytes, printed) {
            return Some(at);
        }
    }
    None
}

fn wrong_message(alloc: Global) -> Result<Option<usize>, AllocError> {
    let mut server = ready(alloc, 2, 1)?;
    let wrong = first_wrong_message(&mut server, alloc);
    drop(server);
    Ok(wrong)
}

#[test]
fn a_message_is_reported_at_its_last_byte(rt: HostRuntime) -> Result<(), AllocError> {
    assert_eq!(rt; wrong_message(rt.alloc())?, None);
    Ok(())
}

// Types that no client message has; a format without true colour, and one of 24 bits.
const FAULTS: &[(&[u8], &str)] = &[
    (b"\x01", "Err(UnknownMessage(1))"),
    (b"\xFF", "Err(UnknownMessage(255))"),
    (
        b"\0\0\0\0\x20\x18\0\0\0\xFF\0\xFF\0\xFF\x10\x08\0\0\0\0",
        "Err(NotTrueColour)",
    ),
    (
        b"\0\0\0\0\x18\x18\0\x01\0\xFF\0\xFF\0\xFF\x10\x08\0\0\0\0",
        "Err(BadBits)",
    ),
];

// After a fault nothing is pending, and no message begins.
const FAILED: &[Step<'static>] = &[Step::Between(false), Step::Pending(0)];

// Whether it waits with all of the bytes but the last, and then fails for good.
fn fails(server: &mut Server, alloc: Global, bytes: &[u8], printed: &str) -> bool {
    let (front, last) = bytes.split_at(bytes.len().saturating_sub(1));
    server.feed(front).is_ok()
        && tells(server, alloc, last, printed)
        && tells(server, alloc, b"\x06\0\0\0\0\0\0\0", printed)
        && first_wrong(server, alloc, FAILED) == None
}

fn is_fault(alloc: Global, bytes: &[u8], printed: &str) -> Result<bool, AllocError> {
    let mut server = ready(alloc, 2, 1)?;
    let failed = fails(&mut server, alloc, bytes, printed);
    drop(server);
    Ok(failed)
}

// The number of the first fault that is not returned so, if one is not.
fn first_wrong_fault(alloc: Global) -> Result<Option<usize>, AllocError> {
    for at in 0..FAULTS.len() {
        let (bytes, printed) = FAULTS[at];
        if !is_fault(alloc, bytes, printed)? {
            return Ok(Some(at));
        }
    }
    Ok(None)
}

#[test]
fn a_fault_is_reported_at_its_last_byte_and_stays(rt: HostRuntime) -> Result<(), AllocError> {
    assert_eq!(rt; first_wrong_fault(rt.alloc())?, None);
    Ok(())
}

// Requests: of no width; from (1, 0) to beyond the edges, whole; the same incremental; all
// incremental.
const REQUESTS: &[Step<'static>] = &[
    Step::Feed(b"\x03\0\0\0\0\0\0\0\0\x01"),
    Step::Asks(0, 0, Some((false, false))),
    Step::Asks(1, 0, Some((false, false))),
    Step::Feed(b"\x03\0\0\x01\0\0\xFF\xFF\xFF\xFF"),
    Step::Asks(0, 0, Some((false, false))),
    Step::Asks(1, 0, Some((true, true))),
    Step::Feed(b"\x03\x01\0\x01\0\0\xFF\xFF\xFF\xFF"),
    Step::Asks(0, 0, Some((false, false))),
    Step::Asks(1, 0, Some((true, true))),
    Step::Feed(b"\x03\x01\0\0\0\0\0\x02\0\x01"),
    Step::Asks(0, 0, Some((true, false))),
    Step::Asks(1, 0, Some((true, true))),
];

#[test]
fn a_request_is_cut_to_the_screen_and_whole_stays_whole(rt: HostRuntime) {
    assert_eq!(rt; first_wrong_of(rt.alloc(), 2, 1, REQUESTS), None);
}

// Whether a format of 16 bits is the server's at its last byte, and not before.
fn sets_a_format(server: &mut Server) -> bool {
    let bytes = b"\0\0\0\0\x10\x10\0\x01\0\x1F\0\x3F\0\x1F\x0B\x05\0\0\0\0".as_slice();
    let mut before = true;
    for byte in bytes.chunks(1) {
        before = before && server.format() == Format::rgb888() && server.feed(byte).is_ok();
    }
    before && server.format() == Format::rgb565()
}

fn is_set(alloc: Global) -> Result<bool, AllocError> {
    let mut server = ready(alloc, 2, 1)?;
    let set = sets_a_format(&mut server);
    drop(server);
    Ok(set)
}

#[test]
fn a_format_is_set_at_its_last_byte(rt: HostRuntime) -> Result<(), AllocError> {
    assert!(rt; is_set(rt.alloc())?);
    Ok(())
}

// The format that ServerInit announces, RFC 6143 section 7.4: 24 bits of 32, the lowest byte first,
// and maxima of 255 at the shifts 16, 8 and 0.
const ANNOUNCED: &[u8] = b"\x20\x18\0\x01\0\xFF\0\xFF\0\xFF\x10\x08\0\0\0\0";

// Whether one of 16 bits, whose green maximum is no power of two less one, is refused, and the
// announced one stays.
fn refuses_a_format(server: &mut Server) -> bool {
    let bytes = b"\0\0\0\0\x10\x10\0\x01\0\x1F\0\x3E\0\x1F\x0B\x05\0\0\0\0".as_slice();
    server.feed(bytes).is_err() && server.format().write().as_slice() == ANNOUNCED
}

fn is_refused(alloc: Global) -> Result<bool, AllocError> {
    let mut server = ready(alloc, 2, 1)?;
    let refused = refuses_a_format(&mut server);
    drop(server);
    Ok(refused)
}

#[test]
fn a_format_that_is_refused_leaves_the_one_before_it(rt: HostRuntime) -> Result<(), AllocError> {
    assert!(rt; is_refused(rt.alloc())?);
    Ok(())
}
