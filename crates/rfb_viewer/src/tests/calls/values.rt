//! Calls as values: each message, appended and in its two parts. The bytes are those of RFC 6143
//! section 7.5, field by field.

ghost use Rattle.std.specs.Prelude.{◌≤◌, length};
ghost use Rattle.rfb_viewer.specs.Call.{text_in};

use super::*;
use crate::{AppendFault, Call as Value};

const KEY: &[u8] = b"\x04\x01\0\0\0\0\xFF\x0D";

const POINTER: &[u8] = b"\x05\x05\x12\x34\x56\x78";

const TEXT: &[u8] = b"\x06\0\0\0\0\0\0\x05ABCDE";

const LIST: &[u8] = b"\x02\0\0\x04\0\0\0\x05\0\0\0\x01\0\0\0\0\0\0\0\x02";

const FORMAT: &[u8] = b"\0\0\0\0\x08\x08\0\x01\0\x07\0\x07\0\x03\0\x03\x06\0\0\0";

const REQUEST: &[u8] = b"\x03\0\0\0\0\0\0\x02\0\x01";

const ASKED: Value<'static> = Value::Request {
    incremental: false,
    rect: TWO,
};

// Whether a call's message is appended after an `A`.
fn is_appended(viewer: &mut Viewer, alloc: Global, call: &Value<'_>, wanted: &[u8]) -> bool
    requires { length (text_in call.now) ≤ 1048576 }
{
    let mut out = Vec::new(alloc);
    out.push(b'A').is_ok()
        && viewer.append(call, &mut out).is_ok()
        && out.as_slice().split_first() == Some((&b'A', wanted))
}

// Whether a call's message has these two parts.
fn is_spelled(viewer: &mut Viewer, call: &Value<'_>, front: &[u8], text: &[u8]) -> bool
    requires { length (text_in call.now) ≤ 1048576 }
{
    match viewer.spell(call) {
        Ok(message) => message.front.as_slice() == front && message.text == text,
        Err(_) => false,
    }
}

// Whether each plain call is appended, and spelled, as it should be.
fn are_sent(viewer: &mut Viewer, alloc: Global, list: &ArrayVec<Encoding, 4>) -> bool {
    let key = Value::Key {
        down: true,
        key: 0xFF0D,
    };
    let pointer = Value::Pointer {
        buttons: 5,
        x: 0x1234,
        y: 0x5678,
    };
    is_appended(viewer, alloc, &key, KEY)
        && is_appended(viewer, alloc, &pointer, POINTER)
        && is_appended(viewer, alloc, &Value::CutText(b"ABCDE"), TEXT)
        && is_appended(viewer, alloc, &Value::SetEncodings(list), LIST)
        && is_spelled(viewer, &key, KEY, b"")
        && is_spelled(viewer, &Value::CutText(b"ABCDE"), &TEXT[..8], b"ABCDE")
        && is_spelled(viewer, &Value::SetEncodings(list), LIST, b"")
}

// Whether a format and then a request are, and each waits for the request's end.
fn are_noted(viewer: &mut Viewer, alloc: Global) -> bool {
    let format = Value::SetFormat(Format::bgr233());
    is_appended(viewer, alloc, &format, FORMAT)
        && is_spelled(viewer, &format, FORMAT, b"")
        && is_appended(viewer, alloc, &ASKED, REQUEST)
        && viewer.spell(&ASKED).err() == Some(CallFault::Busy)
        && viewer.append(&format, &mut Vec::new(alloc))
            == Err(AppendFault::Refused(CallFault::Busy))
}

fn sends_values(alloc: Global) -> bool {
    let mut viewer = ready(alloc, Format::rgb888(), HELLO_2_BY_1);
    let mut list = ArrayVec::new();
    list.try_extend_from_slice(LISTED).is_ok()
        && are_sent(&mut viewer, alloc, &list)
        && are_noted(&mut viewer, alloc)
}

#[test]
fn calls_as_values_are_their_messages(rt: HostRuntime) {
    assert!(rt; sends_values(rt.alloc()));
}

// A request that has no memory for its message is not outstanding.
fn keeps_or_asks(viewer: &mut Viewer, out: &mut Vec<u8>) -> bool {
    match viewer.append(&ASKED, out) {
        Ok(()) => request_fault(viewer, TWO) == Some(CallFault::Busy),
        Err(AppendFault::NoMemory) => out.is_empty() && request_fault(viewer, TWO).is_none(),
        Err(AppendFault::Refused(_)) => !viewer.between(),
    }
}

fn asks_later(alloc: Global) -> bool {
    let mut viewer = ready(alloc, Format::rgb888(), HELLO_2_BY_1);
    keeps_or_asks(&mut viewer, &mut Vec::new(alloc))
}

#[test]
fn a_request_without_memory_is_not_outstanding(rt: HostRuntime) {
    assert!(rt; asks_later(rt.alloc()));
}
