//! Calls of a viewer's owner: the bytes to be sent, and when they are refused.

mod during;
mod values;

use super::play::{
    Call, Step, are_right, fault_at, format_fault, plays_at_rgb888, request_fault, shows_row,
};
use super::*;
use crate::{CallFault, TextFault};
use rfb_picture::Rect;

// All of a screen of 1 by 1, and of 2 by 1.
const ONE: Rect = Rect {
    x: 0,
    y: 0,
    w: 1,
    h: 1,
};

const TWO: Rect = Rect { w: 2, ..ONE };

// Whether all calls are refused, each with `NotReady`, and a text's buffer stays as it was.
fn refuses_all(viewer: &mut Viewer, alloc: Global) -> bool {
    let mut out = Vec::new(alloc);
    request_fault(viewer, Rect { w: 0, ..ONE }) == Some(CallFault::NotReady)
        && format_fault(viewer) == Some(CallFault::NotReady)
        && viewer.set_encodings(ArrayVec::new()).err() == Some(CallFault::NotReady)
        && viewer.key(true, 1).err() == Some(CallFault::NotReady)
        && viewer.pointer(1, 2, 3).err() == Some(CallFault::NotReady)
        && viewer.cut_text(b"A", &mut out) == Err(TextFault::NotReady)
        && out.is_empty()
}

// Whether all calls wait for the end of the handshake.
fn wait_for_the_end(viewer: &mut Viewer, alloc: Global) -> bool {
    let mut good = true;
    for byte in HELLO_1_BY_1.chunks(1) {
        good &= refuses_all(viewer, alloc) && !viewer.between() && taken(viewer, byte) == 1;
    }
    good && viewer.between() && !refuses_all(viewer, alloc)
}

fn calls_wait(alloc: Global) -> bool {
    let mut viewer = viewer(alloc, Format::rgb888(), Version::V38);
    wait_for_the_end(&mut viewer, alloc)
}

#[test]
fn calls_wait_for_the_end_of_the_handshake(rt: HostRuntime) {
    assert!(rt; calls_wait(rt.alloc()));
}

// Whether the viewer fails at these bytes after a request, and then refuses all calls and shows its
// picture still.
fn is_failed_by(viewer: &mut Viewer, alloc: Global, bytes: &[u8]) -> bool {
    request_fault(viewer, ONE).is_none()
        && fault_at(viewer, bytes).is_some()
        && refuses_all(viewer, alloc)
        && !viewer.between()
        && viewer.pending() == 0
        && shows_row(viewer, &[BLACK])
}

fn refuses_when_failed(alloc: Global) -> bool {
    let mut viewer = ready(alloc, Format::rgb888(), HELLO_1_BY_1);
    is_failed_by(&mut viewer, alloc, &[0xFF])
}

#[test]
fn a_failed_viewer_refuses_all_calls(rt: HostRuntime) {
    assert!(rt; refuses_when_failed(rt.alloc()));
}

const LISTED: &[Encoding] = &[
    Encoding::Hextile,
    Encoding::CopyRect,
    Encoding::Raw,
    Encoding::Rre,
];

const MESSAGES: &[Step<'static>] = &[
    Step::Send(Call::Key(true, 0xFF0D), b"\x04\x01\0\0\0\0\xFF\x0D"),
    Step::Send(Call::Key(false, 0x61), b"\x04\0\0\0\0\0\0a"),
    Step::Send(
        Call::Pointer(5, 0x1234, 0x5678),
        b"\x05\x05\x12\x34\x56\x78",
    ),
    Step::Send(
        Call::List(LISTED),
        b"\x02\0\0\x04\0\0\0\x05\0\0\0\x01\0\0\0\0\0\0\0\x02",
    ),
    Step::Send(Call::List(&[]), b"\x02\0\0\0"),
    Step::Send(
        Call::SetRgb565,
        b"\0\0\0\0\x10\x10\0\x01\0\x1F\0\x3F\0\x1F\x0B\x05\0\0\0\0",
    ),
    Step::Send(Call::Request(false, TWO), b"\x03\0\0\0\0\0\0\x02\0\x01"),
];

#[test]
fn calls_are_their_messages(rt: HostRuntime) {
    assert!(rt; plays_at_rgb888(rt.alloc(), HELLO_2_BY_1, MESSAGES));
}

// Whether a text is appended after what the buffer has.
fn appends(viewer: &Viewer, alloc: Global) -> bool {
    let mut out = Vec::new(alloc);
    let first = viewer.cut_text(b"ABCDE", &mut out).is_ok();
    let alone = out.as_slice() == b"\x06\0\0\0\0\0\0\x05ABCDE".as_slice();
    let second = viewer.cut_text(b"", &mut out).is_ok();
    let after = out.as_slice() == b"\x06\0\0\0\0\0\0\x05ABCDE\x06\0\0\0\0\0\0\0".as_slice();
    first && alone && second && after
}

fn appends_texts(alloc: Global) -> bool {
    let viewer = ready(alloc, Format::rgb888(), HELLO_2_BY_1);
    appends(&viewer, alloc)
}

#[test]
fn a_text_is_appended_to_what_is_to_be_sent(rt: HostRuntime) {
    assert!(rt; appends_texts(rt.alloc()));
}

// Where the buffer cannot grow, the call says so, and it stays as it was. Where memory was wanting
// in the handshake, no text is taken.
fn keeps_or_appends(viewer: &Viewer, out: &mut Vec<u8>) -> bool {
    match viewer.cut_text(b"ABCDE", out) {
        Ok(()) => out.as_slice() == b"Z\x06\0\0\0\0\0\0\x05ABCDE".as_slice(),
        Err(TextFault::NoMemory) => out.as_slice() == b"Z".as_slice(),
        Err(TextFault::NotReady) => !viewer.between(),
    }
}

fn keeps_the_buffer(alloc: Global, out: &mut Vec<u8>) -> bool {
    let viewer = ready(alloc, Format::rgb888(), HELLO_2_BY_1);
    keeps_or_appends(&viewer, out)
}

#[test]
fn a_text_without_memory_leaves_the_buffer(rt: HostRuntime) -> Result<(), AllocError> {
    let mut out = vec![in rt.alloc(); b'Z']?;
    assert!(rt; keeps_the_buffer(rt.alloc(), &mut out));
    Ok(())
}

const OUTSIDE: &[Rect] = &[
    Rect { w: 0, ..ONE },
    Rect { h: 0, ..ONE },
    Rect { w: 3, ..ONE },
    Rect { x: 2, ..ONE },
    Rect { y: 1, ..ONE },
    Rect {
        x: 1,
        w: 0xFFFF,
        ..ONE
    },
];

// Whether a request for each area outside is refused so.
fn refuses_each(viewer: &mut Viewer, wanted: CallFault) -> bool {
    let mut good = true;
    for rect in OUTSIDE {
        good &= request_fault(viewer, *rect) == Some(wanted);
    }
    good
}

// Whether that is so before a request and after it.
fn refuses_areas(viewer: &mut Viewer) -> bool {
    refuses_each(viewer, CallFault::AreaOutside)
        && are_right(viewer, &[Step::Ask(TWO, None)])
        && refuses_each(viewer, CallFault::Busy)
}

fn judges_areas_last(alloc: Global) -> bool {
    let mut viewer = ready(alloc, Format::rgb888(), HELLO_2_BY_1);
    refuses_areas(&mut viewer)
}

#[test]
fn an_area_is_judged_last(rt: HostRuntime) {
    assert!(rt; judges_areas_last(rt.alloc()));
}
