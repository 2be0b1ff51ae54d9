//! A viewer played step by step: what it is fed or asked, and what it then has to report or show.

use super::*;
use crate::{CallFault, Move, ViewerFault};
use rfb_picture::Rect;

// SetPixelFormat of rgb888, and SetEncodings of Raw alone.
const AT_READY: [u8; 28] = [
    0x00, 0, 0, 0, 0x20, 0x18, 0, 1, 0, 0xFF, 0, 0xFF, 0, 0xFF, 0x10, 0x08, 0, 0, 0, 0, //
    0x02, 0, 0, 1, 0, 0, 0, 0,
];

/// The event that bytes give.
#[derive(Clone, Copy)]
pub enum Told<'a> {
    Nothing,
    UpdateDone,
    Bell,
    ColourMapSkipped,
    /// A text: what is kept of it, and its length.
    Text(&'a [u8], u32),
    /// Bytes that are answered.
    Reply(&'a [u8]),
    /// The viewer is ready: the screen's size, its name, and the name's length.
    Ready(u16, u16, &'a [u8], u32),
}

/// What a viewer is fed or asked, or what holds of it. A step that goes another way is wrong.
#[derive(Clone, Copy)]
pub enum Step<'a> {
    /// It takes that number of these bytes, with that event.
    Feed(&'a [u8], usize, Told<'a>),
    /// These bytes end in that fault.
    Fail(&'a [u8], ViewerFault),
    /// It takes all of these bytes but the last, without an event. That one ends in that fault, and
    /// so does all that comes then, also when it is fed nothing.
    Break(&'a [u8], ViewerFault),
    /// It takes each byte by itself, and after each that number of bytes is pending.
    Keep(&'a [u8], &'a [usize]),
    /// It takes each byte by itself, without an event, and shows one row of these colours after it.
    Still(&'a [u8], &'a [Colour]),
    /// It takes each byte by itself, without an event, and is inside a message after it. Another
    /// format is then refused so, or set.
    Inside(&'a [u8], Option<CallFault>),
    /// The same, where a format and a request for that area are refused as busy.
    Busy(&'a [u8], Rect),
    /// A request for all of an area is refused so, or sent.
    Ask(Rect, Option<CallFault>),
    /// Another format is refused so, or set.
    SetFormat(Option<CallFault>),
    /// These bytes are to be sent for a call.
    Send(Call<'a>, &'a [u8]),
    /// It shows one row of these colours.
    Shows(&'a [Colour]),
    /// Whether it has no picture.
    Blank(bool),
    Pending(usize),
    /// Whether no message has begun.
    Between(bool),
    /// What is kept of the reason for a refusal.
    Reason(&'a [u8]),
    /// What changed since this was asked last.
    Changed(Option<Rect>),
    /// The copies since this was asked last.
    Moved(&'a [Move]),
}

/// A call that is a message.
#[derive(Clone, Copy)]
pub enum Call<'a> {
    Key(bool, u32),
    Pointer(u8, u16, u16),
    List(&'a [Encoding]),
    SetRgb565,
    SetBgr233,
    Request(bool, Rect),
}

fn is_event(event: &Option<ViewerEvent>, told: Told<'_>) -> bool {
    match (event, told) {
        (None, Told::Nothing) => true,
        (Some(ViewerEvent::UpdateDone), Told::UpdateDone) => true,
        (Some(ViewerEvent::Bell), Told::Bell) => true,
        (Some(ViewerEvent::ColourMapSkipped), Told::ColourMapSkipped) => true,
        (Some(ViewerEvent::CutText { kept, length }), Told::Text(text, told)) => {
            kept.as_slice() == text && *length == told
        }
        (Some(ViewerEvent::Reply(reply)), Told::Reply(wanted)) => reply.as_slice() == wanted,
        (Some(event), Told::Ready(width, height, name, length)) => {
            is_ready(event, (width, height), name, length)
        }
        _ => false,
    }
}

fn is_ready(event: &ViewerEvent, size: (u16, u16), wanted: &[u8], length: u32) -> bool {
    match event {
        ViewerEvent::Ready {
            reply,
            width,
            height,
            name,
            name_length,
        } => {
            reply.as_slice() == AT_READY.as_slice()
                && (*width, *height) == size
                && name.as_slice() == wanted
                && *name_length == length
        }
        _ => false,
    }
}

/// Whether it takes `wanted` of the bytes, with that event.
pub fn tells(viewer: &mut Viewer, bytes: &[u8], wanted: usize, told: Told<'_>) -> bool {
    match viewer.feed(bytes) {
        Ok(Fed { used, event }) => used == wanted && is_event(&event, told),
        Err(_) => false,
    }
}

/// The fault that bytes end in.
pub fn fault_at(viewer: &mut Viewer, bytes: &[u8]) -> Option<ViewerFault> {
    viewer.feed(bytes).err()
}

// Whether bytes end in that fault.
fn fails(viewer: &mut Viewer, bytes: &[u8], wanted: ViewerFault) -> bool {
    fault_at(viewer, bytes) == Some(wanted)
}

// Whether all bytes but the last are taken, and that one ends in that fault for good.
fn breaks(viewer: &mut Viewer, bytes: &[u8], wanted: ViewerFault) -> bool {
    let (front, back) = bytes.split_at(bytes.len().saturating_sub(1));
    tells(viewer, front, front.len(), Told::Nothing)
        && fails(viewer, back, wanted)
        && fails(viewer, b"\0", wanted)
        && fails(viewer, b"", wanted)
}

// Whether each byte of a stream is taken, and after it as many are pending as are wanted.
fn keeps(viewer: &mut Viewer, stream: &[u8], wanted: &[usize]) -> bool {
    let mut good = stream.len() == wanted.len();
    for (byte, pending) in stream.chunks(1).zip(wanted) {
        good &= fault_at(viewer, byte).is_none() && viewer.pending() == *pending;
    }
    good
}

// Whether each byte of a stream is taken, and after it such a row is shown.
fn stays(viewer: &mut Viewer, stream: &[u8], row: &[Colour]) -> bool {
    let mut good = true;
    for byte in stream.chunks(1) {
        good &= tells(viewer, byte, 1, Told::Nothing) && shows_row(viewer, row);
    }
    good
}

// Whether each byte of a stream is taken, and after it a format is refused so, or set.
fn is_inside(viewer: &mut Viewer, stream: &[u8], wanted: Option<CallFault>) -> bool {
    let mut good = true;
    for byte in stream.chunks(1) {
        good &= tells(viewer, byte, 1, Told::Nothing)
            && !viewer.between()
            && format_fault(viewer) == wanted;
    }
    good
}

// Whether each byte of a stream is taken, and after it a request and a format are refused.
fn is_busy(viewer: &mut Viewer, stream: &[u8], rect: Rect) -> bool {
    let mut good = true;
    for byte in stream.chunks(1) {
        good &= tells(viewer, byte, 1, Told::Nothing)
            && request_fault(viewer, rect) == Some(CallFault::Busy)
            && format_fault(viewer) == Some(CallFault::Busy);
    }
    good
}

/// How a request for an area is refused, if it is.
pub fn request_fault(viewer: &mut Viewer, rect: Rect) -> Option<CallFault> {
    viewer.request(true, rect).err()
}

/// How a format is refused, if it is.
pub fn format_fault(viewer: &mut Viewer) -> Option<CallFault> {
    viewer.set_format(Format::bgr233()).err()
}

/// Whether it shows one row of these colours.
pub fn shows_row(viewer: &Viewer, wanted: &[Colour]) -> bool {
    match viewer.picture() {
        Some(picture) => picture.height() == 1 && row_of(viewer, 0) == wanted,
        None => false,
    }
}

// Whether a call answers these bytes.
fn is_sent<const SIZE: usize>(answer: Result<[u8; SIZE], CallFault>, wanted: &[u8]) -> bool {
    match answer {
        Ok(bytes) => bytes.as_slice() == wanted,
        Err(_) => false,
    }
}

fn sends_list(viewer: &mut Viewer, list: &[Encoding], wanted: &[u8]) -> bool {
    let mut listed = ArrayVec::new();
    let fits = listed.try_extend_from_slice(list).is_ok();
    match viewer.set_encodings(listed) {
        Ok(bytes) => fits && bytes.as_slice() == wanted,
        Err(_) => false,
    }
}

// Whether these bytes are to be sent for a call.
fn sends(viewer: &mut Viewer, call: Call<'_>, wanted: &[u8]) -> bool {
    match call {
        Call::Key(down, key) => is_sent(viewer.key(down, key), wanted),
        Call::Pointer(buttons, x, y) => is_sent(viewer.pointer(buttons, x, y), wanted),
        Call::List(list) => sends_list(viewer, list, wanted),
        Call::SetRgb565 => is_sent(viewer.set_format(Format::rgb565()), wanted),
        Call::SetBgr233 => is_sent(viewer.set_format(Format::bgr233()), wanted),
        Call::Request(again, rect) => is_sent(viewer.request(again, rect), wanted),
    }
}

// Whether that holds of it.
fn holds(viewer: &Viewer, step: &Step<'_>) -> bool {
    match *step {
        Step::Shows(row) => shows_row(viewer, row),
        Step::Blank(blank) => viewer.picture().is_none() == blank,
        Step::Pending(count) => viewer.pending() == count,
        Step::Between(between) => viewer.between() == between,
        Step::Reason(reason) => viewer.reason() == reason,
        _ => false,
    }
}

// Whether a call goes so.
fn is_answered(viewer: &mut Viewer, step: &Step<'_>) -> bool {
    match *step {
        Step::Ask(rect, fault) => request_fault(viewer, rect) == fault,
        Step::SetFormat(fault) => format_fault(viewer) == fault,
        Step::Send(call, bytes) => sends(viewer, call, bytes),
        Step::Changed(wanted) => viewer.damage() == wanted,
        Step::Moved(wanted) => viewer.moved().as_slice() == wanted,
        _ => holds(viewer, step),
    }
}

// Whether a step goes as it should.
fn is_right(viewer: &mut Viewer, step: &Step<'_>) -> bool {
    match *step {
        Step::Feed(bytes, used, told) => tells(viewer, bytes, used, told),
        Step::Fail(bytes, fault) => fails(viewer, bytes, fault),
        Step::Break(bytes, fault) => breaks(viewer, bytes, fault),
        Step::Keep(bytes, pending) => keeps(viewer, bytes, pending),
        Step::Still(bytes, row) => stays(viewer, bytes, row),
        Step::Inside(bytes, fault) => is_inside(viewer, bytes, fault),
        Step::Busy(bytes, rect) => is_busy(viewer, bytes, rect),
        _ => is_answered(viewer, step),
    }
}

/// Whether all steps go as they should.
pub fn are_right(viewer: &mut Viewer, steps: &[Step<'_>]) -> bool {
    let mut good = true;
    for step in steps {
        good &= is_right(viewer, step);
    }
    good
}

/// The same of a new viewer that goes up to that version.
pub fn greets(alloc: Global, limit: Version, steps: &[Step<'_>]) -> bool {
    let mut viewer = viewer(alloc, Format::rgb888(), limit);
    are_right(&mut viewer, steps)
}

/// The number of the first list of steps that goes wrong, each with a new viewer, if one does.
pub fn first_wrong_greeting(alloc: Global, lists: &[&[Step<'_>]]) -> Option<usize> {
    for at in 0..lists.len() {
        if !greets(alloc, Version::V38, lists[at]) {
            return Some(at);
        }
    }
    None
}

// Whether all steps go as they should of a viewer after such a handshake.
fn plays(alloc: Global, format: Format, hello: &[u8], steps: &[Step<'_>]) -> bool {
    let mut viewer = ready(alloc, format, hello);
    are_right(&mut viewer, steps)
}

/// The same with pixels of 32 bits.
pub fn plays_at_rgb888(alloc: Global, hello: &[u8], steps: &[Step<'_>]) -> bool {
    plays(alloc, Format::rgb888(), hello, steps)
}

/// The same with pixels of 8 bits.
pub fn plays_at_bgr233(alloc: Global, hello: &[u8], steps: &[Step<'_>]) -> bool {
    plays(alloc, Format::bgr233(), hello, steps)
}
