//! A viewer's messages, drawn by lot.

use super::lot::Lot;
use super::plain::Plain;
use super::rects::append;
use crate::Server;
use rfb_picture::Rect;
use rfb_pixel::Format;
use rfb_wire::{ClientHead, Encoding};
use std::alloc::Global;

fn feed(server: &mut Server, bytes: &[u8]) {
    let _told = server.feed(bytes);
}

// A rectangle that may leave the screen on the right and below.
fn rect_of(plain: &Plain, lot: &mut Lot) -> Rect {
    let rect = lot.rect(plain.width, plain.height);
    Rect {
        w: rect.w.saturating_add(lot.up_to(2)),
        h: rect.h.saturating_add(lot.up_to(2)),
        ..rect
    }
}

/// A request, mostly an incremental one.
pub(super) fn ask(server: &mut Server, plain: &mut Plain, lot: &mut Lot) {
    let rect = rect_of(plain, lot);
    let incremental = !lot.once_in(4);
    let head = ClientHead::Request { incremental, rect };
    feed(server, head.spell().as_slice());
    plain.ask(rect, !incremental);
}

/// Another format, now and then.
pub(super) fn set_format(server: &mut Server, plain: &mut Plain, lot: &mut Lot) {
    let format = match lot.up_to(5) {
        0 => Format::rgb888(),
        1 => Format::rgb565(),
        2 => Format::bgr233(),
        _ => return,
    };
    let head = ClientHead::SetPixelFormat(format.write());
    feed(server, head.spell().as_slice());
    plain.set_format(format);
}

// A number of an encoding, or of none.
fn number_of(lot: &mut Lot) -> i32 {
    match lot.up_to(5) {
        0 => 0,
        1..=2 => 1,
        3 => 2,
        4 => 5,
        _ => -223,
    }
}

// Takes a number of the list; whether an encoding of pixels was chosen by now.
fn take_number(plain: &mut Plain, number: i32, chosen: bool) -> bool {
    match number {
        0 if !chosen => plain.encoding = Encoding::Raw,
        2 if !chosen => plain.encoding = Encoding::Rre,
        5 if !chosen => plain.encoding = Encoding::Hextile,
        1 => plain.copies = true,
        _ => {}
    }
    chosen || number == 0 || number == 2 || number == 5
}

/// A list of up to four numbers: the first encoding of pixels counts, Raw where there is none.
pub(super) fn list(server: &mut Server, plain: &mut Plain, alloc: Global, lot: &mut Lot) {
    let count = lot.up_to(4);
    let mut bytes = Vec::new(alloc);
    append(
        ClientHead::SetEncodings(count).spell().as_slice(),
        &mut bytes,
    );
    plain.encoding = Encoding::Raw;
    plain.copies = false;
    let mut chosen = false;
    for _ in 0..count {
        let number = number_of(lot);
        append(number.to_be_bytes().as_slice(), &mut bytes);
        chosen = take_number(plain, number, chosen);
    }
    feed(server, bytes.as_slice());
}
