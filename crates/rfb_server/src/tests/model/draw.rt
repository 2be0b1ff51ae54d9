//! Drawings and hints, drawn by lot.

use super::lot::Lot;
use crate::Server;
use crate::hint::{Hint, MAX_HINTS};
use rfb_picture::Rect;
use std::alloc::Global;

// A rectangle on the screen.
fn rect_of(server: &Server, lot: &mut Lot) -> Rect {
    let screen = server.screen();
    lot.rect(screen.width(), screen.height())
}

pub(super) fn fill(server: &mut Server, lot: &mut Lot) {
    let rect = rect_of(server, lot);
    let _drawn = server.fill(rect, lot.colour());
}

pub(super) fn put(server: &mut Server, alloc: Global, lot: &mut Lot) {
    let rect = rect_of(server, lot);
    let mut row = Vec::new(alloc);
    for _ in 0..rect.w {
        let _pushed = row.push(lot.colour());
    }
    let _drawn = server.put(rect.x, rect.y, row.as_slice());
}

// A source for a copy to the rectangle, mostly near it.
fn source_of(server: &Server, to: Rect, lot: &mut Lot) -> (u16, u16) {
    let right = server.screen().width().saturating_sub(to.w);
    let bottom = server.screen().height().saturating_sub(to.h);
    if lot.once_in(3) {
        return (lot.up_to(right), lot.up_to(bottom));
    }
    let sx = to.x.saturating_add(lot.up_to(4)).saturating_sub(2);
    let sy = to.y.saturating_add(lot.up_to(4)).saturating_sub(2);
    (sx.min(right), sy.min(bottom))
}

// A hint is kept by both; the oldest of sixteen goes.
fn keep(server: &mut Server, hints: &mut Vec<Hint>, to: Rect, sx: u16, sy: u16) {
    if server.hint(to, sx, sy).is_ok() {
        if hints.len() >= MAX_HINTS {
            hints.remove(0);
        }
        let _kept = hints.push(Hint { to, sx, sy });
    }
}

/// A copy, mostly with its hint.
pub(super) fn copy(server: &mut Server, hints: &mut Vec<Hint>, lot: &mut Lot) {
    let to = rect_of(server, lot);
    let (sx, sy) = source_of(server, to, lot);
    let _drawn = server.copy(to, sx, sy);
    if !lot.once_in(4) {
        keep(server, hints, to, sx, sy);
    }
}

/// A hint of anything, now and then more of them than are kept.
pub(super) fn hint(server: &mut Server, hints: &mut Vec<Hint>, lot: &mut Lot) {
    let times = if lot.once_in(4) { 18 } else { 1 };
    for _ in 0..times {
        let to = rect_of(server, lot);
        let (sx, sy) = source_of(server, to, lot);
        keep(server, hints, to, sx, sy);
    }
}
