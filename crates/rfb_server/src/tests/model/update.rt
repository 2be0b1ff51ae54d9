//! The update of the model.

use super::boxes::{box_in, cell_from};
use super::copies::took_hint;
use super::plain::Plain;
use super::rects::{append, append_rect};
use crate::hint::Hint;
use rfb_picture::{Picture, Rect};
use rfb_pixel::Colour;
use std::alloc::Global;

// Sends what a cell needs. Whether it did.
fn sent_cell(plain: &mut Plain, screen: &Picture<Colour>, cell: Rect, out: &mut Vec<u8>) -> bool {
    let Some(rect) = box_in(plain, screen, cell) else {
        return false;
    };
    append_rect(plain, screen, rect, out);
    plain.know(screen, rect);
    true
}

// Sends what all cells need, row by row: how many rectangles that makes.
fn send_cells(plain: &mut Plain, screen: &Picture<Colour>, out: &mut Vec<u8>) -> u16 {
    let mut count = 0u16;
    for row in 0..plain.height.div_ceil(64) {
        for column in 0..plain.width.div_ceil(64) {
            let cell = cell_from(plain, column.saturating_mul(64), row.saturating_mul(64));
            count = count.saturating_add(u16::from(sent_cell(plain, screen, cell, out)));
        }
    }
    count
}

// Uses hints, the oldest first: how many rectangles that makes.
fn send_copies(
    plain: &mut Plain,
    screen: &Picture<Colour>,
    alloc: Global,
    hints: &[Hint],
    out: &mut Vec<u8>,
) -> u16 {
    let mut count = 0u16;
    for hint in hints {
        count = count.saturating_add(u16::from(took_hint(plain, screen, alloc, *hint, out)));
    }
    count
}

/// The update, if a place needs sending.
pub(super) fn update_of(
    plain: &mut Plain,
    screen: &Picture<Colour>,
    alloc: Global,
    hints: &[Hint],
) -> Option<Vec<u8>> {
    let all = Rect {
        x: 0,
        y: 0,
        w: plain.width,
        h: plain.height,
    };
    box_in(plain, screen, all)?;
    let mut rects = Vec::new(alloc);
    let copies = send_copies(plain, screen, alloc, hints, &mut rects);
    let count = copies.saturating_add(send_cells(plain, screen, &mut rects));
    plain.ask_nothing();
    let mut out = Vec::new(alloc);
    append([0, 0].as_slice(), &mut out);
    append(count.to_be_bytes().as_slice(), &mut out);
    append(rects.as_slice(), &mut out);
    Some(out)
}
