//! Hints, and which of them become CopyRect.

use super::plain::Plain;
use super::rects::{append, append_head};
use crate::hint::Hint;
use rfb_picture::{Picture, Rect};
use rfb_pixel::Colour;
use std::alloc::{AllocError, Global};

// Whether every place of the rectangle is asked for and not whole.
fn is_plainly_asked(plain: &Plain, rect: Rect) -> bool {
    let mut all = true;
    for y in rect.y..rect.y.saturating_add(rect.h) {
        for x in rect.x..rect.x.saturating_add(rect.w) {
            let place = plain.at(x, y);
            all = all && place.asked && !place.whole;
        }
    }
    all
}

// Whether it is known of every place of the rectangle what the viewer has.
fn is_known(plain: &Plain, rect: Rect) -> bool {
    let mut all = true;
    for y in rect.y..rect.y.saturating_add(rect.h) {
        for x in rect.x..rect.x.saturating_add(rect.w) {
            all = all && plain.at(x, y).known.is_some();
        }
    }
    all
}

// How many places of the hint's rectangle would have their wanted pixel if it had what is known
// from (`sx`, `sy`) on.
fn right_from(plain: &Plain, screen: &Picture<Colour>, to: Rect, sx: u16, sy: u16) -> u32 {
    let mut count = 0u32;
    for y in 0..to.h {
        for x in 0..to.w {
            let known = plain.at(sx.saturating_add(x), sy.saturating_add(y)).known;
            let wanted = plain.wanted(screen, to.x.saturating_add(x), to.y.saturating_add(y));
            if known.is_some() && known == wanted {
                count = count.saturating_add(1);
            }
        }
    }
    count
}

// Whether the hint is used.
fn is_of_use(plain: &Plain, screen: &Picture<Colour>, hint: Hint) -> bool {
    let to = hint.to;
    let source = Rect {
        x: hint.sx,
        y: hint.sy,
        ..to
    };
    plain.copies
        && is_plainly_asked(plain, to)
        && is_known(plain, source)
        && right_from(plain, screen, to, to.x, to.y)
            < right_from(plain, screen, to, hint.sx, hint.sy)
}

// What the viewer has after a CopyRect, as if all of the source were read first.
fn copy(plain: &mut Plain, alloc: Global, hint: Hint) -> Result<(), AllocError> {
    let mut before = Vec::new(alloc);
    for y in 0..hint.to.h {
        for x in 0..hint.to.w {
            let known = plain
                .at(hint.sx.saturating_add(x), hint.sy.saturating_add(y))
                .known;
            before.push(known)?;
        }
    }
    let mut known = before.iter();
    for y in 0..hint.to.h {
        for x in 0..hint.to.w {
            know_at(
                plain,
                hint.to.x.saturating_add(x),
                hint.to.y.saturating_add(y),
                known.next(),
            );
        }
    }
    Ok(())
}

fn know_at(plain: &mut Plain, x: u16, y: u16, known: Option<&Option<u32>>) {
    let mut place = plain.at(x, y);
    place.known = known.copied().flatten();
    plain.set(x, y, place);
}

/// Appends the CopyRect that the hint makes, if it is used.
pub(super) fn took_hint(
    plain: &mut Plain,
    screen: &Picture<Colour>,
    alloc: Global,
    hint: Hint,
    out: &mut Vec<u8>,
) -> bool {
    if !is_of_use(plain, screen, hint) {
        return false;
    }
    append_head(hint.to, 1, out);
    append(hint.sx.to_be_bytes().as_slice(), out);
    append(hint.sy.to_be_bytes().as_slice(), out);
    copy(plain, alloc, hint).is_ok()
}
