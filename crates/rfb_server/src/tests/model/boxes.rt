//! The least rectangle around the places of a cell that need sending.

use super::plain::Plain;
use rfb_picture::{Picture, Rect};
use rfb_pixel::Colour;

// A rectangle that holds another and a place to its right or left, or below.
fn with_place(found: Option<Rect>, x: u16, y: u16) -> Rect {
    let Some(rect) = found else {
        return Rect { x, y, w: 1, h: 1 };
    };
    let left = rect.x.min(x);
    let right = rect.x.saturating_add(rect.w).max(x.saturating_add(1));
    Rect {
        x: left,
        y: rect.y,
        w: right.saturating_sub(left),
        h: y.saturating_add(1).saturating_sub(rect.y),
    }
}

/// That rectangle, if there is such a place.
pub(super) fn box_in(plain: &Plain, screen: &Picture<Colour>, cell: Rect) -> Option<Rect> {
    let mut found = None;
    for y in cell.y..cell.y.saturating_add(cell.h) {
        for x in cell.x..cell.x.saturating_add(cell.w) {
            if plain.needs(screen, x, y) {
                found = Some(with_place(found, x, y));
            }
        }
    }
    found
}

/// The cell of 64 by 64 at (`x`, `y`), as far as it lies on the screen.
pub(super) fn cell_from(plain: &Plain, x: u16, y: u16) -> Rect {
    Rect {
        x,
        y,
        w: plain.width.saturating_sub(x).min(64),
        h: plain.height.saturating_sub(y).min(64),
    }
}
