//! Rectangles by cells: which a rectangle has whole, what lies about them, which it touches.

ghost use Rattle.std.specs.Prelude.{◌≡◌, ◌↔◌, IsTrue, ℕ, ◌+◌, ◌*◌, ◌/◌, ◌<◌, ◌≤◌};
ghost use Rattle.rfb_picture.specs.layout.Cells.{in_span, is_whole, touched, in_column, in_row};
ghost use Rattle.rfb_picture.specs.layout.Cells.{IsOfCells, IsParts};

use crate::rect::Rect;

/// A rectangle, split into the places of the cells that it has whole, and what lies about them.
#[derive(Clone, Copy, Drop)]
pub(super) struct Parts {
    pub inner: Rect,
    pub above: Rect,
    pub below: Rect,
    pub left: Rect,
    pub right: Rect,
}

/// The parts of the rectangle in a set of `width` by `height` places. The cells at the set's right
/// and lower edge may be smaller than others.
pub(super) fn parts_of(rect: Rect, width: u16, height: u16) -> Parts
    requires columns { rect.x + rect.w ≤ width }
    requires rows { rect.y + rect.h ≤ height }
    ensures { IsParts width height rect result }
{
    let (right, bottom) = (rect.x + rect.w, rect.y + rect.h);
    let columns = span_within(rect.x, rect.w, width);
    let rows = span_within(rect.y, rect.h, height);
    let inner = Rect {
        x: columns.first,
        y: rows.first,
        w: columns.count,
        h: rows.count,
    };
    let (inner_right, inner_bottom) = (inner.x + inner.w, inner.y + inner.h);
    Parts {
        inner,
        above: Rect {
            h: inner.y - rect.y,
            ..rect
        },
        below: Rect {
            y: inner_bottom,
            h: bottom - inner_bottom,
            ..rect
        },
        left: Rect {
            x: rect.x,
            w: inner.x - rect.x,
            ..inner
        },
        right: Rect {
            x: inner_right,
            w: right - inner_right,
            ..inner
        },
    }
}

// `count` places of a row or a column, from one on.
#[derive(Clone, Copy, Drop)]
struct Span {
    first: u16,
    count: u16,
}

// Of `count` places from `from` on, in a row of `size`, those whose cell has
// all its places among them.
fn span_within(from: u16, count: u16, size: u16) -> Span
    requires { from + count ≤ size }
    ensures within { (from ≤ result.first) × (result.first + result.count ≤ from + count) }
    ensures whole { (x : ℕ) → x < size →
        in_span result.first result.count x ≡ is_whole from (from + count) size (x / 64) }
    ensures cells { IsOfCells result.first result.count size }
{
    let to = from + count;
    let first = (usize::from(from).div_ceil(64) * 64).min(usize::from(to)) as u16;
    let end = if to == size { to } else { to - to % 64 };
    Span {
        first,
        count: end.saturating_sub(first),
    }
}

/// The cells that have the rectangle's places, as a rectangle of cells.
pub(super) fn cells_of(rect: Rect) -> Rect
    requires columns { rect.x + rect.w < 65536 }
    requires rows { rect.y + rect.h < 65536 }
    ensures { result ≡ touched rect }
{
    let (column, row) = (rect.x / 64, rect.y / 64);
    Rect {
        x: column,
        y: row,
        w: (rect.x + rect.w).div_ceil(64) - column,
        h: (rect.y + rect.h).div_ceil(64) - row,
    }
}

/// Whether the zone's places are all of one cell.
pub(super) fn is_of_one_cell(zone: Rect) -> bool
    ensures { IsTrue result
        ↔ (zone.x + zone.w ≤ zone.x / 64 * 64 + 64) × (zone.y + zone.h ≤ zone.y / 64 * 64 + 64) }
{
    u32::from(zone.x % 64) + u32::from(zone.w) <= 64
        && u32::from(zone.y % 64) + u32::from(zone.h) <= 64
}

/// The zone's part in that column of cells.
pub(super) fn in_column(zone: Rect, column: u16) -> Rect
    requires fits { zone.x + zone.w < 65536 }
    requires from { zone.x < column * 64 + 64 }
    requires to { column * 64 ≤ zone.x + zone.w }
    ensures { result ≡ in_column zone column }
{
    let start = zone.x.max(column * 64);
    let end = (column * 64).saturating_add(64).min(zone.x + zone.w);
    Rect {
        x: start,
        w: end - start,
        ..zone
    }
}

/// The zone's part in that row of cells.
pub(super) fn in_row(zone: Rect, row: u16) -> Rect
    requires fits { zone.y + zone.h < 65536 }
    requires from { zone.y < row * 64 + 64 }
    requires to { row * 64 ≤ zone.y + zone.h }
    ensures { result ≡ in_row zone row }
{
    let start = zone.y.max(row * 64);
    let end = (row * 64).saturating_add(64).min(zone.y + zone.h);
    Rect {
        y: start,
        h: end - start,
        ..zone
    }
}
