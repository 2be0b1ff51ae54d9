//! The lines that a picture's rows are in.

ghost use Rattle.std.specs.Prelude.{◌≡◌, ℕ, ◌+◌, ◌*◌, ◌<◌, ◌≤◌, length, slice_index_or, false};
ghost use Rattle.std.specs.Prelude.{IfOk};
ghost use Rattle.rfb_picture.specs.layout.Lines.{AreInOrder, IsKept, other_of, place_in};
ghost use Rattle.rfb_picture.specs.layout.Turn.{Turned, rest_of};

use std::alloc::{AllocError, Global};

// A line for each of so many rows, in their order.
pub(super) fn lines_of(alloc: Global, height: u16) -> Result<Vec<u16>, AllocError>
    ensures { IfOk result (λ lines. AreInOrder height lines.items) }
{
    let mut lines = Vec::with_capacity(alloc, usize::from(height))?;
    for row in 0..height {
        lines.push(row)?;
    }
    Ok(lines)
}

// Which line a row is in. Where no row has moved it is that of its number, and is not looked up.
#[inline]
pub(super) fn line_of(is_turned: bool, lines: &[u16], row: usize) -> usize
    requires row { row < length lines.now }
    requires order { is_turned ≡ false → AreInOrder (length lines.now) lines.now }
    ensures { result ≡ slice_index_or lines.now row 0 }
{
    if is_turned {
        return usize::from(lines[row]);
    }
    row
}

// The index of a place among the places, in lines of that width.
#[inline]
pub(super) fn place_of(is_turned: bool, lines: &[u16], width: u16, x: u16, y: u16) -> usize
    requires row { y < length lines.now }
    requires order { is_turned ≡ false → AreInOrder (length lines.now) lines.now }
    ensures { result ≡ place_in lines.now width x y }
{
    line_of(is_turned, lines, usize::from(y)) * usize::from(width) + usize::from(x)
}

// Moves the places so that each row is in the line of its number, unless each is.
#[inline]
pub(super) fn put_in_order<T: Copy>(
    is_turned: &mut bool,
    lines: &mut [u16],
    places: &mut [T],
    width: usize,
)
    requires kept { IsKept width (length lines.old) lines.old places.old }
    requires order { is_turned.old ≡ false → AreInOrder (length lines.old) lines.old }
    ensures turned { is_turned.new ≡ false }
    ensures order { AreInOrder (length lines.old) lines.new }
    ensures same { (x y : ℕ) (d : T) → x < width → y < length lines.old →
        slice_index_or places.new (y * width + x) d
        ≡ slice_index_or places.old (place_in lines.old width x y) d }
{
    if *is_turned {
        settle(lines, places, width);
        *is_turned = false;
    }
}

// The same where it may be another one. It is called for few pictures, and out of the way of
// the rest.
#[inline(never)]
fn settle<T: Copy>(lines: &mut [u16], places: &mut [T], width: usize)
    requires { IsKept width (length lines.old) lines.old places.old }
    ensures order { AreInOrder (length lines.old) lines.new }
    ensures same { (x y : ℕ) (d : T) → x < width → y < length lines.old →
        slice_index_or places.new (y * width + x) d
        ≡ slice_index_or places.old (place_in lines.old width x y) d }
{
    for row in 0..lines.len() {
        while usize::from(lines[row]) != row {
            let line = usize::from(lines[row]);
            lines.swap(row, line);
            swap_lines(places, line, usize::from(lines[row]), width);
        }
    }
}

// Two lines change their places.
fn swap_lines<T: Copy>(places: &mut [T], a: usize, b: usize, width: usize)
    requires first { (a + 1) * width ≤ length places.old }
    requires second { (b + 1) * width ≤ length places.old }
    ensures { (x line : ℕ) (d : T) → x < width →
        slice_index_or places.new (line * width + x) d
        ≡ slice_index_or places.old (other_of a b line * width + x) d }
{
    for x in 0..width {
        places.swap(a * width + x, b * width + x);
    }
}

/// Rows that are to be copied over others all across.
#[derive(Clone, Copy, Debug)]
pub(super) struct Rows {
    /// The first one that is written.
    pub to: u16,
    /// The first one that is read.
    pub from: u16,
    /// How many they are.
    pub count: u16,
}

// Rows that move by at most their count: those that are written take over the lines of those that
// are read. Returns the rows that are left to be copied: those that are read and not written,
// since their lines are gone.
pub(super) fn turn(lines: &mut [u16], rows: Rows) -> Rows
    requires target { rows.to + rows.count ≤ length lines.old }
    requires source { rows.from + rows.count ≤ length lines.old }
    requires most { length lines.old ≤ 65535 }
    requires near { (rows.to ≤ rows.from + rows.count) × (rows.from ≤ rows.to + rows.count) }
    ensures turned { Turned rows lines.old lines.new }
    ensures rest { result ≡ rest_of rows }
{
    if rows.to <= rows.from {
        let shift = rows.from - rows.to;
        let end = usize::from(rows.from) + usize::from(rows.count);
        lines[usize::from(rows.to)..end].rotate_left(usize::from(shift));
        return Rows {
            to: rows.to + rows.count,
            from: rows.to + rows.count - shift,
            count: shift,
        };
    }
    let shift = rows.to - rows.from;
    let end = usize::from(rows.to) + usize::from(rows.count);
    lines[usize::from(rows.from)..end].rotate_left(usize::from(rows.count));
    Rows {
        to: rows.from,
        from: rows.to,
        count: shift,
    }
}
