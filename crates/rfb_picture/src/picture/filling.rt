//! One value over a rectangle, row by row, and each row by pieces, or place by place.

ghost use Rattle.std.specs.Prelude.{◌≡◌, ℕ, ◌+◌, ◌-◌, ◌<◌, ◌≤◌, length, slice_index_or, false};
ghost use Rattle.rfb_picture.specs.layout.Lines.{AreInOrder, IsKept};
ghost use Rattle.rfb_picture.specs.layout.Runs.{RowsFilled, RunFilled};

use super::lines::line_of;
use crate::rect::Rect;

// Gives `value` to each place of the rectangle, in lines of `width` places, by pieces of `N`, or
// place by place where `N` is 0. Where no row has moved its loop looks up no line.
#[inline(always)]
pub(super) fn fill_rows<T: Copy, const N: usize>(
    places: &mut [T],
    is_turned: bool,
    lines: &[u16],
    width: usize,
    rect: Rect,
    value: T,
    piece: &[T; N],
)
    requires wide { N ≤ rect.w }
    requires piece { (k : ℕ) (d : T) → k < N → slice_index_or piece.now k d ≡ value }
    requires order { is_turned ≡ false → AreInOrder (length lines.now) lines.now }
    requires columns { rect.x + rect.w ≤ width }
    requires rows { rect.y + rect.h ≤ length lines.now }
    requires kept { IsKept width (length lines.now) lines.now places.old }
    ensures { RowsFilled lines.now width rect value places.old places.new }
{
    if is_turned {
        fill_lines(places, true, lines, width, rect, value, piece);
    } else {
        fill_lines(places, false, lines, width, rect, value, piece);
    }
}

// The same by one loop.
#[inline(always)]
fn fill_lines<T: Copy, const N: usize>(
    places: &mut [T],
    is_turned: bool,
    lines: &[u16],
    width: usize,
    rect: Rect,
    value: T,
    piece: &[T; N],
)
    requires wide { N ≤ rect.w }
    requires piece { (k : ℕ) (d : T) → k < N → slice_index_or piece.now k d ≡ value }
    requires order { is_turned ≡ false → AreInOrder (length lines.now) lines.now }
    requires columns { rect.x + rect.w ≤ width }
    requires rows { rect.y + rect.h ≤ length lines.now }
    requires kept { IsKept width (length lines.now) lines.now places.old }
    ensures { RowsFilled lines.now width rect value places.old places.new }
{
    for row in 0..usize::from(rect.h) {
        let line = line_of(is_turned, lines, usize::from(rect.y) + row);
        let start = line * width + usize::from(rect.x);
        fill_places(places, start, usize::from(rect.w), value, piece);
    }
}

// Gives `value` to `count` places in a row.
#[inline(always)]
pub(super) fn fill_places<T: Copy, const N: usize>(
    places: &mut [T],
    start: usize,
    count: usize,
    value: T,
    piece: &[T; N],
)
    requires wide { N ≤ count }
    requires fits { start + count ≤ length places.old }
    requires piece { (k : ℕ) (d : T) → k < N → slice_index_or piece.now k d ≡ value }
    ensures { RunFilled start count value places.old places.new }
{
    fill_row(&mut places[start..start + count], value, piece);
}

// Gives `value` to each place of a row. The last piece ends with the row, and may lie over the one
// before it. A loop over a slice of its own needs fewer than half of the instructions of one by
// index.
#[inline(always)]
fn fill_row<T: Copy, const N: usize>(row: &mut [T], value: T, piece: &[T; N])
    requires wide { N ≤ length row.old }
    requires piece { (k : ℕ) (d : T) → k < N → slice_index_or piece.now k d ≡ value }
    ensures { (k : ℕ) (d : T) → k < length row.new → slice_index_or row.new k d ≡ value }
{
    if N == 0 {
        for place in row.iter_mut() {
            *place = value;
        }
        return;
    }
    let last = row.len() - N;
    let mut at = 0;
    'pieces: while at < last {
        put_piece(row, at, piece);
        at += N;
    }
    put_piece(row, last, piece);
}

// Gives places, from one on, the values of a piece.
#[inline(always)]
fn put_piece<T: Copy, const N: usize>(row: &mut [T], start: usize, piece: &[T; N])
    requires { start + N ≤ length row.old }
    ensures here { (k : ℕ) (d : T) → start ≤ k → k < start + N →
        slice_index_or row.new k d ≡ slice_index_or piece.now (k - start) d }
    ensures before { (k : ℕ) (d : T) → k < start →
        slice_index_or row.new k d ≡ slice_index_or row.old k d }
    ensures len { length row.new ≡ length row.old }
{
    write_piece(&mut row[start..start + N], piece);
}

// The same where they are a slice of their own: as one array.
#[inline(always)]
fn write_piece<T: Copy, const N: usize>(places: &mut [T], piece: &[T; N])
    requires { length places.old ≡ N }
    ensures { places.new ≡ piece.now }
{
    match places.as_mut_array::<N>() {
        Some(array) => *array = *piece,
        None => unreachable!(),
    }
}
