//! Copies of rows within one list of places, which may lie over one another.

ghost use Rattle.std.specs.Prelude.{◌+◌, ◌*◌, ◌≤◌, ◌⊎◌, length};
ghost use Rattle.rfb_picture.specs.layout.Lines.{IsKept};
ghost use Rattle.rfb_picture.specs.layout.Runs.{RowsCopied, RunCopied};

use crate::rect::Rect;

// Gives each place of `dst` what its place of the rectangle at (`sx`, `sy`) had, in lines of
// `width` places.
pub(super) fn copy_rows<T: Copy>(
    places: &mut [T],
    lines: &[u16],
    width: usize,
    dst: Rect,
    sx: u16,
    sy: u16,
)
    requires columns { dst.x + dst.w ≤ width }
    requires rows { dst.y + dst.h ≤ length lines.now }
    requires source_columns { sx + dst.w ≤ width }
    requires source_rows { sy + dst.h ≤ length lines.now }
    requires kept { IsKept width (length lines.now) lines.now places.old }
    ensures { RowsCopied lines.now width dst sx sy places.old places.new }
{
    let rows = usize::from(dst.h);
    for done in 0..rows {
        // Downwards where the source lies no higher, else upwards: so a row is read before it is
        // written.
        let row = if dst.y <= sy { done } else { rows - 1 - done };
        prove!(row < rows);
        let from = usize::from(lines[usize::from(sy) + row]) * width + usize::from(sx);
        let to = usize::from(lines[usize::from(dst.y) + row]) * width + usize::from(dst.x);
        copy_places(places, from, to, usize::from(dst.w));
    }
}

// Gives `count` places in a row from `to` on what those from `from` on had.
fn copy_places<T: Copy>(places: &mut [T], from: usize, to: usize, count: usize)
    requires source { from + count ≤ length places.old }
    requires target { to + count ≤ length places.old }
    ensures { RunCopied from to count places.old places.new }
{
    if to + count <= from || from + count <= to {
        copy_apart(places, from, to, count);
    } else if to < from {
        shift_left(places, from, to, count);
    } else {
        shift_right(places, from, to, count);
    }
}

// How many places are copied at once where source and target lie apart: 7,680 bytes of colours,
// since above some 8 KiB the C library takes them a byte at a time.
const RUN: usize = 1280;

// The same where source and target lie apart.
fn copy_apart<T: Copy>(places: &mut [T], from: usize, to: usize, count: usize)
    requires apart { (to + count ≤ from) ⊎ (from + count ≤ to) }
    requires source { from + count ≤ length places.old }
    requires target { to + count ≤ length places.old }
    ensures { RunCopied from to count places.old places.new }
{
    let mut done = 0;
    while count - done > RUN {
        copy_run(places, from + done, to + done, RUN);
        done += RUN;
    }
    copy_run(places, from + done, to + done, count - done);
}

// The same at once.
#[inline]
fn copy_run<T: Copy>(places: &mut [T], from: usize, to: usize, count: usize)
    requires apart { (to + count ≤ from) ⊎ (from + count ≤ to) }
    requires source { from + count ≤ length places.old }
    requires target { to + count ≤ length places.old }
    ensures { RunCopied from to count places.old places.new }
{
    if to < from {
        let (front, back) = places.split_at_mut(from);
        front[to..to + count].copy_from_slice(&back[..count]);
    } else {
        let (front, back) = places.split_at_mut(to);
        back[..count].copy_from_slice(&front[from..from + count]);
    }
}

// How many places are moved at once where they lie over one another.
const PIECE: usize = 16;

// The same where the target lies to the left of the source: from the left on, so that a place is
// read before it is written.
fn shift_left<T: Copy>(places: &mut [T], from: usize, to: usize, count: usize)
    requires order { to ≤ from }
    requires source { from + count ≤ length places.old }
    ensures { RunCopied from to count places.old places.new }
{
    let mut done = 0;
    while count - done >= PIECE {
        move_piece(places, from + done, to + done);
        done += PIECE;
    }
    places.copy_within(from + done..from + count, to + done);
}

// The same where it lies to the right: from the right on.
fn shift_right<T: Copy>(places: &mut [T], from: usize, to: usize, count: usize)
    requires order { from ≤ to }
    requires target { to + count ≤ length places.old }
    ensures { RunCopied from to count places.old places.new }
{
    let mut left = count;
    while left >= PIECE {
        left -= PIECE;
        move_piece(places, from + left, to + left);
    }
    places.copy_within(from..from + left, to);
}

// Moves a piece: all of it is read before any of it is written.
#[inline(always)]
fn move_piece<T: Copy>(places: &mut [T], from: usize, to: usize)
    requires source { from + PIECE ≤ length places.old }
    requires target { to + PIECE ≤ length places.old }
    ensures { RunCopied from to PIECE places.old places.new }
{
    let mut piece = [places[from]; PIECE];
    piece.copy_from_slice(&places[from..from + PIECE]);
    places[to..to + PIECE].copy_from_slice(&piece);
}
