//! A picture of places, each with a value.

ghost use Rattle.std.specs.Prelude.{◌≡◌, ℕ, ◌+◌, ◌*◌, ◌<◌, ◌≤◌, ◌↔◌, length, slice_index_or, false};
ghost use Rattle.std.specs.Prelude.{IfOk, IsTrue};
ghost use Rattle.std.specs.Borrow.{sem};
ghost use Rattle.rfb_picture.specs.layout.Lines.{AreInOrder, IsKept};
ghost use Rattle.rfb_picture.specs.layout.Runs.{RowsPut, RunPut};

mod copying;
mod filling;
mod lines;
#[cfg(test)]
mod tests;

use crate::rect::Rect;
use copying::copy_rows;
use filling::fill_rows;
use lines::{Rows, line_of, lines_of, place_of, put_in_order, turn};
use std::alloc::{AllocError, Global};
use std::marker::Model;

// How many places of a new picture are given their value at once.
const PIECE: usize = 256;

/// `height` rows of `width` places, each with a value of `T`. Place (0, 0) is at the top left. It
/// owns its values, keeps its size, and has exactly one value for each place; either size may be 0.
#[derive(Debug, Drop)]
pub struct Picture<T> {
    width: u16,
    height: u16,
    // Whether a row may be in another line than that of its number.
    is_turned: bool,
    // Which line of the places each row is in, so that rows can move without their places.
    lines: Vec<u16>,
    places: Vec<T>,
}

impl<T> Model for Picture<T> {
    ghost use Rattle.rfb_picture.specs.Grid.{Grid, grid_code};
    ghost use Rattle.rfb_picture.specs.layout.Lines.{IsPicture, shown};

    ghost Value = { Grid T };

    ghost coded = { grid_code T.code };

    ghost view = { λ p. shown p.width p.height p.lines.items p.places.items };

    ghost invariant = { λ p.
        IsPicture p.width p.height p.is_turned p.lines.items p.places.items };
}

impl<T: Copy> Picture<T> {
    ghost use Rattle.rfb_picture.specs.Grid.{IsGrid, Holds, at_or, row_of};
    ghost use Rattle.rfb_picture.specs.Grid.{filled, copied, with_row, with_rows, uniform};
    ghost use Rattle.rfb_picture.specs.Loan.{LendsRow};

    /// A picture of `width` by `height` places with `value` at each. It asks for room for exactly
    /// that many values, in one piece, and for two bytes a row; where there is none it gives the
    /// error, and nothing is kept.
    ///
    /// It is inlined, so that it is known there which value is written: zeros are cleared.
    #[inline(always)]
    #[tactic(auto, unfolding(crate::specs::Grid::uniform))]
    pub fn new(alloc: Global, width: u16, height: u16, value: T) -> Result<Picture<T>, AllocError>
        ensures value { IfOk result (λ p. p ≡ uniform width height value) }
        ensures width { IfOk result (λ p. p.width ≡ width) }
        ensures height { IfOk result (λ p. p.height ≡ height) }
    {
        let lines = lines_of(alloc, height)?;
        let count = usize::from(height) * usize::from(width);
        let mut places = Vec::with_capacity(alloc, count)?;
        while places.len() < count {
            let len = count.min(places.len() + PIECE);
            places.resize(len, value)?;
        }
        Ok(Picture {
            width,
            height,
            is_turned: false,
            lines,
            places,
        })
    }

    /// How many places a row has. Its contract also says that the picture has a value for each
    /// place.
    #[inline]
    pub fn width(&self) -> u16
        ensures value { result ≡ self.now.width }
        ensures whole { IsGrid self.now }
    {
        self.width
    }

    /// How many rows the picture has.
    #[inline]
    pub fn height(&self) -> u16
        ensures { result ≡ self.now.height }
    {
        self.height
    }

    /// Whether no edge of the rectangle passes the picture's. A rectangle with no place is judged
    /// by its edges too.
    pub fn holds(&self, rect: Rect) -> bool
        ensures { IsTrue result ↔ Holds self.now rect }
    {
        // In 32 bits, since an edge may pass 65,535.
        u32::from(rect.x) + u32::from(rect.w) <= u32::from(self.width)
            && u32::from(rect.y) + u32::from(rect.h) <= u32::from(self.height)
    }

    /// The value at column `x` of row `y`.
    #[inline]
    pub fn at(&self, x: u16, y: u16) -> T
        requires column { x < self.now.width }
        requires row { y < self.now.height }
        ensures { (d : T) → result ≡ at_or self.now x y d }
    {
        self.places[place_of(self.is_turned, &self.lines, self.width, x, y)]
    }

    /// Lends the values at `w` places of row `y`, from column `x` on.
    #[inline]
    pub fn row(&self, x: u16, y: u16, w: u16) -> &[T]
        requires columns { x + w ≤ self.now.width }
        requires row { y < self.now.height }
        ensures value { result.now ≡ row_of self.now x y w }
        ensures len { length result.now ≡ w }
    {
        let start = place_of(self.is_turned, &self.lines, self.width, x, y);
        &self.places[start..start + usize::from(w)]
    }

    /// Lends `w` places of row `y` for writing, from column `x` on. Where rows have moved by
    /// `copy_by_lines` it moves their places first.
    #[inline]
    pub fn row_mut(&mut self, x: u16, y: u16, w: u16) -> &mut [T]
        requires columns { x + w ≤ self.old.width }
        requires row { y < self.old.height }
        ensures* writes_back { sem 𝓛 (LendsRow T.row self.entry x y result) }
        ensures value { result.now ≡ row_of self.old x y w }
        ensures len { length result.now ≡ w }
        ensures whole { IsGrid self.old }
    {
        let width = usize::from(self.width);
        put_in_order(
            &mut self.is_turned,
            &mut self.lines,
            &mut self.places,
            width,
        );
        let start = usize::from(y) * width + usize::from(x);
        self.places.slice_mut(start..start + usize::from(w))
    }

    /// Gives `value` to each place of the rectangle.
    pub fn fill(&mut self, rect: Rect, value: T)
        requires { Holds self.old rect }
        ensures value { self.new ≡ filled rect value self.old }
        ensures width { self.new.width ≡ self.old.width }
        ensures height { self.new.height ≡ self.old.height }
    {
        let width = usize::from(self.width);
        fill_rows(
            &mut self.places,
            self.is_turned,
            &self.lines,
            width,
            rect,
            value,
            &[],
        );
    }

    /// The same, by pieces of as many places as `piece` has, each of them `value`. `piece` stays
    /// the caller's, who knows the type of a place and the least width of a row. This is compiled
    /// into its caller.
    #[inline(always)]
    pub fn fill_by<const N: usize>(&mut self, rect: Rect, value: T, piece: &[T; N])
        requires held { Holds self.old rect }
        requires wide { N ≤ rect.w }
        requires piece { (k : ℕ) (d : T) → k < N → slice_index_or piece.now k d ≡ value }
        ensures value { self.new ≡ filled rect value self.old }
        ensures width { self.new.width ≡ self.old.width }
        ensures height { self.new.height ≡ self.old.height }
    {
        let width = usize::from(self.width);
        fill_rows(
            &mut self.places,
            self.is_turned,
            &self.lines,
            width,
            rect,
            value,
            piece,
        );
    }

    /// Writes `row` at (`x`, `y`) and on to the right. `row` stays the caller's.
    pub fn put_row(&mut self, x: u16, y: u16, row: &[T])
        requires columns { x + length row.now ≤ self.old.width }
        requires row { y < self.old.height }
        ensures value { self.new ≡ with_row x y row.now self.old }
        ensures width { self.new.width ≡ self.old.width }
        ensures height { self.new.height ≡ self.old.height }
    {
        let start = place_of(self.is_turned, &self.lines, self.width, x, y);
        put_places(&mut self.places, start, row);
    }

    /// Writes `rows` over the rectangle: its rows from the top, one after the other, each from the
    /// left. `rows` stays the caller's.
    pub fn put_rows(&mut self, rect: Rect, rows: &[T])
        requires held { Holds self.old rect }
        requires size { length rows.now ≡ rect.h * rect.w }
        ensures value { self.new ≡ with_rows rect rows.now self.old }
        ensures width { self.new.width ≡ self.old.width }
        ensures height { self.new.height ≡ self.old.height }
    {
        let width = usize::from(self.width);
        put_rows(
            &mut self.places,
            self.is_turned,
            &self.lines,
            width,
            rect,
            rows,
        );
    }

    /// Gives each place of `dst` what its place of the rectangle of that size at (`sx`, `sy`) had,
    /// as CopyRect does (RFC 6143 section 7.7.2). The two rectangles may lie over one another.
    pub fn copy(&mut self, dst: Rect, sx: u16, sy: u16)
        requires target { Holds self.old dst }
        requires source { Holds self.old (record dst { x = sx; y = sy }) }
        ensures value { self.new ≡ copied dst sx sy self.old }
        ensures width { self.new.width ≡ self.old.width }
        ensures height { self.new.height ≡ self.old.height }
    {
        let width = usize::from(self.width);
        copy_rows(&mut self.places, &self.lines, width, dst, sx, sy);
    }

    /// The same. Whole rows that move by at most their count change lines, and only as many rows
    /// are copied as they move by. It is for pictures that lend no row for writing.
    pub fn copy_by_lines(&mut self, dst: Rect, sx: u16, sy: u16)
        requires target { Holds self.old dst }
        requires source { Holds self.old (record dst { x = sx; y = sy }) }
        ensures value { self.new ≡ copied dst sx sy self.old }
        ensures width { self.new.width ≡ self.old.width }
        ensures height { self.new.height ≡ self.old.height }
    {
        if dst.w < self.width || dst.y > sy + dst.h || sy > dst.y + dst.h {
            self.copy(dst, sx, sy);
            return;
        }
        let rows = Rows {
            to: dst.y,
            from: sy,
            count: dst.h,
        };
        let rest = turn(&mut self.lines, rows);
        self.is_turned = true;
        let left = Rect {
            y: rest.to,
            h: rest.count,
            ..dst
        };
        self.copy(left, sx, rest.from);
    }

    /// Becomes a copy of `other`, which has the same size and stays the caller's.
    pub fn copy_from(&mut self, other: &Picture<T>)
        requires width { self.old.width ≡ other.now.width }
        requires height { self.old.height ≡ other.now.height }
        ensures { self.new ≡ other.now }
    {
        self.is_turned = other.is_turned;
        self.lines.copy_from_slice(&other.lines);
        self.places.copy_from_slice(&other.places);
    }
}

// Writes `rows`, one after the other, over the rectangle's, in lines of `width` places. Where no
// row has moved its loop looks up no line.
fn put_rows<T: Copy>(
    places: &mut [T],
    is_turned: bool,
    lines: &[u16],
    width: usize,
    rect: Rect,
    rows: &[T],
)
    requires order { is_turned ≡ false → AreInOrder (length lines.now) lines.now }
    requires columns { rect.x + rect.w ≤ width }
    requires rows { rect.y + rect.h ≤ length lines.now }
    requires kept { IsKept width (length lines.now) lines.now places.old }
    requires size { length rows.now ≡ rect.h * rect.w }
    ensures { RowsPut lines.now width rect rows.now places.old places.new }
{
    if is_turned {
        put_lines(places, true, lines, width, rect, rows);
    } else {
        put_lines(places, false, lines, width, rect, rows);
    }
}

// The same by one loop.
#[inline(always)]
fn put_lines<T: Copy>(
    places: &mut [T],
    is_turned: bool,
    lines: &[u16],
    width: usize,
    rect: Rect,
    rows: &[T],
)
    requires order { is_turned ≡ false → AreInOrder (length lines.now) lines.now }
    requires columns { rect.x + rect.w ≤ width }
    requires rows { rect.y + rect.h ≤ length lines.now }
    requires kept { IsKept width (length lines.now) lines.now places.old }
    requires size { length rows.now ≡ rect.h * rect.w }
    ensures { RowsPut lines.now width rect rows.now places.old places.new }
{
    let count = usize::from(rect.w);
    for row in 0..usize::from(rect.h) {
        let line = line_of(is_turned, lines, usize::from(rect.y) + row);
        let start = line * width + usize::from(rect.x);
        let first = row * count;
        put_places(places, start, &rows[first..first + count]);
    }
}

// Writes `row` over as many places from `start` on.
fn put_places<T: Copy>(places: &mut [T], start: usize, row: &[T])
    requires { start + length row.now ≤ length places.old }
    ensures { RunPut start row.now places.old places.new }
{
    places[start..start + row.len()].copy_from_slice(row);
}
