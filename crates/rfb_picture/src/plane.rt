//! A mark for each place of a picture, or for each of its cells.

ghost use Rattle.std.specs.Prelude.{◌≡◌, ◌↔◌, ◌+◌, ◌*◌, ◌/◌, ◌%◌, ◌<◌, ◌≤◌, ◌||◌, false, true};
ghost use Rattle.std.specs.Prelude.{IfOk};
ghost use Rattle.std.specs.Prelude.{IsTrue};

use crate::edges::{Edges, edges_in};
use crate::rect::Rect;
use crate::words::{
    add_places, columns_between, has_places, next_place, next_used, take_column, take_places,
    word_at,
};
use std::alloc::{AllocError, Global};
use std::boxed::BoxedSlice;
use std::marker::Model;

/// Marks of the places of a rectangle of that size, numbered from the top left. It keeps its size;
/// either may be 0. It owns one bit for each place, and up to 63 bits more for each row.
#[derive(Debug, Drop)]
pub(crate) struct Plane {
    width: u16,
    height: u16,
    // How many words a row has.
    across: usize,
    // Row after row; of a row each word has 64 places, the lowest bit the leftmost. As a
    // boxed slice they can't grow.
    words: BoxedSlice<u64>,
    // Each row that has a mark is one from `first` up to `last`, so others need no look.
    first: u16,
    last: u16,
}

impl Model for Plane {
    ghost use Rattle.std.specs.Prelude.{Bool};
    ghost use Rattle.std.specs.Coded.{coded_bool};
    ghost use Rattle.std.specs.Box.{boxed_slice_items};
    ghost use Rattle.rfb_picture.specs.Grid.{Grid, grid_code};
    ghost use Rattle.rfb_picture.specs.layout.Plane.{plane, IsSpanned};

    ghost Value = { Grid Bool };

    ghost coded = { grid_code coded_bool };

    ghost view = { λ s. plane s.width s.height s.across (boxed_slice_items s.words) };

    ghost invariant = { λ s.
        IsSpanned s.width s.height s.across (boxed_slice_items s.words) s.first s.last };
}

impl Plane {
    ghost use Rattle.rfb_picture.specs.Grid.{IsGrid, Holds, at_or, filled, uniform};
    ghost use Rattle.rfb_picture.specs.Box.{is_in};
    ghost use Rattle.rfb_picture.specs.layout.Edges.{HasEdges};
    ghost use Rattle.rfb_picture.specs.layout.Cells.{cell_at, one_cell, word_places};
    ghost use Rattle.rfb_picture.specs.Places.{AllMarked, HasRowBits, HasBitsBetween, without};
    ghost use Rattle.rfb_picture.specs.layout.Marks.{HasNext, AreRowsClear, without_in};

    /// No mark, at `width` by `height` places. It asks for room for all its bits, in one piece;
    /// where there is none it gives the error, and nothing is kept.
    pub(crate) fn new(alloc: Global, width: u16, height: u16) -> Result<Plane, AllocError>
        ensures value { IfOk result (λ s. s ≡ uniform width height false) }
        ensures width { IfOk result (λ s. s.width ≡ width) }
        ensures height { IfOk result (λ s. s.height ≡ height) }
    {
        let across = usize::from(width).div_ceil(64);
        let count = usize::from(height) * across;
        let mut words = Vec::with_capacity(alloc, count)?;
        words.resize(count, 0)?;
        Ok(Plane {
            width,
            height,
            across,
            words: words.into_boxed_slice(),
            first: height,
            last: 0,
        })
    }

    /// How many places a row has. It also tells that each place is marked or not.
    #[inline]
    pub(crate) fn width(&self) -> u16
        ensures value { result ≡ self.now.width }
        ensures whole { IsGrid self.now }
    {
        self.width
    }

    /// How many rows there are.
    #[inline]
    pub(crate) fn height(&self) -> u16
        ensures { result ≡ self.now.height }
    {
        self.height
    }

    /// Whether the place at column `x` of row `y` is marked.
    #[inline]
    pub(crate) fn has(&self, x: u16, y: u16) -> bool
        requires column { x < self.now.width }
        requires row { y < self.now.height }
        ensures { result ≡ at_or self.now x y false }
    {
        let word = word_at(&self.words, self.across, x, y);
        word >> (x % 64) & 1 == 1
    }

    /// The edges of the marked places of the zone, which lies in one column of cells;
    /// `None` where none is marked.
    pub(crate) fn edges_in(&self, zone: Rect) -> Option<Edges>
        requires room { Holds self.now zone }
        requires some { 0 < zone.w }
        requires column { zone.x + zone.w ≤ zone.x / 64 * 64 + 64 }
        ensures { HasEdges (is_in self.now) zone result }
    {
        edges_in(&self.words, self.across, zone)
    }

    /// Whether each place of the rectangle is marked.
    pub(crate) fn has_all(&self, rect: Rect) -> bool
        requires { Holds self.now rect }
        ensures { IsTrue result ↔ AllMarked (is_in self.now) rect }
    {
        has_places(&self.words, self.across, rect)
    }

    /// The marks of the places from column `x` on that are of one word with it, as bits.
    #[inline]
    pub(crate) fn row_bits(&self, x: u16, y: u16) -> u64
        requires start { x % 64 ≡ 0 }
        requires column { x < self.now.width }
        requires row { y < self.now.height }
        ensures { HasRowBits self.now x y result }
    {
        let from = usize::from(x);
        let word = word_at(&self.words, self.across, x, y);
        word & columns_between(from / 64, from, usize::from(self.width))
    }

    /// The marks of the places of row `y` from column `from` up to column `to`, all of one word, as
    /// the bits of that word. No other bit is set.
    #[inline]
    pub(crate) fn bits_between(&self, y: u16, from: u16, to: u16) -> u64
        requires row { y < self.now.height }
        requires some { from < to }
        requires columns { to ≤ self.now.width }
        requires word { to ≤ from / 64 * 64 + 64 }
        ensures { HasBitsBetween (is_in self.now) y from to result }
    {
        let word = word_at(&self.words, self.across, from, y);
        word & columns_between(usize::from(from) / 64, usize::from(from), usize::from(to))
    }

    /// The column of the first marked place of row `y` from column `x` on; `None` where none is.
    #[inline]
    pub(crate) fn next(&self, x: u16, y: u16) -> Option<u16>
        requires { y < self.now.height }
        ensures { HasNext (is_in self.now) y x self.now.width result }
    {
        let row = usize::from(y);
        let to = usize::from(self.width);
        match next_place(&self.words, self.across, row, usize::from(x), to) {
            None => None,
            Some(column) => Some(column as u16),
        }
    }

    /// The same of the places that are marked here, in `other`, of the same size, or in both.
    #[inline]
    pub(crate) fn next_of_either(&self, other: &Plane, x: u16, y: u16) -> Option<u16>
        requires row { y < self.now.height }
        requires width { self.now.width ≡ other.now.width }
        requires height { self.now.height ≡ other.now.height }
        ensures { HasNext (λ i j. is_in self.now i j || is_in other.now i j) y x
            self.now.width result }
    {
        match (self.next(x, y), other.next(x, y)) {
            (None, found) => found,
            (Some(column), None) => Some(column),
            (Some(here), Some(there)) => Some(here.min(there)),
        }
    }

    /// A row from row `y` on, up to which no place is marked here or in `other`, of the same size:
    /// the next one whose words have a bit in one of both, or the height.
    #[inline]
    pub(crate) fn next_row_of_either(&self, other: &Plane, y: u16) -> u16
        requires row { y ≤ self.now.height }
        requires width { self.now.width ≡ other.now.width }
        requires height { self.now.height ≡ other.now.height }
        ensures bounds { (y ≤ result) × (result ≤ self.now.height) }
        ensures none { AreRowsClear (λ i j. is_in self.now i j || is_in other.now i j)
            self.now.width y result }
    {
        if self.across == 0 {
            return self.height;
        }
        let last = self.last.max(other.last);
        if y >= last {
            return self.height;
        }
        let first = y.max(self.first.min(other.first)).min(last);
        let from = usize::from(first) * self.across;
        let to = usize::from(last) * self.across;
        (next_used(&self.words, &other.words, from, to) / self.across) as u16
    }

    /// Marks the places of the rectangle.
    pub(crate) fn add(&mut self, rect: Rect)
        requires { Holds self.old rect }
        ensures value { self.new ≡ filled rect true self.old }
        ensures width { self.new.width ≡ self.old.width }
        ensures height { self.new.height ≡ self.old.height }
    {
        add_places(&mut self.words, self.across, rect);
        self.first = self.first.min(rect.y);
        self.last = self.last.max(rect.y + rect.h);
    }

    /// Marks one place.
    #[inline]
    pub(crate) fn add_one(&mut self, x: u16, y: u16)
        requires column { x < self.old.width }
        requires row { y < self.old.height }
        ensures value { self.new ≡ filled (one_cell x y) true self.old }
        ensures width { self.new.width ≡ self.old.width }
        ensures height { self.new.height ≡ self.old.height }
    {
        let at = usize::from(y) * self.across + usize::from(x) / 64;
        self.words[at] |= 1 << (x % 64);
        self.first = self.first.min(y);
        self.last = self.last.max(y + 1);
    }

    /// Takes the marks from the places of row `y` in the cells of that column, all of one word.
    #[inline]
    pub(crate) fn clear_word(&mut self, column: u16, y: u16)
        requires column { column * 64 < self.old.width }
        requires row { y < self.old.height }
        ensures value { self.new ≡ filled (word_places column y) false self.old }
        ensures width { self.new.width ≡ self.old.width }
        ensures height { self.new.height ≡ self.old.height }
    {
        let at = usize::from(y) * self.across + usize::from(column);
        self.words[at] = 0;
    }

    /// Takes the mark from one place.
    pub(crate) fn remove(&mut self, x: u16, y: u16)
        requires column { x < self.old.width }
        requires row { y < self.old.height }
        ensures value { self.new ≡ filled (one_cell x y) false self.old }
        ensures width { self.new.width ≡ self.old.width }
        ensures height { self.new.height ≡ self.old.height }
    {
        let at = usize::from(y) * self.across + usize::from(x) / 64;
        self.words[at] &= !(1 << (x % 64));
    }

    /// Takes the marks of `other`, which is of the same size, from the places of the cell.
    pub(crate) fn take_cell(&mut self, other: &Plane, column: u16, row: u16)
        requires column { column * 64 < self.old.width }
        requires row { row * 64 < self.old.height }
        requires width { self.old.width ≡ other.now.width }
        requires height { self.old.height ≡ other.now.height }
        ensures value { self.new ≡ without_in (cell_at column row) other.now self.old }
        ensures width { self.new.width ≡ self.old.width }
        ensures height { self.new.height ≡ self.old.height }
    {
        let top = usize::from(row) * 64;
        let bottom = (top + 64).min(usize::from(self.height));
        take_column(
            &mut self.words,
            &other.words,
            self.across,
            usize::from(column),
            top,
            bottom,
        );
    }

    /// Takes the marks of `other`, which is of the same size.
    pub(crate) fn take_away(&mut self, other: &Plane)
        requires width { self.old.width ≡ other.now.width }
        requires height { self.old.height ≡ other.now.height }
        ensures value { self.new ≡ without other.now self.old }
        ensures width { self.new.width ≡ self.old.width }
        ensures height { self.new.height ≡ self.old.height }
    {
        take_places(
            &mut self.words,
            &other.words,
            self.across,
            usize::from(self.first),
            usize::from(self.last),
        );
        self.pass_empty_rows();
    }

    // The first row that may have a mark is the first whose words have a bit; where none has one,
    // no row may.
    fn pass_empty_rows(&mut self)
        ensures { self.new ≡ self.old }
    {
        if self.first < self.last && self.across > 0 {
            let from = usize::from(self.first) * self.across;
            let to = usize::from(self.last) * self.across;
            let row = (next_used(&self.words, &self.words, from, to) / self.across) as u16;
            if row < self.last {
                self.first = row;
            } else {
                self.first = self.height;
                self.last = 0;
            }
        }
    }

    /// Takes all marks.
    pub(crate) fn clear(&mut self)
        ensures value { self.new ≡ uniform self.old.width self.old.height false }
        ensures width { self.new.width ≡ self.old.width }
        ensures height { self.new.height ≡ self.old.height }
    {
        self.words.fill(0);
        self.first = self.height;
        self.last = 0;
    }

    /// Becomes a copy of `other`, which is of the same size and stays the caller's.
    pub(crate) fn copy_from(&mut self, other: &Plane)
        requires width { self.old.width ≡ other.now.width }
        requires height { self.old.height ≡ other.now.height }
        ensures { self.new ≡ other.now }
    {
        self.words.copy_from_slice(&other.words);
        self.first = other.first;
        self.last = other.last;
    }
}
