//! A set of the places of a picture.

ghost use Rattle.std.specs.Prelude.{◌≡◌, ◌↔◌, ◌%◌, ◌<◌, ◌≤◌, ◌+◌, ◌*◌, ◌/◌, ◌&&◌, false, true};
ghost use Rattle.std.specs.Prelude.{IfOk, IsTrue};

use crate::plane::Plane;
use crate::rect::Rect;
use crate::words::columns_between;
use layers::Layers;
use parts::{cells_of, parts_of};
use std::alloc::{AllocError, Global};
use std::marker::Model;

mod bounding;
mod covering;
mod layers;
mod next_cell;
mod parts;
mod taking;
#[cfg(test)]
mod tests;

/// Some of the places of a picture of that size, numbered from the top left. It keeps its size;
/// either may be 0. It owns one bit for each place, up to 63 bits more for each row, and two bits,
/// with up to 126 more for each row of them, for each cell of 64 by 64 places. By these a cell that
/// is in the set whole, or has no place in it, needs no look at its places. It also owns 64 bits
/// for each cell, a note for each of its rows. By these, other cells cost by rows that may have a
/// place.
#[derive(Debug, Drop)]
pub struct PlaceSet {
    layers: Layers,
}

impl Model for PlaceSet {
    ghost use Rattle.std.specs.Prelude.{Bool};
    ghost use Rattle.std.specs.Coded.{coded_bool};
    ghost use Rattle.rfb_picture.specs.Grid.{Grid, grid_code};
    ghost use Rattle.rfb_picture.specs.layout.PlaceSet.{layered, IsLayers};

    ghost Value = { Grid Bool };

    ghost coded = { grid_code coded_bool };

    ghost view = { λ s. layered s.layers };

    ghost invariant = { λ s. IsLayers s.layers };
}

impl PlaceSet {
    ghost use Rattle.rfb_picture.specs.Grid.{IsGrid, Holds, at_or, filled, uniform};
    ghost use Rattle.rfb_picture.specs.Box.{is_in, HasBox};
    ghost use Rattle.rfb_picture.specs.layout.Cells.{IsOfCells};
    ghost use Rattle.rfb_picture.specs.CellOrder.{HasNextCell, HasNextOfBoth, HasCandidate};
    ghost use Rattle.rfb_picture.specs.Places.{AllMarked, HasRowBits, HasBitsBetween, without};

    /// The set with no place, of a picture of `width` by `height` places. It asks for room for all
    /// its bits, in four pieces; where there is none it gives the error, and nothing is kept.
    pub fn new(alloc: Global, width: u16, height: u16) -> Result<PlaceSet, AllocError>
        ensures value { IfOk result (λ s. s ≡ uniform width height false) }
        ensures width { IfOk result (λ s. s.width ≡ width) }
        ensures height { IfOk result (λ s. s.height ≡ height) }
    {
        let columns = width.div_ceil(64);
        let rows = height.div_ceil(64);
        let places = Plane::new(alloc, width, height)?;
        let full = Plane::new(alloc, columns, rows)?;
        let used = Plane::new(alloc, columns, rows)?;
        let noted = Plane::new(alloc, height, columns)?;
        Ok(PlaceSet {
            layers: Layers {
                places,
                full,
                used,
                noted,
            },
        })
    }

    /// How many places a row of the picture has. It also tells that the set says of each place
    /// whether it is in it.
    #[inline]
    pub fn width(&self) -> u16
        ensures value { result ≡ self.now.width }
        ensures whole { IsGrid self.now }
    {
        self.layers.places.width()
    }

    /// How many rows the picture has.
    #[inline]
    pub fn height(&self) -> u16
        ensures { result ≡ self.now.height }
    {
        self.layers.places.height()
    }

    /// Whether the place at column `x` of row `y` is in the set.
    #[inline]
    pub fn has(&self, x: u16, y: u16) -> bool
        requires column { x < self.now.width }
        requires row { y < self.now.height }
        ensures { result ≡ at_or self.now x y false }
    {
        let layers = &self.layers;
        layers.full.has(x / 64, y / 64)
            || layers.used.has(x / 64, y / 64) && layers.places.has(x, y)
    }

    /// Whether every place of the rectangle, which lies in the picture, is in the set.
    pub fn has_all(&self, rect: Rect) -> bool
        requires { Holds self.now rect }
        ensures { IsTrue result ↔ AllMarked (is_in self.now) rect }
    {
        self.layers.has_all(rect)
    }

    /// Which of 64 places of row `y` are in the set: bit `i` is set if place (`x` + `i`, `y`) is.
    /// They begin at a cell's left edge. A bit past the picture's right edge is not set.
    pub fn row_bits(&self, x: u16, y: u16) -> u64
        requires start { x % 64 ≡ 0 }
        requires column { x < self.now.width }
        requires row { y < self.now.height }
        ensures { HasRowBits self.now x y result }
    {
        let layers = &self.layers;
        if layers.full.has(x / 64, y / 64) {
            let width = usize::from(layers.places.width());
            columns_between(usize::from(x) / 64, usize::from(x), width)
        } else if layers.used.has(x / 64, y / 64) {
            layers.places.row_bits(x, y)
        } else {
            0
        }
    }

    /// Which places of row `y` from column `from` up to column `to`, all of one cell, are in the
    /// set: bit `i` is set for the place `i` columns right of the cell's left edge, and no other.
    #[inline]
    pub fn row_bits_between(&self, y: u16, from: u16, to: u16) -> u64
        requires row { y < self.now.height }
        requires some { from < to }
        requires columns { to ≤ self.now.width }
        requires cell { to ≤ from / 64 * 64 + 64 }
        ensures { HasBitsBetween (is_in self.now) y from to result }
    {
        let mask = columns_between(usize::from(from) / 64, usize::from(from), usize::from(to));
        self.row_bits(from / 64 * 64, y) & mask
    }

    /// The least rectangle that holds the set's places in the cell, which lies in the picture;
    /// `None` where the set has no place there.
    pub fn bounds_in(&self, cell: Rect) -> Option<Rect>
        requires { Holds self.now cell }
        ensures { HasBox (is_in self.now) cell result }
    {
        match self.layers.edges_in(cell) {
            None => None,
            Some(edges) => Some(edges.rect()),
        }
    }

    /// The first cell, 64 by 64 places, from number `from` on that has a place of the set; `None`
    /// where none has. Cells are numbered in reading order: row by row from the top left, those at
    /// the picture's right and lower edge too, which may be smaller. Cells with no place of the set
    /// cost by the word, of 64 cells each.
    pub fn next_cell(&self, from: usize) -> Option<usize>
        ensures { HasNextCell (is_in self.now) self.now.width self.now.height from result }
    {
        self.layers.next_cell(from)
    }

    /// The first cell from number `from` on in which the set and `other`, of the same size, have a
    /// place each, though it need not be one place; `None` where there is none. It costs by the
    /// cells of the set that has fewer.
    pub fn next_cell_of_both(&self, other: &PlaceSet, from: usize) -> Option<usize>
        requires width { self.now.width ≡ other.now.width }
        requires height { self.now.height ≡ other.now.height }
        ensures { HasNextOfBoth (is_in self.now) (is_in other.now)
            self.now.width self.now.height from result }
    {
        let mut at = from;
        while let Some(cell) = self.next_cell(at) {
            let next = other.next_cell(cell)?;
            if next == cell {
                return Some(cell);
            }
            at = next;
        }
        None
    }

    /// A cell from number `from` on that may have a place of the set and of `other`, of the same
    /// size, by the marks of cells alone: no cell before it has a place that is in both. `None`
    /// where no cell has one. It looks at no place, so it costs less than `next_cell_of_both`.
    pub fn next_open_of_both(&self, other: &PlaceSet, from: usize) -> Option<usize>
        requires width { self.now.width ≡ other.now.width }
        requires height { self.now.height ≡ other.now.height }
        ensures { HasCandidate (λ x y. is_in self.now x y && is_in other.now x y)
            self.now.width self.now.height from result }
    {
        let mut at = from;
        while let Some(here) = self.next_open(at) {
            if other.layers.is_open(here) {
                return Some(here);
            }
            at = other.next_open(here + 1)?;
        }
        None
    }

    // The same of one set.
    fn next_open(&self, from: usize) -> Option<usize>
        ensures { HasCandidate (is_in self.now) self.now.width self.now.height from result }
    {
        self.layers.next_open(from)
    }

    /// Puts the places of the rectangle into the set.
    pub fn add(&mut self, rect: Rect)
        requires { Holds self.old rect }
        ensures value { self.new ≡ filled rect true self.old }
        ensures width { self.new.width ≡ self.old.width }
        ensures height { self.new.height ≡ self.old.height }
    {
        if rect.w == 1 && rect.h == 1 {
            self.layers.add_one(rect.x, rect.y);
        } else if rect == Rect::whole(self.width(), self.height()) {
            // Most requests are for all places, which are cells without a border.
            self.add_cells(rect);
        } else if rect.w < 64 && rect.h < 64 {
            // It has no cell whole but at the picture's edges, where marks do as well.
            self.add_part(rect);
        } else {
            self.add_by_parts(rect);
        }
    }

    // The same of a rectangle that may cut cells.
    #[inline(never)]
    fn add_by_parts(&mut self, rect: Rect)
        requires { Holds self.old rect }
        ensures value { self.new ≡ filled rect true self.old }
        ensures width { self.new.width ≡ self.old.width }
        ensures height { self.new.height ≡ self.old.height }
    {
        let parts = parts_of(rect, self.width(), self.height());
        if parts.inner.w == 0 || parts.inner.h == 0 {
            // It has no cell whole.
            self.add_part(rect);
            return;
        }
        self.add_cells(parts.inner);
        self.add_part(parts.above);
        self.add_part(parts.below);
        self.add_part(parts.left);
        self.add_part(parts.right);
    }

    // Puts the places of the rectangle into the set, which has all places of their cells.
    fn add_cells(&mut self, inner: Rect)
        requires room { Holds self.old inner }
        requires columns { IsOfCells inner.x inner.w self.old.width }
        requires rows { IsOfCells inner.y inner.h self.old.height }
        ensures value { self.new ≡ filled inner true self.old }
        ensures width { self.new.width ≡ self.old.width }
        ensures height { self.new.height ≡ self.old.height }
    {
        if inner.w > 0 && inner.h > 0 {
            self.layers.full.add(cells_of(inner));
        }
    }

    // Puts the places of the rectangle into the set, by their marks.
    fn add_part(&mut self, part: Rect)
        requires { Holds self.old part }
        ensures value { self.new ≡ filled part true self.old }
        ensures width { self.new.width ≡ self.old.width }
        ensures height { self.new.height ≡ self.old.height }
    {
        if part.w > 0 && part.h > 0 {
            self.layers.open_cells(cells_of(part));
            self.layers.mark(part);
        }
    }

    /// Takes the places of `other` out of the set. `other` is of the same size and stays the
    /// caller's. It costs by the cells that `other` uses.
    pub fn take_away(&mut self, other: &PlaceSet)
        requires width { self.old.width ≡ other.now.width }
        requires height { self.old.height ≡ other.now.height }
        ensures value { self.new ≡ without other.now self.old }
        ensures width { self.new.width ≡ self.old.width }
        ensures height { self.new.height ≡ self.old.height }
    {
        self.layers.take_parts(&other.layers);
        self.layers.full.take_away(&other.layers.full);
        self.layers.used.take_away(&other.layers.full);
    }

    /// Takes every place out of the set.
    pub fn clear(&mut self)
        ensures value { self.new ≡ uniform self.old.width self.old.height false }
        ensures width { self.new.width ≡ self.old.width }
        ensures height { self.new.height ≡ self.old.height }
    {
        self.layers.full.clear();
        self.layers.used.clear();
    }

    /// Becomes a copy of `other`, which is of the same size and stays the caller's.
    pub fn copy_from(&mut self, other: &PlaceSet)
        requires width { self.old.width ≡ other.now.width }
        requires height { self.old.height ≡ other.now.height }
        ensures { self.new ≡ other.now }
    {
        self.layers.places.copy_from(&other.layers.places);
        self.layers.full.copy_from(&other.layers.full);
        self.layers.used.copy_from(&other.layers.used);
        self.layers.noted.copy_from(&other.layers.noted);
    }
}
