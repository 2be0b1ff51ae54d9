//! The marks that a set is made of.

ghost use Rattle.std.specs.Prelude.{◌≡◌, ◌+◌, ◌-◌, ◌*◌, ◌<◌, ◌≤◌, true};
ghost use Rattle.rfb_picture.specs.Grid.{Holds, filled};
ghost use Rattle.rfb_picture.specs.layout.Cells.{one_cell, zone_of};
ghost use Rattle.rfb_picture.specs.layout.PlaceSet.{layered, IsLayers, IsOpened};
ghost use Rattle.rfb_picture.specs.layout.PlaceSet.{with_marks, without_marks};

use super::parts::{cells_of, in_column, in_row};
use crate::plane::Plane;
use crate::rect::Rect;

/// The marks of a set's places, two for each of its cells: 64 by 64 places, fewer at the set's
/// right and lower edge; and notes of the rows of cells that may have a mark.
#[derive(Debug, Drop)]
pub(super) struct Layers {
    // The places that are in the set, where their cell is used and not full; else it says nothing.
    pub places: Plane,
    // The cells that are in the set whole.
    pub full: Plane,
    // The cells whose places' marks count, if they are not full.
    pub used: Plane,
    // The rows of a column of cells that may have a mark; others have none. A column of cells is a
    // row here, and a row of its places a column, so a cell's rows are the bits of one word.
    pub noted: Plane,
}

impl Layers {
    /// Puts one place into the set, by its mark if the set has not the whole cell.
    pub(super) fn add_one(&mut self, x: u16, y: u16)
        requires sound { IsLayers self.old }
        requires column { x < self.old.places.width }
        requires row { y < self.old.places.height }
        ensures sound { IsLayers self.new }
        ensures value { layered self.new ≡ filled (one_cell x y) true (layered self.old) }
        ensures wide { self.new.places.width ≡ self.old.places.width }
        ensures high { self.new.places.height ≡ self.old.places.height }
    {
        if !self.full.has(x / 64, y / 64) {
            self.open_cell(x / 64, y / 64);
            self.noted.add_one(y, x / 64);
            self.places.add_one(x, y);
        }
    }

    /// Marks the places of the rectangle, and notes their rows.
    pub(super) fn mark(&mut self, part: Rect)
        requires sound { IsLayers self.old }
        requires room { Holds self.old.places part }
        ensures { self.new ≡ with_marks part self.old }
    {
        let cells = cells_of(part);
        self.noted.add(Rect {
            x: part.y,
            y: cells.x,
            w: part.h,
            h: cells.w,
        });
        self.places.add(part);
    }

    /// Opens the cells of a rectangle of cells: from now on their places' marks count, unless they
    /// are full. The set has the places that it had.
    pub(super) fn open_cells(&mut self, cells: Rect)
        requires sound { IsLayers self.old }
        requires room { Holds self.old.full cells }
        ensures { IsOpened cells self.old self.new }
    {
        for row in cells.y..cells.y + cells.h {
            self.open_row(row, cells.x, cells.x + cells.w);
        }
    }

    /// The places of the picture in the cell at that column and row of cells.
    pub(super) fn zone_of(&self, column: u16, row: u16) -> Rect
        requires sound { IsLayers self.now }
        requires column { column * 64 < self.now.places.width }
        requires row { row * 64 < self.now.places.height }
        ensures { result ≡ zone_of self.now.places.width self.now.places.height column row }
    {
        let all = Rect {
            x: 0,
            y: 0,
            w: self.places.width(),
            h: self.places.height(),
        };
        in_row(in_column(all, column), row)
    }

    // Opens those of one row from column `from` up to column `to`.
    fn open_row(&mut self, row: u16, from: u16, to: u16)
        requires sound { IsLayers self.old }
        requires order { from ≤ to }
        requires column { to ≤ self.old.full.width }
        requires row { row < self.old.full.height }
        ensures { IsOpened (record { x = from; y = row; w = to - from; h = 1 }) self.old self.new }
    {
        for column in from..to {
            self.open_cell(column, row);
        }
    }

    // Opens one. Its marks, which did not count so far, are taken away first.
    #[inline]
    fn open_cell(&mut self, column: u16, row: u16)
        requires sound { IsLayers self.old }
        requires column { column < self.old.full.width }
        requires row { row < self.old.full.height }
        ensures { IsOpened (one_cell column row) self.old self.new }
    {
        if !self.full.has(column, row) && !self.used.has(column, row) {
            self.clear_cell(column, row);
            self.used.add_one(column, row);
        }
    }

    // Takes the marks from the places of one. Rows that are not noted have none, and cost nothing.
    fn clear_cell(&mut self, column: u16, row: u16)
        requires sound { IsLayers self.old }
        requires column { column < self.old.full.width }
        requires row { row < self.old.full.height }
        ensures { self.new ≡ without_marks column row self.old }
    {
        let top = row * 64;
        let bottom = top.saturating_add(64).min(self.places.height());
        let mut left = self.noted.bits_between(column, top, bottom);
        while left != 0 {
            let bit = left.trailing_zeros();
            self.places.clear_word(column, top + bit as u16);
            left &= !(1 << bit);
        }
        self.noted.clear_word(row, column);
    }
}
