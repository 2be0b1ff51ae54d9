//! A set without the places of another, by the cells that the other uses.

ghost use Rattle.std.specs.Prelude.{◌≡◌, ℕ, ◌<◌, ◌&&◌, nat_eq, true};
ghost use Rattle.rfb_picture.specs.Box.{is_in};
ghost use Rattle.rfb_picture.specs.layout.PlaceSet.{IsLayers, AreAlike, IsSpread, HasLost};

use super::layers::Layers;
use crate::rect::Rect;

impl Layers {
    /// Takes away the places of `other`, a set of the same size, in the
    /// cells that it has not whole.
    pub(super) fn take_parts(&mut self, other: &Layers)
        requires sound { IsLayers self.old }
        requires sound_other { IsLayers other.now }
        requires alike { AreAlike self.old other.now }
        ensures { HasLost (λ _ _. true) other.now self.old self.new }
    {
        let rows = other.used.height();
        let mut row = other.used.next_row_of_either(&other.used, 0);
        while row < rows {
            self.take_row(other, row);
            row = other.used.next_row_of_either(&other.used, row + 1);
        }
    }

    // The same in one row of cells. A cell that `other` does not use costs nothing here.
    #[inline(never)]
    fn take_row(&mut self, other: &Layers, row: u16)
        requires sound { IsLayers self.old }
        requires sound_other { IsLayers other.now }
        requires alike { AreAlike self.old other.now }
        requires row { row < other.now.used.height }
        ensures { HasLost (λ _ j. nat_eq j row) other.now self.old self.new }
    {
        let mut from = 0;
        while let Some(column) = other.used.next(from, row) {
            self.take_cell(other, column, row);
            from = column + 1;
        }
    }

    // The same in one cell, which `other` uses.
    fn take_cell(&mut self, other: &Layers, column: u16, row: u16)
        requires sound { IsLayers self.old }
        requires sound_other { IsLayers other.now }
        requires alike { AreAlike self.old other.now }
        requires column { column < other.now.used.width }
        requires row { row < other.now.used.height }
        requires used { is_in other.now.used column row ≡ true }
        ensures { HasLost (λ i j. nat_eq i column && nat_eq j row) other.now self.old self.new }
    {
        if other.full.has(column, row) {
            return;
        }
        self.spread_cell(column, row);
        if self.used.has(column, row) {
            self.places.take_cell(&other.places, column, row);
        }
    }

    // Has the places of a cell by their marks, if it had the cell whole.
    fn spread_cell(&mut self, column: u16, row: u16)
        requires sound { IsLayers self.old }
        requires column { column < self.old.full.width }
        requires row { row < self.old.full.height }
        ensures { IsSpread column row self.old self.new }
    {
        if self.full.has(column, row) {
            let zone = self.zone_of(column, row);
            self.mark(zone);
            self.used.add_one(column, row);
            self.full.remove(column, row);
        }
    }
}
