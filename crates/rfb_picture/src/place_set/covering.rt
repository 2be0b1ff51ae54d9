//! Whether a set has all places of a zone, found by cells.

ghost use Rattle.std.specs.Prelude.{◌↔◌, ◌+◌, ◌*◌, ◌/◌, ◌≤◌, IsTrue};
ghost use Rattle.rfb_picture.specs.Grid.{Holds};
ghost use Rattle.rfb_picture.specs.Places.{AllMarked};
ghost use Rattle.rfb_picture.specs.layout.PlaceSet.{in_set, IsLayers};

use super::layers::Layers;
use super::parts::{cells_of, in_column, in_row, is_of_one_cell};
use crate::rect::Rect;

impl Layers {
    /// Whether the set has all places of the zone, which lies in the picture.
    pub(super) fn has_all(&self, zone: Rect) -> bool
        requires sound { IsLayers self.now }
        requires room { Holds self.now.places zone }
        ensures { IsTrue result ↔ AllMarked (in_set self.now) zone }
    {
        if is_of_one_cell(zone) {
            return self.has_all_in_cell(zone);
        }
        if zone.w == 0 || zone.h == 0 || self.full.has_all(cells_of(zone)) {
            return true;
        }
        for column in zone.x / 64..(zone.x + zone.w).div_ceil(64) {
            if !self.has_all_in_column(in_column(zone, column)) {
                return false;
            }
        }
        true
    }

    // The same of a zone of one column of cells.
    fn has_all_in_column(&self, zone: Rect) -> bool
        requires sound { IsLayers self.now }
        requires room { Holds self.now.places zone }
        requires column { zone.x + zone.w ≤ zone.x / 64 * 64 + 64 }
        ensures { IsTrue result ↔ AllMarked (in_set self.now) zone }
    {
        for row in zone.y / 64..(zone.y + zone.h).div_ceil(64) {
            if !self.has_all_in_cell(in_row(zone, row)) {
                return false;
            }
        }
        true
    }

    // The same of a zone of one cell.
    fn has_all_in_cell(&self, zone: Rect) -> bool
        requires sound { IsLayers self.now }
        requires room { Holds self.now.places zone }
        requires column { zone.x + zone.w ≤ zone.x / 64 * 64 + 64 }
        requires row { zone.y + zone.h ≤ zone.y / 64 * 64 + 64 }
        ensures { IsTrue result ↔ AllMarked (in_set self.now) zone }
    {
        if zone.w == 0 || zone.h == 0 || self.full.has(zone.x / 64, zone.y / 64) {
            return true;
        }
        self.used.has(zone.x / 64, zone.y / 64) && self.places.has_all(zone)
    }
}
