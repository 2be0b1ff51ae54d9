//! The outermost places of a set in a zone, found by cells.

ghost use Rattle.std.specs.Prelude.{◌≡◌, ◌+◌, ◌*◌, ◌/◌, ◌<◌, ◌≤◌};
ghost use Rattle.rfb_picture.specs.Grid.{Holds};
ghost use Rattle.rfb_picture.specs.Box.{is_in};
ghost use Rattle.rfb_picture.specs.layout.Edges.{HasEdges};
ghost use Rattle.rfb_picture.specs.layout.PlaceSet.{in_set, IsLayers};

use super::layers::Layers;
use super::parts::{in_column, in_row, is_of_one_cell};
use crate::edges::{Edges, joined};
use crate::rect::Rect;

impl Layers {
    /// The edges of the set's places in the zone, which lies in the picture;
    /// `None` where it has none.
    pub(super) fn edges_in(&self, zone: Rect) -> Option<Edges>
        requires sound { IsLayers self.now }
        requires room { Holds self.now.places zone }
        ensures { HasEdges (in_set self.now) zone result }
    {
        if is_of_one_cell(zone) {
            return self.edges_in_cell(zone);
        }
        let mut found = None;
        for column in zone.x / 64..(zone.x + zone.w).div_ceil(64) {
            let here = self.edges_in_column(in_column(zone, column));
            found = joined(found, here);
        }
        found
    }

    // The edges of those in a zone of one column of cells.
    fn edges_in_column(&self, zone: Rect) -> Option<Edges>
        requires sound { IsLayers self.now }
        requires room { Holds self.now.places zone }
        requires column { zone.x + zone.w ≤ zone.x / 64 * 64 + 64 }
        ensures { HasEdges (in_set self.now) zone result }
    {
        let mut found = None;
        for row in zone.y / 64..(zone.y + zone.h).div_ceil(64) {
            let here = self.edges_in_cell(in_row(zone, row));
            found = joined(found, here);
        }
        found
    }

    // The edges of those in a zone of one cell.
    pub(super) fn edges_in_cell(&self, zone: Rect) -> Option<Edges>
        requires sound { IsLayers self.now }
        requires room { Holds self.now.places zone }
        requires column { zone.x + zone.w ≤ zone.x / 64 * 64 + 64 }
        requires row { zone.y + zone.h ≤ zone.y / 64 * 64 + 64 }
        ensures { HasEdges (in_set self.now) zone result }
    {
        if zone.w == 0 || zone.h == 0 {
            return None;
        }
        if self.full.has(zone.x / 64, zone.y / 64) {
            return Some(Edges::of(zone));
        }
        if self.used.has(zone.x / 64, zone.y / 64) {
            return self.edges_of_marks(zone);
        }
        None
    }

    // The edges of the marked places of a zone of one cell. Rows that are not noted need no look.
    fn edges_of_marks(&self, zone: Rect) -> Option<Edges>
        requires sound { IsLayers self.now }
        requires room { Holds self.now.places zone }
        requires some { (0 < zone.w) × (0 < zone.h) }
        requires column { zone.x + zone.w ≤ zone.x / 64 * 64 + 64 }
        requires row { zone.y + zone.h ≤ zone.y / 64 * 64 + 64 }
        ensures { HasEdges (is_in self.now.places) zone result }
    {
        let rows = self
            .noted
            .bits_between(zone.x / 64, zone.y, zone.y + zone.h);
        if rows == 0 {
            return None;
        }
        let top = usize::from(zone.y) / 64 * 64;
        let first = top + rows.trailing_zeros() as usize;
        let last = top + 63 - rows.leading_zeros() as usize;
        self.places.edges_in(Rect {
            y: first as u16,
            h: (last - first + 1) as u16,
            ..zone
        })
    }
}
