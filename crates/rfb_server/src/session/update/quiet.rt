//! Places that need no sending, since a copy has left them right.

ghost use Rattle.std.specs.Prelude.{◌≡◌, ◌≤◌, ◌+◌, ◌⊎◌, ℕ, true};
ghost use Rattle.rfb_picture.specs.Grid.{Holds};
ghost use Rattle.rfb_picture.specs.Rect.{contains};
ghost use Rattle.rfb_server.specs.update.Needs.{HasBox, IsQuiet, is_quiet, IsPartOf, needs_of};
ghost use Rattle.rfb_server.specs.KnownScreen.{Follows};

use crate::claim::Stale;
use crate::session::Session;
use rfb_picture::{Picture, Rect};
use rfb_pixel::Colour;

/// The places of a rectangle of the screen whose rows are not stale.
#[derive(Clone, Copy, Drop)]
pub(crate) struct Quiet {
    pub area: Rect,
    pub stale: Stale,
}

/// No place.
pub(crate) const NOWHERE: Quiet = Quiet {
    area: Rect {
        x: 0,
        y: 0,
        w: 0,
        h: 0,
    },
    stale: Stale::NONE,
};

impl Session {
    /// The least rectangle that holds the places of the cell that need sending. Those of `quiet` do
    /// not, so rows of them at the cell's edges are not looked at.
    pub(super) fn needed_outside(
        &self,
        screen: &Picture<Colour>,
        cell: Rect,
        quiet: &Quiet,
    ) -> Option<Rect>
        requires about { Follows screen.now self.now }
        requires quiet { IsQuiet screen.now self.now quiet.now }
        requires held { Holds self.now.known cell }
        ensures { HasBox (needs_of screen.now self.now) cell result }
    {
        let zone = outside(cell, quiet);
        if zone.h == 0 {
            return None;
        }
        self.needed_marked(screen, zone, quiet)
    }

    // The least rectangle of the zone's places that need sending. It costs by those that are marked
    // and not quiet.
    fn needed_marked(&self, screen: &Picture<Colour>, zone: Rect, quiet: &Quiet) -> Option<Rect>
        requires about { Follows screen.now self.now }
        requires quiet { IsQuiet screen.now self.now quiet.now }
        requires held { Holds self.now.known zone }
        ensures { HasBox (needs_of screen.now self.now) zone result }
    {
        match self.marks.bounds_in(zone) {
            None => None,
            Some(left) => self.needed_left(screen, left, quiet),
        }
    }

    // The same of what is marked there. All of that may be quiet, where the cell is not: a copy
    // that ends within it marks no more than its own places.
    fn needed_left(&self, screen: &Picture<Colour>, left: Rect, quiet: &Quiet) -> Option<Rect>
        requires held { Holds self.now.known left }
        requires quiet { IsQuiet screen.now self.now quiet.now }
        requires about { Follows screen.now self.now }
        ensures { HasBox (needs_of screen.now self.now) left result }
    {
        let rows = outside(left, quiet);
        if rows.h == 0 {
            return None;
        }
        self.needed_in_zone(screen, rows)
    }
}

/// The rows of the cell from the first to the last one that has other places.
pub(crate) fn outside(cell: Rect, quiet: &Quiet) -> Rect
    requires cell { (cell.x + cell.w ≤ 4096) × (cell.y + cell.h ≤ 4096) }
    ensures part { IsPartOf cell result }
    ensures others { (x y : ℕ) → contains cell x y ≡ true
        → (contains result x y ≡ true) ⊎ (is_quiet quiet.now x y ≡ true) }
{
    let area = quiet.area;
    let end = cell.y + cell.h;
    let is_beside = cell.x < area.x || cell.x + cell.w - area.x > area.w;
    if is_beside || area.y >= end {
        return cell;
    }
    let inner = area.h.min(end - area.y) + area.y;
    let mut first = cell.y;
    if area.y <= first && first < inner {
        first = quiet.stale.first_from(first, inner);
    }
    let mut last = end;
    if inner == end {
        last = quiet.stale.end_from(first.max(area.y), end);
    }
    Rect {
        y: first,
        h: last - first,
        ..cell
    }
}
