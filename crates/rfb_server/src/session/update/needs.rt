//! Where a screen needs sending.

ghost use Rattle.std.specs.Prelude.{◌≡◌, ◌+◌, ◌*◌, ◌/◌, ◌%◌, ◌<◌, ◌≤◌, None, true, length};
ghost use Rattle.std.specs.Bool.{OnTrue, OnFalse};
ghost use Rattle.rfb_picture.specs.Grid.{Holds};
ghost use Rattle.rfb_picture.specs.Box.{IsBox};
ghost use Rattle.rfb_picture.specs.Places.{HasBitsBetween, HasRowBits};
ghost use Rattle.rfb_server.specs.Request.{wanted_at};
ghost use Rattle.rfb_server.specs.update.Needs.{IsFirst, IsEnd, HasBox};
ghost use Rattle.rfb_server.specs.KnownScreen.{Follows};
ghost use Rattle.rfb_server.specs.update.Needs.{HasInRow, IsLastOf, SpansRows, TellsOther};
ghost use Rattle.rfb_server.specs.update.Needs.{needs_of, rows_above};
ghost use Rattle.rfb_server.specs.Composition.{IsDue};
ghost use Rattle.rfb_server.specs.update.Sends.{state_of};

use crate::cells::cell_at;
use crate::session::Session;
use rfb_picture::{Picture, Rect};
use rfb_pixel::{Colour, differing, first_diff};

// How many places are looked at together, from a column that is a multiple of it on: as many as are
// compared at once, so that few are packed or compared one by one.
const LANES: u16 = 16;

// The columns from a first one up to an end.
#[derive(Clone, Copy, Drop)]
struct Columns {
    first: u16,
    end: u16,
}

impl Session {
    /// Whether a place needs sending. It takes a look at each cell.
    pub(super) fn is_due(&self, screen: &Picture<Colour>) -> bool
        requires about { Follows screen.now self.now }
        ensures due { OnTrue result (IsDue (state_of screen.now self.now)) }
        ensures none { OnFalse result (IsDue (state_of screen.now self.now) → ⊥) }
    {
        let width = self.known.width();
        let height = self.known.height();
        let mut next = 0;
        while let Some(index) = self.next_cell(next) {
            if self
                .needed_in(screen, cell_at(width, height, index))
                .is_some()
            {
                return true;
            }
            next = index + 1;
        }
        false
    }

    /// The least rectangle that holds the places of the cell that need sending; `None` where it has
    /// none. It costs by the places that are marked.
    pub(crate) fn needed_in(&self, screen: &Picture<Colour>, cell: Rect) -> Option<Rect>
        requires about { Follows screen.now self.now }
        requires held { Holds self.now.known cell }
        ensures { HasBox (needs_of screen.now self.now) cell result }
    {
        match self.marks.bounds_in(cell) {
            None => None,
            Some(zone) => self.needed_in_zone(screen, zone),
        }
    }

    /// The same of a zone, which is one place, or is gone through from its first row with such a
    /// place on.
    pub(super) fn needed_in_zone(&self, screen: &Picture<Colour>, zone: Rect) -> Option<Rect>
        requires about { Follows screen.now self.now }
        requires held { Holds self.now.known zone }
        ensures { HasBox (needs_of screen.now self.now) zone result }
    {
        if zone.w == 1 && zone.h == 1 {
            if self.needs(screen, zone.x, zone.y) {
                return Some(zone);
            }
            return None;
        }
        let end = zone.x + zone.w;
        for y in zone.y..zone.y + zone.h {
            let first = self.first_needed(screen, y, zone.x, end);
            if first < end {
                return Some(self.needed_from(screen, zone, y, first));
            }
        }
        None
    }

    // The same where row `top` is the first with such a place, and `first` is the column of its
    // first one.
    fn needed_from(&self, screen: &Picture<Colour>, zone: Rect, top: u16, first: u16) -> Rect
        requires about { Follows screen.now self.now }
        requires held { Holds self.now.known zone }
        requires row { (zone.y ≤ top) × (top < zone.y + zone.h) }
        requires above { HasBox (needs_of screen.now self.now) (rows_above zone top) None }
        requires some { first < zone.x + zone.w }
        requires first { IsFirst (needs_of screen.now self.now) top zone.x (zone.x + zone.w) first }
        ensures { IsBox (needs_of screen.now self.now) zone result }
    {
        let bottom = self.last_row(screen, zone, top);
        let end = self.needed_end(screen, top, first + 1, zone.x + zone.w);
        let columns = self.widened(screen, zone, top, bottom, Columns { first, end });
        Rect {
            x: columns.first,
            y: top,
            w: columns.end - columns.first,
            h: bottom + 1 - top,
        }
    }

    // The last row of the zone that has a place that needs sending, as row `top` has.
    fn last_row(&self, screen: &Picture<Colour>, zone: Rect, top: u16) -> u16
        requires about { Follows screen.now self.now }
        requires held { Holds self.now.known zone }
        requires row { (zone.y ≤ top) × (top < zone.y + zone.h) }
        requires some { HasInRow (needs_of screen.now self.now) zone top }
        ensures { IsLastOf (needs_of screen.now self.now) zone top result }
    {
        let end = zone.x + zone.w;
        let mut last = zone.y + zone.h - 1;
        while last > top && self.first_needed(screen, last, zone.x, end) == end {
            last -= 1;
        }
        last
    }

    // The columns from the first to the last place that needs sending in the rows from `top` to
    // `bottom`, where those of row `top` are given. It begins at the bottom, and looks only at what
    // lies outside the columns so far.
    fn widened(
        &self,
        screen: &Picture<Colour>,
        zone: Rect,
        top: u16,
        bottom: u16,
        given: Columns,
    ) -> Columns
        requires about { Follows screen.now self.now }
        requires held { Holds self.now.known zone }
        requires rows { (zone.y ≤ top) × (top ≤ bottom) × (bottom < zone.y + zone.h) }
        requires given { SpansRows (needs_of screen.now self.now) zone top top given }
        ensures { SpansRows (needs_of screen.now self.now) zone top bottom result }
    {
        let end = zone.x + zone.w;
        let mut columns = given;
        let mut y = bottom;
        while y > top && (columns.first > zone.x || columns.end < end) {
            columns = self.wider(screen, zone, y, columns);
            y -= 1;
        }
        columns
    }

    // The given columns and those from the first to the last place of row `y` that needs sending.
    fn wider(&self, screen: &Picture<Colour>, zone: Rect, y: u16, given: Columns) -> Columns
        requires about { Follows screen.now self.now }
        requires held { Holds self.now.known zone }
        requires row { y < self.now.known.height }
        requires given { (zone.x ≤ given.first) × (given.first < given.end)
            × (given.end ≤ zone.x + zone.w) }
        ensures first { IsFirst (needs_of screen.now self.now) y zone.x given.first result.first }
        ensures end { IsEnd (needs_of screen.now self.now) y given.end (zone.x + zone.w)
            result.end }
    {
        let end = zone.x + zone.w;
        let left = zone.x / 64 * 64;
        // Where both sides are to be looked at, and are of one cell, one look does for both.
        if given.first > zone.x && given.end < end && end - left <= 64 {
            let due = self.needed_between(screen, y, zone.x, end);
            if due == 0 {
                return given;
            }
            return Columns {
                first: given.first.min(left + due.trailing_zeros() as u16),
                end: given.end.max(left + 64 - due.leading_zeros() as u16),
            };
        }
        Columns {
            first: self.first_needed(screen, y, zone.x, given.first),
            end: self.needed_end(screen, y, given.end, end),
        }
    }

    // The first column from `from` on, up to `to`, whose place in row `y` needs sending; `to` where
    // there is none.
    fn first_needed(&self, screen: &Picture<Colour>, y: u16, from: u16, to: u16) -> u16
        requires about { Follows screen.now self.now }
        requires row { y < self.now.known.height }
        requires columns { (from ≤ to) × (to ≤ self.now.known.width) }
        ensures { IsFirst (needs_of screen.now self.now) y from to result }
    {
        let mut at = from;
        while at < to {
            let end = to.min(at / 64 * 64 + 64);
            let due = self.needed_between(screen, y, at, end);
            if due != 0 {
                return at / 64 * 64 + due.trailing_zeros() as u16;
            }
            at = end;
        }
        to
    }

    // The column after the last one from `from` on, up to `to`, whose place in row `y` needs
    // sending; `from` where there is none.
    fn needed_end(&self, screen: &Picture<Colour>, y: u16, from: u16, to: u16) -> u16
        requires about { Follows screen.now self.now }
        requires row { y < self.now.known.height }
        requires columns { (from ≤ to) × (to ≤ self.now.known.width) }
        ensures { IsEnd (needs_of screen.now self.now) y from to result }
    {
        let mut end = to;
        while end > from {
            let start = from.max((end - 1) / 64 * 64);
            let due = self.needed_between(screen, y, start, end);
            if due != 0 {
                return start / 64 * 64 + 64 - due.leading_zeros() as u16;
            }
            end = start;
        }
        from
    }

    // Which places of row `y` from column `from` up to column `to`, all of one cell, need sending.
    // A place that is known, and not to be sent whole, is looked at.
    fn needed_between(&self, screen: &Picture<Colour>, y: u16, from: u16, to: u16) -> u64
        requires about { Follows screen.now self.now }
        requires row { y < self.now.known.height }
        requires columns { (from < to) × (to ≤ self.now.known.width) }
        requires cell { to ≤ from / 64 * 64 + 64 }
        ensures { HasBitsBetween (needs_of screen.now self.now) y from to result }
    {
        let left = from / 64 * 64;
        let asked = self.marks.row_bits_between(y, from, to) & self.area.asked().row_bits(left, y);
        let known = self.known.known().asked().row_bits(left, y);
        let judged = asked & known & !self.whole_bits(left, y);
        if judged == 0 {
            return asked;
        }
        let first = (left + judged.trailing_zeros() as u16) / LANES * LANES;
        let last = left + 63 - judged.leading_zeros() as u16;
        let end = self.known.width().min(last / LANES * LANES + LANES);
        asked & !judged | judged & self.differing_between(screen, y, first, end)
    }

    // Which of 64 places of row `y`, from a cell's left edge on, are to be sent whole. Mostly none
    // is, which is known without a look.
    #[inline]
    fn whole_bits(&self, x: u16, y: u16) -> u64
        requires start { x % 64 ≡ 0 }
        requires column { x < self.now.area.whole.width }
        requires row { y < self.now.area.whole.height }
        requires wide { self.now.area.whole.width ≡ self.now.area.asked.width }
        requires high { self.now.area.whole.height ≡ self.now.area.asked.height }
        ensures { HasRowBits self.now.area.whole x y result }
    {
        if self.area.is_plain() {
            return 0;
        }
        self.area.whole().row_bits(x, y)
    }

    // Which places of row `y` from column `from` up to column `to`, all of one cell, are known to
    // have another pixel than the wanted one. It says nothing of a place that is not known.
    fn differing_between(&self, screen: &Picture<Colour>, y: u16, from: u16, to: u16) -> u64
        requires about { Follows screen.now self.now }
        requires row { y < self.now.known.height }
        requires columns { (from < to) × (to ≤ self.now.known.width) }
        requires cell { to ≤ from / 64 * 64 + 64 }
        ensures { TellsOther (wanted_at screen.now self.now.format) self.now.known y from to
            result }
    {
        // To clear the room of a whole row costs as much as a look at a few places.
        if to - from <= LANES {
            return self.differing_with(screen, y, from, to, &mut [0; 16]);
        }
        if to - from <= 2 * LANES {
            return self.differing_with(screen, y, from, to, &mut [0; 32]);
        }
        self.differing_with(screen, y, from, to, &mut [0; 64])
    }

    // The same, with room for the pixels that are wanted.
    fn differing_with(
        &self,
        screen: &Picture<Colour>,
        y: u16,
        from: u16,
        to: u16,
        room: &mut [u32],
    ) -> u64
        requires about { Follows screen.now self.now }
        requires row { y < self.now.known.height }
        requires columns { (from < to) × (to ≤ self.now.known.width) }
        requires cell { to ≤ from / 64 * 64 + 64 }
        requires room { to ≤ from + length room.old }
        ensures { TellsOther (wanted_at screen.now self.now.format) self.now.known y from to
            result }
    {
        let wanted = &mut room[..usize::from(to - from)];
        self.format.pack_row(screen.row(from, y, to - from), wanted);
        let known = self.known.pixels().row(from, y, to - from);
        // Mostly none of many is another, as one compare shows.
        if to - from > LANES && first_diff(known, wanted).is_none() {
            return 0;
        }
        differing(known, wanted) << (from % 64)
    }
}
