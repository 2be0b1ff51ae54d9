//! What a session remembers of a copy on its screen: where its viewer has that already.

ghost use Rattle.std.specs.Prelude.{◌≡◌, ◌≤◌, ◌+◌, ◌-◌, ℕ, true, false};
ghost use Rattle.std.specs.Bool.{OnTrue};
ghost use Rattle.std.specs.Option.{ForSome};
ghost use Rattle.rfb_codec.specs.RectData.{moved_to};
ghost use Rattle.rfb_server.specs.Claims.{is_stale, is_claimed, IsOfCopy, IsAsFar, IsSourceOf};
ghost use Rattle.rfb_picture.specs.Box.{is_in};
ghost use Rattle.rfb_picture.specs.Grid.{Holds};
ghost use Rattle.rfb_picture.specs.Rect.{contains};

mod chain;
mod stale;

use crate::hint::Hint;
pub(crate) use chain::led_on;
use rfb_picture::{PlaceSet, Rect};
pub(crate) use stale::{Rows, Stale};

/// How many rows of a copy's source are looked at together: as many as a cell of the marks has.
const BAND: u16 = 64;

/// Each place of `to` whose row is not stale shows what the viewer has at its place of the
/// rectangle at (`sx`, `sy`). So a copy from there leaves it right. Both rectangles lie on the
/// screen.
#[derive(Clone, Copy, Debug, Drop)]
pub(crate) struct Claim {
    pub(crate) to: Rect,
    pub(crate) sx: u16,
    pub(crate) sy: u16,
    pub(crate) stale: Stale,
}

impl Claim {
    /// That of a copy which is drawn: the viewer has what lies in rows of the source that have no
    /// mark. The other rows are stale, and so may be rows between these.
    pub(crate) fn of_copy(copy: Hint, marks: &PlaceSet) -> Claim
        requires target { Holds marks.now copy.to }
        requires source { Holds marks.now (moved_to copy.sx copy.sy copy.to) }
        requires sides { (marks.now.width ≤ 4096) × (marks.now.height ≤ 4096) }
        ensures copy { IsOfCopy copy result }
        ensures unmarked { (x y : ℕ) → contains copy.to x y ≡ true
            → is_stale result.stale y ≡ false
            → is_in marks.now (copy.sx + (x - copy.to.x)) (copy.sy + (y - copy.to.y)) ≡ false }
    {
        let mut stale = Stale::NONE;
        let mut row = 0;
        while row < copy.to.h {
            let h = BAND.min(copy.to.h - row);
            let band = Rect::new(copy.sx, copy.sy + row, copy.to.w, h);
            if let Some(marked) = marks.bounds_in(band) {
                let first = copy.to.y + (marked.y - copy.sy);
                let end = first + marked.h;
                stale.add(Rows { first, end });
            }
            row += h;
        }
        Claim {
            to: copy.to,
            sx: copy.sx,
            sy: copy.sy,
            stale,
        }
    }

    /// The rectangle is drawn on: its rows are stale from here on, where it meets the claim.
    pub(crate) fn hit(self, area: Rect) -> Claim
        requires area { (area.x + area.w ≤ 4096) × (area.y + area.h ≤ 4096) }
        ensures to { (result.to ≡ self.to) × (result.sx ≡ self.sx) × (result.sy ≡ self.sy) }
        ensures outside { (x y : ℕ) → contains self.to x y ≡ true
            → is_stale result.stale y ≡ false
            → (is_stale self.stale y ≡ false) × (contains area x y ≡ false) }
    {
        let to = self.to;
        let right = u32::from(to.x) + u32::from(to.w);
        let bottom = u32::from(to.y) + u32::from(to.h);
        let beside = area.w == 0 || area.x + area.w <= to.x || right <= u32::from(area.x);
        let apart = area.y + area.h <= to.y || bottom <= u32::from(area.y);
        if beside || apart {
            return self;
        }
        let mut stale = self.stale;
        stale.add(Rows {
            first: area.y,
            end: area.y + area.h,
        });
        Claim { stale, ..self }
    }

    /// Whether it says that a row's places show what the viewer has.
    pub(crate) fn has(&self, y: u16) -> bool
        ensures { result ≡ is_claimed self.now y }
    {
        self.to.y <= y && y - self.to.y < self.to.h && !self.stale.has(y)
    }

    /// Where the viewer has what a row shows, if it says so of each place of it.
    pub(crate) fn source_of(&self, row: Rect) -> Option<(u16, u16)>
        ensures { ForSome result (λ from. IsSourceOf self.now row from) }
    {
        let right = u32::from(self.to.x) + u32::from(self.to.w);
        let end = u32::from(row.x) + u32::from(row.w);
        if row.x < self.to.x || right < end || !self.has(row.y) {
            return None;
        }
        let sx = self.sx.checked_add(row.x - self.to.x)?;
        let sy = self.sy.checked_add(row.y - self.to.y)?;
        Some((sx, sy))
    }

    /// Whether it is of a hint's columns, with its sources as far away.
    pub(crate) fn is_of(&self, hint: Hint) -> bool
        ensures { OnTrue result (IsAsFar self.now hint) }
    {
        let far = u32::from(self.sy) + u32::from(hint.to.y);
        let hinted = u32::from(hint.sy) + u32::from(self.to.y);
        self.to.x == hint.to.x && self.to.w == hint.to.w && self.sx == hint.sx && far == hinted
    }
}
