//! Copies one after another: what a claim says once its places are copied, or its sources.

ghost use Rattle.std.specs.Prelude.{◌≡◌, ◌≤◌, ◌+◌, ℕ, true, false, Some};
ghost use Rattle.std.specs.Bool.{OnTrue};
ghost use Rattle.std.specs.Option.{ForSome};
ghost use Rattle.rfb_picture.specs.Rect.{contains};
ghost use Rattle.rfb_codec.specs.RectData.{moved_to};
ghost use Rattle.rfb_server.specs.Claims.{IsCopiedOn, IsLedBy, IsLedOn};

use crate::claim::Claim;
use crate::hint::Hint;
use rfb_picture::Rect;

impl Claim {
    /// What it says of a copy's source, said of the copy. There is none where it lacks a column of
    /// the source or half of its rows, or where the viewer has all of it in its place already.
    pub(crate) fn copied_on(&self, copy: Hint) -> Option<Claim>
        ensures { ForSome result (λ next. IsCopiedOn copy self.now next) }
    {
        let right = u32::from(self.to.x) + u32::from(self.to.w);
        if copy.sx < self.to.x || right < u32::from(copy.sx) + u32::from(copy.to.w) {
            return None;
        }
        let first = copy.sy.max(self.to.y);
        let end = end_of(copy.sy, copy.to.h).min(end_of(self.to.y, self.to.h));
        if end <= first || end - first <= copy.to.h / 2 {
            return None;
        }
        let to = Rect {
            y: copy.to.y.checked_add(first - copy.sy)?,
            h: end - first,
            ..copy.to
        };
        let sx = self.sx.checked_add(copy.sx - self.to.x)?;
        let sy = self.sy.checked_add(first - self.to.y)?;
        if sx == to.x && sy == to.y {
            return None;
        }
        let stale = self.stale.moved(copy.sy, copy.to.y);
        Some(Claim { to, sx, sy, stale })
    }

    /// What it says once a hint has copied, so that the viewer has something else there. There is
    /// none where part of the sources is lost, or where they are now its own places.
    pub(crate) fn led_on(&self, hint: Hint) -> Option<Claim>
        ensures { ForSome result (λ next. IsLedOn hint self.now next) }
    {
        let right = u32::from(hint.sx) + u32::from(hint.to.w);
        let within = hint.sx <= self.sx && u32::from(self.sx) + u32::from(self.to.w) <= right;
        let first = self.sy.max(hint.sy);
        let end = end_of(self.sy, self.to.h).min(end_of(hint.sy, hint.to.h));
        if within && first < end {
            return self.led_by(hint, first, end);
        }
        if self.reads_outside(hint.to) {
            Some(*self)
        } else {
            None
        }
    }

    // The same of those rows whose sources lie from a first row up to an end. The hint copies from
    // there, so the sources are where it copies them to.
    fn led_by(&self, hint: Hint, first: u16, end: u16) -> Option<Claim>
        requires order { first ≤ end }
        requires left { hint.sx ≤ self.now.sx }
        requires right { self.now.sx + self.now.to.w ≤ hint.sx + hint.to.w }
        requires own { (self.now.sy ≤ first) × (end ≤ self.now.sy + self.now.to.h) }
        requires hinted { (hint.sy ≤ first) × (end ≤ hint.sy + hint.to.h) }
        ensures { ForSome result (λ next. IsLedBy hint self.now next) }
    {
        let to = Rect {
            y: self.to.y.checked_add(first - self.sy)?,
            h: end - first,
            ..self.to
        };
        let sx = hint.to.x.checked_add(self.sx - hint.sx)?;
        let sy = hint.to.y.checked_add(first - hint.sy)?;
        if sx == to.x && sy == to.y {
            return None;
        }
        Some(Claim {
            to,
            sx,
            sy,
            stale: self.stale,
        })
    }

    // Whether none of its sources lies in a rectangle.
    fn reads_outside(&self, area: Rect) -> bool
        ensures { OnTrue result ((x y : ℕ)
            → contains (moved_to self.now.sx self.now.sy self.now.to) x y ≡ true
            → contains area x y ≡ false) }
    {
        let right = u32::from(self.sx) + u32::from(self.to.w);
        let bottom = u32::from(self.sy) + u32::from(self.to.h);
        u32::from(area.x) + u32::from(area.w) <= u32::from(self.sx)
            || right <= u32::from(area.x)
            || u32::from(area.y) + u32::from(area.h) <= u32::from(self.sy)
            || bottom <= u32::from(area.y)
    }
}

/// What a claim says once a hint has copied, if there is one.
pub(crate) fn led_on(claim: Option<Claim>, hint: Hint) -> Option<Claim>
    ensures { ForSome result (λ next. (was : Claim) × (claim ≡ Some was) × IsLedOn hint was next) }
{
    claim?.led_on(hint)
}

// The row after that many from a first one on, or one before it.
fn end_of(first: u16, rows: u16) -> u16
    ensures { result ≤ first + rows }
{
    first.saturating_add(rows)
}
