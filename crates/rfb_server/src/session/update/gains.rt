//! What the viewer gains if it copies a rectangle.

ghost use Rattle.std.specs.Prelude.{◌≡◌, ◌+◌, ◌*◌, ◌≤◌, ◌<◌};
ghost use Rattle.std.specs.Bool.{OnTrue, OnFalse};
ghost use Rattle.rfb_picture.specs.Grid.{Holds};
ghost use Rattle.rfb_server.specs.Claims.{IsClaimed};
ghost use Rattle.rfb_server.specs.KnownScreen.{Follows};
ghost use Rattle.rfb_server.specs.update.Copies.{IsFree, IsUseful};
ghost use Rattle.rfb_server.specs.Composition.{count_rows, count_in};
ghost use Rattle.rfb_server.specs.update.Gains.{MayCopy, HasMoreRight, IsJudged, line};
ghost use Rattle.rfb_server.specs.update.Gains.{right_before, right_after};

mod claimed;
mod rows;
mod wanted;

use crate::claim::{Claim, Stale};
use crate::hint::Hint;
use crate::session::Session;
use crate::session::update::quiet::{NOWHERE, Quiet};
use rfb_picture::{Picture, Rect};
use rfb_pixel::Colour;

/// Whether the viewer is to copy, and places that have the wanted pixel then.
#[derive(Clone, Copy, Drop)]
pub(super) struct Judged {
    pub gain: bool,
    /// After the copy if it is a gain, else as they are.
    pub right: Quiet,
}

// It is not to copy, and nothing is known of its places.
const USELESS: Judged = Judged {
    gain: false,
    right: NOWHERE,
};

impl Session {
    /// Whether the viewer is to copy: all of the rectangle is asked and none of it whole, all of
    /// the source is known, and more of its places have the wanted pixel after the copy than
    /// before.
    pub(super) fn judge(&self, screen: &Picture<Colour>, hint: Hint, claim: Option<Claim>) -> Judged
        requires about { Follows screen.now self.now }
        requires claimed { IsClaimed screen.now self.now.known self.now.format claim }
        ensures useful { OnTrue result.gain (IsUseful screen.now self.now hint) }
        ensures useless { OnFalse result.gain (IsUseful screen.now self.now hint → ⊥) }
        ensures right { IsJudged screen.now self.now hint result }
    {
        let to = hint.to;
        let from = Rect {
            x: hint.sx,
            y: hint.sy,
            ..to
        };
        if !screen.holds(to) || !screen.holds(from) {
            return USELESS;
        }
        if !self.is_free(to) || !self.known.knows(from) {
            return USELESS;
        }
        match claim {
            Some(claim) if claim.is_of(hint) => self.judge_claimed(screen, hint, &claim),
            _ => self.judge_all(screen, hint, claim),
        }
    }

    // The same of a copy that the session has no claim of, or only one of other sources.
    fn judge_all(&self, screen: &Picture<Colour>, hint: Hint, claim: Option<Claim>) -> Judged
        requires about { Follows screen.now self.now }
        requires claimed { IsClaimed screen.now self.now.known self.now.format claim }
        requires copy { MayCopy self.now.known hint }
        requires free { IsFree self.now hint.to }
        ensures more { OnTrue result.gain (HasMoreRight screen.now self.now hint) }
        ensures no_more { OnFalse result.gain (HasMoreRight screen.now self.now hint → ⊥) }
        ensures right { IsJudged screen.now self.now hint result }
    {
        let top = self.rows_right(screen, hint, claim);
        let gain = self.has_more_right(screen, hint, claim, top);
        if !gain && top < hint.to.h {
            return USELESS;
        }
        // Where all have it after the copy, and no more than before, all have it as they are.
        let right = Quiet {
            area: Rect { h: top, ..hint.to },
            stale: Stale::NONE,
        };
        Judged { gain, right }
    }

    // Whether each place of the rectangle is asked and not whole, and is marked.
    fn is_free(&self, to: Rect) -> bool
        requires { Holds self.now.known to }
        ensures free { OnTrue result (IsFree self.now to) }
        ensures taken { OnFalse result (IsFree self.now to → ⊥) }
    {
        if !self.area.asked().has_all(to) || !self.marks.has_all(to) {
            return false;
        }
        match self.area.whole().bounds_in(to) {
            None => return true,
            Some(_) => {}
        }
        false
    }

    // How many rows of the rectangle, from the first on, have the wanted pixel at each place after
    // the copy. Mostly all have it, and then nothing else has to be counted.
    fn rows_right(&self, screen: &Picture<Colour>, hint: Hint, claim: Option<Claim>) -> u16
        requires about { Follows screen.now self.now }
        requires claimed { IsClaimed screen.now self.now.known self.now.format claim }
        requires copy { MayCopy self.now.known hint }
        ensures within { result ≤ hint.to.h }
        ensures right { count_rows (right_after screen.now self.now hint)
            hint.to.x hint.to.y hint.to.w result ≡ result * hint.to.w }
        ensures other { result < hint.to.h → count_rows (right_after screen.now self.now hint)
            hint.to.x hint.to.y hint.to.w (result + 1) < (result + 1) * hint.to.w }
    {
        for row in 0..hint.to.h {
            let right = self.after_in_row(screen, claim, row_of(hint, row));
            if right < u32::from(hint.to.w) {
                return row;
            }
        }
        hint.to.h
    }

    // Whether more places of the rectangle have the wanted pixel after the copy than before, where
    // its first `top` rows have it at each place after it. Both are counted from row `top` on,
    // until the rows that are left cannot change the answer.
    fn has_more_right(
        &self,
        screen: &Picture<Colour>,
        hint: Hint,
        claim: Option<Claim>,
        top: u16,
    ) -> bool
        requires about { Follows screen.now self.now }
        requires claimed { IsClaimed screen.now self.now.known self.now.format claim }
        requires copy { MayCopy self.now.known hint }
        requires top { top ≤ hint.to.h }
        requires right { count_rows (right_after screen.now self.now hint)
            hint.to.x hint.to.y hint.to.w top ≡ top * hint.to.w }
        ensures more { OnTrue result (HasMoreRight screen.now self.now hint) }
        ensures no_more { OnFalse result (HasMoreRight screen.now self.now hint → ⊥) }
    {
        let to = hint.to;
        let above = places_in(top, to.w);
        let mut after = above;
        let mut before = 0;
        for row in top..to.h {
            let right = self.right_in_row(screen, claim, row_of(hint, row));
            after += right.after;
            before += right.before;
            // `left` places are left, in the rows below.
            let left = places_in(to.h - row - 1, to.w);
            if after > before + above + left {
                return true;
            }
            if before >= after + left {
                return false;
            }
        }
        self.has_more_above(screen, hint, claim, top, after, before)
    }

    // The same where those after the copy are counted, and of those before it the ones from row
    // `top` on.
    fn has_more_above(
        &self,
        screen: &Picture<Colour>,
        hint: Hint,
        claim: Option<Claim>,
        top: u16,
        after: u32,
        below: u32,
    ) -> bool
        requires about { Follows screen.now self.now }
        requires claimed { IsClaimed screen.now self.now.known self.now.format claim }
        requires copy { MayCopy self.now.known hint }
        requires top { top ≤ hint.to.h }
        requires after { after ≡ count_in (right_after screen.now self.now hint) hint.to }
        requires below { below + count_rows (right_before screen.now self.now hint)
            hint.to.x hint.to.y hint.to.w top
            ≡ count_in (right_before screen.now self.now hint) hint.to }
        ensures more { OnTrue result (HasMoreRight screen.now self.now hint) }
        ensures no_more { OnFalse result (HasMoreRight screen.now self.now hint → ⊥) }
    {
        let mut before = below;
        for row in 0..top {
            before += self.before_in_row(screen, claim, row_of(hint, row));
            // `left` places are left, in the rows up to that one.
            let left = places_in(top - row - 1, hint.to.w);
            if after > before + left {
                return true;
            }
            if before >= after {
                return false;
            }
        }
        after > before
    }
}

// How many places so many rows have.
fn places_in(rows: u16, columns: u16) -> u32
    ensures { result ≡ rows * columns }
{
    u32::from(rows) * u32::from(columns)
}

/// The copy of one row of a hint's rectangle.
pub(super) fn row_of(hint: Hint, row: u16) -> Hint
    requires row { row < hint.to.h }
    requires last { (hint.to.y + hint.to.h ≤ 4096) × (hint.sy + hint.to.h ≤ 4096) }
    ensures { result ≡ line hint row }
{
    let to = Rect {
        y: hint.to.y + row,
        h: 1,
        ..hint.to
    };
    Hint {
        to,
        sx: hint.sx,
        sy: hint.sy + row,
    }
}
