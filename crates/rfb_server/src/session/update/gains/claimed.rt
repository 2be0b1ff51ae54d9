//! What the viewer gains by a copy that the session has a claim of.

ghost use Rattle.std.specs.Prelude.{◌≡◌, ◌+◌, ◌*◌, ◌≤◌, ℕ, not, true};
ghost use Rattle.rfb_picture.specs.Rect.{contains};
ghost use Rattle.std.specs.Bool.{OnTrue, OnFalse};
ghost use Rattle.rfb_server.specs.Claims.{IsTrue, IsAsFar, is_claimed};
ghost use Rattle.rfb_server.specs.update.Needs.{is_quiet};
ghost use Rattle.rfb_server.specs.KnownScreen.{Follows};
ghost use Rattle.rfb_server.specs.update.Copies.{IsFree};
ghost use Rattle.rfb_server.specs.update.Gains.{MayCopy, HasMoreRight, IsJudged};
ghost use Rattle.rfb_server.specs.update.Gains.{right_before, right_after, claims_row};
ghost use Rattle.rfb_server.specs.update.Gains.{sum_where, counts, won_by};

use crate::claim::Claim;
use crate::hint::Hint;
use crate::session::Session;
use crate::session::update::gains::rows::Right;
use crate::session::update::gains::{Judged, row_of};
use crate::session::update::quiet::{NOWHERE, Quiet};
use rfb_picture::{Picture, Rect};
use rfb_pixel::Colour;

impl Session {
    /// Whether more places of the rectangle have the wanted pixel after the copy than before. Each
    /// place of a row that is claimed has it after the copy. So of these only those count that do
    /// not have it yet, and the record alone says which.
    pub(super) fn judge_claimed(
        &self,
        screen: &Picture<Colour>,
        hint: Hint,
        claim: &Claim,
    ) -> Judged
        requires about { Follows screen.now self.now }
        requires copy { MayCopy self.now.known hint }
        requires free { IsFree self.now hint.to }
        requires far { IsAsFar claim.now hint }
        requires claimed { IsTrue screen.now self.now.known self.now.format claim.now }
        ensures more { OnTrue result.gain (HasMoreRight screen.now self.now hint) }
        ensures no_more { OnFalse result.gain (HasMoreRight screen.now self.now hint → ⊥) }
        ensures right { IsJudged screen.now self.now hint result }
    {
        let others = self.right_in_others(screen, hint, claim);
        let lost = others.before.saturating_sub(others.after);
        let won = self.won_in(screen, hint, claim, lost);
        let gain = others.after + won > others.before;
        let right = if gain || won == 0 {
            claimed_part(hint, claim)
        } else {
            NOWHERE
        };
        Judged { gain, right }
    }

    // How many places of the rows that are not claimed have it, as they are and after the copy.
    fn right_in_others(&self, screen: &Picture<Colour>, hint: Hint, claim: &Claim) -> Right
        requires about { Follows screen.now self.now }
        requires copy { MayCopy self.now.known hint }
        ensures before { result.before
            ≡ sum_where (λ row. not (claims_row claim.now hint row))
            (counts (right_before screen.now self.now hint) hint.to) hint.to.h }
        ensures after { result.after
            ≡ sum_where (λ row. not (claims_row claim.now hint row))
            (counts (right_after screen.now self.now hint) hint.to) hint.to.h }
        ensures few { (result.before ≤ hint.to.h * hint.to.w)
            × (result.after ≤ hint.to.h * hint.to.w) }
    {
        let (mut before, mut after) = (0, 0);
        for row in 0..hint.to.h {
            if !claim.has(hint.to.y + row) {
                let right = self.right_in_row(screen, None, row_of(hint, row));
                before += right.before;
                after += right.after;
            }
        }
        Right { before, after }
    }

    // How many places of the rows that are claimed do not have it as they are. It stops where they
    // are more than `most`.
    fn won_in(&self, screen: &Picture<Colour>, hint: Hint, claim: &Claim, most: u32) -> u32
        requires about { Follows screen.now self.now }
        requires copy { MayCopy self.now.known hint }
        requires far { IsAsFar claim.now hint }
        requires claimed { IsTrue screen.now self.now.known self.now.format claim.now }
        ensures few { result ≤ sum_where (claims_row claim.now hint)
            (won_by (right_before screen.now self.now hint) hint.to) hint.to.h }
        ensures all { result ≤ most → result ≡ sum_where (claims_row claim.now hint)
            (won_by (right_before screen.now self.now hint) hint.to) hint.to.h }
        ensures bound { result ≤ hint.to.h * hint.to.w }
    {
        let mut won = 0;
        for row in 0..hint.to.h {
            if claim.has(hint.to.y + row) {
                let right = self.before_in_row(screen, Some(*claim), row_of(hint, row));
                won += u32::from(hint.to.w) - right;
                if won > most {
                    return won;
                }
            }
        }
        won
    }
}

// What of a hint's rectangle is claimed.
fn claimed_part(hint: Hint, claim: &Claim) -> Quiet
    requires hint { hint.to.y + hint.to.h ≤ 4096 }
    requires claim { claim.now.to.y + claim.now.to.h ≤ 4096 }
    requires far { IsAsFar claim.now hint }
    ensures { (x y : ℕ) → is_quiet result x y ≡ true
        → (contains hint.to x y ≡ true) × (is_claimed claim.now y ≡ true) }
{
    let first = hint.to.y.max(claim.to.y);
    let end = (hint.to.y + hint.to.h).min(claim.to.y + claim.to.h);
    Quiet {
        area: Rect {
            y: first,
            h: end.saturating_sub(first),
            ..hint.to
        },
        stale: claim.stale,
    }
}
