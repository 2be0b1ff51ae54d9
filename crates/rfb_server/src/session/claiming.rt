//! What a session claims of its screen, once that is drawn on.

ghost use Rattle.std.specs.Prelude.{◌≡◌};
ghost use Rattle.rfb_pixel.specs.declared.colour.Colour.{Colour};
ghost use Rattle.rfb_picture.specs.Grid.{Grid, Holds, copied};
ghost use Rattle.rfb_server.specs.Claims.{IsClaimed};
ghost use Rattle.rfb_server.specs.KnownScreen.{Follows, IsTold};

use crate::claim::Claim;
use crate::drawing::Notice;
use crate::hint::Hint;
use crate::session::Session;
use rfb_picture::Rect;
use rfb_wire::Encoding;

impl Session {
    /// What it claims of the screen that a drawing leaves, before that is marked. A copy without a
    /// place changes nothing of it, nor does one onto itself.
    pub(super) fn claim_after(&self, notice: &Notice) -> Option<Claim>
        requires held { Holds self.now.known notice.now.area }
        ensures { (before after : Grid Colour) → Follows before self.now
            → IsTold notice.now before after
            → IsClaimed after self.now.known self.now.format result }
    {
        if let Some(copy) = notice.copy {
            if copy.sx == copy.to.x && copy.sy == copy.to.y {
                return self.claim;
            }
            if copy.to.w > 0 && copy.to.h > 0 {
                return self.claim_of(copy);
            }
        }
        match self.claim {
            None => None,
            Some(claim) => Some(claim.hit(notice.area)),
        }
    }

    // That of a copy. What the one before says of its source goes on. Where the viewer takes no
    // copy, it is of no use.
    fn claim_of(&self, copy: Hint) -> Option<Claim>
        ensures { (before after : Grid Colour) → Follows before self.now
            → after ≡ copied copy.to copy.sx copy.sy before
            → IsClaimed after self.now.known self.now.format result }
    {
        if !self.encodings.has(Encoding::CopyRect) {
            return None;
        }
        let source = Rect {
            x: copy.sx,
            y: copy.sy,
            ..copy.to
        };
        let pixels = self.known.pixels();
        if !pixels.holds(copy.to) || !pixels.holds(source) {
            return None;
        }
        if let Some(claim) = self.claim {
            if let Some(next) = claim.copied_on(copy) {
                return Some(next);
            }
        }
        Some(Claim::of_copy(copy, &self.marks))
    }
}
