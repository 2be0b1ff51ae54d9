//! The wanted pixels of a row, where what is known of the screen has them.

ghost use Rattle.std.specs.Prelude.{◌≡◌, ◌+◌, ◌≤◌, length, map};
ghost use Rattle.std.specs.Option.{ForSome};
ghost use Rattle.rfb_pixel.specs.Format.{pixel_of};
ghost use Rattle.rfb_picture.specs.Grid.{Holds, row_of};
ghost use Rattle.rfb_server.specs.Claims.{IsClaimed};
ghost use Rattle.rfb_server.specs.KnownScreen.{Follows};
ghost use Rattle.rfb_server.specs.Composition.{count_row};
ghost use Rattle.rfb_server.specs.update.Gains.{MayCopy, right_before};

use crate::claim::Claim;
use crate::hint::Hint;
use crate::session::Session;
use crate::session::update::gains::rows::part_of;
use rfb_picture::{Picture, Rect};
use rfb_pixel::Colour;

impl Session {
    /// The wanted pixels of a row, if the claim has the whole of it: what is known of the places
    /// that it names. So nothing has to be packed.
    pub(super) fn wanted_row(
        &self,
        screen: &Picture<Colour>,
        claim: Option<Claim>,
        row: Rect,
    ) -> Option<&[u32]>
        requires about { Follows screen.now self.now }
        requires claimed { IsClaimed screen.now self.now.known self.now.format claim }
        requires held { Holds self.now.known row }
        requires single { row.h ≡ 1 }
        ensures value { ForSome result (λ wanted. wanted.now
            ≡ map (pixel_of self.now.format) (row_of screen.now row.x row.y row.w)) }
        ensures len { ForSome result (λ wanted. length wanted.now ≡ row.w) }
    {
        let (sx, sy) = claim?.source_of(row)?;
        Some(self.known.pixels().row(sx, sy, row.w))
    }

    /// How many places of a row have the wanted pixel as they are, where these pixels are given.
    pub(super) fn before_of(&self, screen: &Picture<Colour>, row: Hint, wanted: &[u32]) -> u32
        requires about { Follows screen.now self.now }
        requires copy { MayCopy self.now.known row }
        requires single { row.to.h ≡ 1 }
        requires wanted { wanted.now ≡ map (pixel_of self.now.format)
            (row_of screen.now row.to.x row.to.y row.to.w) }
        requires len { length wanted.now ≡ row.to.w }
        ensures value { result
            ≡ count_row (right_before screen.now self.now row) row.to.x row.to.y row.to.w }
        ensures few { result ≤ row.to.w }
    {
        let to = row.to;
        if self.known.knows(to) {
            // As many as after a copy that leaves each place as it is.
            let still = Hint {
                to,
                sx: to.x,
                sy: to.y,
            };
            return self.after_by(screen, still, wanted);
        }
        let end = to.x + to.w;
        let mut count = 0;
        let mut x = to.x;
        while x < end {
            let next = end.min(x / 64 * 64 + 64);
            let part = &wanted[usize::from(x - to.x)..usize::from(next - to.x)];
            count += self.before_by(screen, part_of(row, x, next), part);
            x = next;
        }
        count
    }
}
