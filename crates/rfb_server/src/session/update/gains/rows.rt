//! How many places of a row have the wanted pixel, before a copy and after it.

ghost use Rattle.std.specs.Prelude.{◌≡◌, ◌+◌, ◌-◌, ◌*◌, ◌/◌, ◌≤◌, ◌<◌, length, map};
ghost use Rattle.rfb_pixel.specs.Format.{pixel_of};
ghost use Rattle.rfb_picture.specs.Grid.{Holds, row_of};
ghost use Rattle.rfb_server.specs.Claims.{IsClaimed};
ghost use Rattle.rfb_server.specs.KnownScreen.{Follows};
ghost use Rattle.rfb_server.specs.Composition.{count_row};
ghost use Rattle.rfb_server.specs.update.Gains.{MayCopy, part, right_before, right_after};

use crate::claim::Claim;
use crate::hint::Hint;
use crate::session::Session;
use rfb_picture::{Picture, Rect};
use rfb_pixel::{Colour, count_equal, differing, first_diff};

/// How many places have the wanted pixel: as they are, and after a copy.
#[derive(Clone, Copy, Drop)]
pub(super) struct Right {
    pub before: u32,
    pub after: u32,
}

impl Session {
    /// How many places of one row have it after the copy, in parts of 64 places if it is packed.
    pub(super) fn after_in_row(
        &self,
        screen: &Picture<Colour>,
        claim: Option<Claim>,
        row: Hint,
    ) -> u32
        requires about { Follows screen.now self.now }
        requires claimed { IsClaimed screen.now self.now.known self.now.format claim }
        requires copy { MayCopy self.now.known row }
        requires single { row.to.h ≡ 1 }
        ensures value { result
            ≡ count_row (right_after screen.now self.now row) row.to.x row.to.y row.to.w }
        ensures few { result ≤ row.to.w }
    {
        if let Some(wanted) = self.wanted_row(screen, claim, row.to) {
            return self.after_by(screen, row, wanted);
        }
        let end = row.to.x + row.to.w;
        let mut count = 0;
        let mut x = row.to.x;
        while x < end {
            let next = end.min(x + 64);
            count += self.after_in_part(screen, part_of(row, x, next));
            x = next;
        }
        count
    }

    // The same of at most 64 places of a row.
    fn after_in_part(&self, screen: &Picture<Colour>, part: Hint) -> u32
        requires about { Follows screen.now self.now }
        requires copy { MayCopy self.now.known part }
        requires single { part.to.h ≡ 1 }
        requires few { part.to.w ≤ 64 }
        ensures value { result
            ≡ count_row (right_after screen.now self.now part) part.to.x part.to.y part.to.w }
        ensures few { result ≤ part.to.w }
    {
        let mut row = [0; 64];
        let wanted = &mut row[..usize::from(part.to.w)];
        self.pack_part(screen, part.to, wanted);
        self.after_by(screen, part, wanted)
    }

    // The wanted pixels of places of a row.
    fn pack_part(&self, screen: &Picture<Colour>, part: Rect, wanted: &mut [u32])
        requires about { Follows screen.now self.now }
        requires held { Holds self.now.known part }
        requires single { part.h ≡ 1 }
        requires len { length wanted.old ≡ part.w }
        ensures value { wanted.new ≡ map (pixel_of self.now.format)
            (row_of screen.now part.x part.y part.w) }
        ensures len { length wanted.new ≡ part.w }
    {
        self.format
            .pack_row(screen.row(part.x, part.y, part.w), wanted);
    }

    // The same where the wanted pixels are given. All of the source is known.
    pub(super) fn after_by(&self, screen: &Picture<Colour>, part: Hint, wanted: &[u32]) -> u32
        requires about { Follows screen.now self.now }
        requires copy { MayCopy self.now.known part }
        requires single { part.to.h ≡ 1 }
        requires wanted { wanted.now ≡ map (pixel_of self.now.format)
            (row_of screen.now part.to.x part.to.y part.to.w) }
        requires len { length wanted.now ≡ part.to.w }
        ensures value { result
            ≡ count_row (right_after screen.now self.now part) part.to.x part.to.y part.to.w }
        ensures few { result ≤ part.to.w }
    {
        let to = part.to;
        let source = self.known.pixels().row(part.sx, part.sy, to.w);
        // Mostly all are the same, as one compare shows.
        if first_diff(wanted, source).is_none() {
            return u32::from(to.w);
        }
        count_equal(wanted, source) as u32
    }

    /// How many places of one row have it as they are, in parts of one cell each if it is packed.
    pub(super) fn before_in_row(
        &self,
        screen: &Picture<Colour>,
        claim: Option<Claim>,
        row: Hint,
    ) -> u32
        requires about { Follows screen.now self.now }
        requires claimed { IsClaimed screen.now self.now.known self.now.format claim }
        requires copy { MayCopy self.now.known row }
        requires single { row.to.h ≡ 1 }
        ensures value { result
            ≡ count_row (right_before screen.now self.now row) row.to.x row.to.y row.to.w }
        ensures few { result ≤ row.to.w }
    {
        if let Some(wanted) = self.wanted_row(screen, claim, row.to) {
            return self.before_of(screen, row, wanted);
        }
        let end = row.to.x + row.to.w;
        let mut count = 0;
        let mut x = row.to.x;
        while x < end {
            let next = end.min(x / 64 * 64 + 64);
            count += self.before_in_part(screen, part_of(row, x, next));
            x = next;
        }
        count
    }

    // The same of places of one cell.
    fn before_in_part(&self, screen: &Picture<Colour>, part: Hint) -> u32
        requires about { Follows screen.now self.now }
        requires copy { MayCopy self.now.known part }
        requires single { part.to.h ≡ 1 }
        requires some { 0 < part.to.w }
        requires cell { part.to.x + part.to.w ≤ part.to.x / 64 * 64 + 64 }
        ensures value { result
            ≡ count_row (right_before screen.now self.now part) part.to.x part.to.y part.to.w }
        ensures few { result ≤ part.to.w }
    {
        let mut row = [0; 64];
        let wanted = &mut row[..usize::from(part.to.w)];
        self.pack_part(screen, part.to, wanted);
        self.before_by(screen, part, wanted)
    }

    // The same where the wanted pixels are given: those that are known, and have them.
    pub(super) fn before_by(&self, screen: &Picture<Colour>, part: Hint, wanted: &[u32]) -> u32
        requires about { Follows screen.now self.now }
        requires copy { MayCopy self.now.known part }
        requires single { part.to.h ≡ 1 }
        requires some { 0 < part.to.w }
        requires cell { part.to.x + part.to.w ≤ part.to.x / 64 * 64 + 64 }
        requires wanted { wanted.now ≡ map (pixel_of self.now.format)
            (row_of screen.now part.to.x part.to.y part.to.w) }
        requires len { length wanted.now ≡ part.to.w }
        ensures value { result
            ≡ count_row (right_before screen.now self.now part) part.to.x part.to.y part.to.w }
        ensures few { result ≤ part.to.w }
    {
        let to = part.to;
        let pixels = self.known.pixels();
        let known = self.known.known().asked();
        let other = differing(wanted, pixels.row(to.x, to.y, to.w)) << (to.x % 64);
        let right = known.row_bits_between(to.y, to.x, to.x + to.w) & !other;
        right.count_ones()
    }

    /// Both counts of one row, for which it is packed once at most.
    pub(super) fn right_in_row(
        &self,
        screen: &Picture<Colour>,
        claim: Option<Claim>,
        row: Hint,
    ) -> Right
        requires about { Follows screen.now self.now }
        requires claimed { IsClaimed screen.now self.now.known self.now.format claim }
        requires copy { MayCopy self.now.known row }
        requires single { row.to.h ≡ 1 }
        ensures before { result.before
            ≡ count_row (right_before screen.now self.now row) row.to.x row.to.y row.to.w }
        ensures after { result.after
            ≡ count_row (right_after screen.now self.now row) row.to.x row.to.y row.to.w }
        ensures few { (result.before ≤ row.to.w) × (result.after ≤ row.to.w) }
    {
        if let Some(wanted) = self.wanted_row(screen, claim, row.to) {
            return Right {
                before: self.before_of(screen, row, wanted),
                after: self.after_by(screen, row, wanted),
            };
        }
        let end = row.to.x + row.to.w;
        let (mut before, mut after) = (0, 0);
        let mut x = row.to.x;
        while x < end {
            let next = end.min(x / 64 * 64 + 64);
            let right = self.right_in_part(screen, part_of(row, x, next));
            before += right.before;
            after += right.after;
            x = next;
        }
        Right { before, after }
    }

    // The same of places of one cell.
    fn right_in_part(&self, screen: &Picture<Colour>, part: Hint) -> Right
        requires about { Follows screen.now self.now }
        requires copy { MayCopy self.now.known part }
        requires single { part.to.h ≡ 1 }
        requires some { 0 < part.to.w }
        requires cell { part.to.x + part.to.w ≤ part.to.x / 64 * 64 + 64 }
        ensures before { result.before
            ≡ count_row (right_before screen.now self.now part) part.to.x part.to.y part.to.w }
        ensures after { result.after
            ≡ count_row (right_after screen.now self.now part) part.to.x part.to.y part.to.w }
        ensures few { (result.before ≤ part.to.w) × (result.after ≤ part.to.w) }
    {
        let mut row = [0; 64];
        let wanted = &mut row[..usize::from(part.to.w)];
        self.pack_part(screen, part.to, wanted);
        Right {
            before: self.before_by(screen, part, wanted),
            after: self.after_by(screen, part, wanted),
        }
    }
}

/// The copy of the columns of a row from one up to another.
pub(super) fn part_of(row: Hint, from: u16, to: u16) -> Hint
    requires from { row.to.x ≤ from }
    requires order { from ≤ to }
    requires last { row.sx + (from - row.to.x) ≤ 4096 }
    ensures { result ≡ part row from to }
{
    let sx = row.sx + (from - row.to.x);
    let to = Rect {
        x: from,
        w: to - from,
        ..row.to
    };
    Hint { to, sx, ..row }
}
