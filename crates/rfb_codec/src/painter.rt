//! The decoder: data of a rectangle, painted into a picture piece by piece, as they come.

ghost use Rattle.std.specs.Prelude.{◌≡◌, ◌<◌, ◌≤◌, [], length, take, true, false, IfOk, IfErr};
ghost use Rattle.rfb_pixel.specs.declared.colour.Colour.{Colour};
ghost use Rattle.rfb_picture.specs.Grid.{Grid, Holds};
ghost use Rattle.rfb_codec.specs.UnderWay.{painting, StandsFor, Paints, CopiesFrom, Waits, Refuses};
ghost use Rattle.rfb_codec.specs.UnderWay.{ShowsWith};
ghost use Rattle.rfb_codec.specs.Stage.{copied_from, encoding_at, is_ended};
ghost use Rattle.rfb_codec.specs.decoder.Step.{stage_of};

pub mod fill;
pub mod gather;
mod joining;
mod pieces;
pub mod rectangle;
pub mod stage;

use crate::fault::{Flaw, PaintFault};
use crate::hextile::NOTHING;
use arrayvec::ArrayVec;
use gather::Pending;
use joining::joins;
use rectangle::Rectangle;
use rfb_picture::{Picture, Rect};
use rfb_pixel::{Colour, Format};
use rfb_wire::Encoding;
use stage::{Place, Stage};
use std::marker::Model;

/// What a call of `feed` did.
#[derive(Clone, Copy, Debug, PartialEq, Eq)]
pub struct Painted {
    /// How many of the bytes, from the first on, were taken. The others are left to the caller.
    pub used: usize,
    /// Whether the rectangle is painted.
    pub done: bool,
}

/// A rectangle of an update whose data come in slices, RFC 6143 section 7.7: where it lies, the
/// format of its pixels, and how far its data have come. The picture is the caller's; each call
/// borrows it.
///
/// Data are pieces: the source of a CopyRect, a pixel of Raw or of a raw tile, RRE's count with its
/// background, a subrectangle of RRE, and a tile that is not raw. A painter shows each at its last
/// byte, keeps the bytes of the piece under way, at most 1,535, and takes no memory.
#[derive(Debug, Drop)]
pub struct Painter {
    rectangle: Rectangle,
    stage: Stage,
    pending: Pending,
}

impl Model for Painter {
    ghost use Rattle.std.specs.Prelude.{◌≡◌, true};
    ghost use Rattle.arrayvec.specs.ArrayVec.{array_vec_len};
    ghost use Rattle.rfb_codec.specs.UnderWay.{UnderWay};
    ghost use Rattle.rfb_codec.specs.Stage.{is_sound};

    ghost Value = { UnderWay };

    ghost view = { λ p.
        record {
          rect = p.rectangle.rect;
          form = p.rectangle.format;
          stage = p.stage;
          pending = p.pending.items;
        } };

    ghost invariant = { λ p.
        is_sound p.rectangle.format p.rectangle.rect p.stage (array_vec_len p.pending) ≡ true };
}

impl Painter {
    /// The painter of a rectangle with this head, in the format that is in force there. It stands
    /// for the picture as it is, and for no data.
    pub fn new(rect: Rect, encoding: Encoding, format: Format) -> Painter
        ensures value { painting result ≡
            record { rect = rect; encoding = encoding; form = format } }
        ensures fresh { result.pending ≡ [] }
        ensures stands { (picture : Grid Colour) → StandsFor result picture picture [] }
    {
        let rectangle = Rectangle::new(format, rect);
        Painter {
            rectangle,
            stage: first_stage(encoding),
            pending: ArrayVec::new(),
        }
    }

    /// Takes bytes of the rectangle's data up to their last one, and paints each piece of them at
    /// its last byte. A rectangle without data is painted at once, by the empty slice too.
    ///
    /// - `SubrectOutside` at the last byte of a subrectangle that leaves the rectangle, or of a
    ///   tile that one leaves.
    /// - `NoBackground`, `BothColourBits` and `NoForeground` at a tile's mask, in that order.
    /// - `SourceOutside` at the last byte of a source that leaves the picture.
    ///
    /// The picture then shows the pieces before that one, and the painter is not fed again.
    pub fn feed(
        &mut self,
        bytes: &[u8],
        picture: &mut Picture<Colour>,
    ) -> Result<Painted, PaintFault>
        requires { Holds picture.old self.old.rect }
        // how much was taken
        ensures used { IfOk result (λ answer. answer.used ≤ length bytes.now) }
        ensures some { IfOk result (λ answer. is_ended self.old.rect self.old.stage ≡ false →
            0 < length bytes.now → 0 < answer.used) }
        ensures all { IfOk result (λ answer. answer.done ≡ false → answer.used ≡ length bytes.now) }
        ensures ended { IfOk result (λ answer.
            answer.done ≡ is_ended self.new.rect self.new.stage) }
        // what it makes of the picture
        ensures done { IfOk result (λ answer. answer.done ≡ true →
            Paints self.old picture.old (take answer.used bytes.now) self.new picture.new) }
        ensures copied { IfOk result (λ answer. answer.done ≡ true →
            CopiesFrom self.old picture.old (take answer.used bytes.now) self.new) }
        ensures more { IfOk result (λ answer. answer.done ≡ false →
            Waits self.old picture.old bytes.now self.new picture.new) }
        ensures fault { IfErr result (Refuses self.old picture.old bytes.now picture.new) }
        // what stays
        ensures rect { self.new.rect ≡ self.old.rect }
        ensures form { self.new.form ≡ self.old.form }
        ensures encoding { encoding_at self.new.stage ≡ encoding_at self.old.stage }
        ensures width { picture.new.width ≡ picture.old.width }
        ensures height { picture.new.height ≡ picture.old.height }
    {
        self.take(bytes, picture).map_err(|flaw| flaw.fault)
    }

    /// As `feed`, and a fault says with which byte it came.
    pub fn take(&mut self, bytes: &[u8], picture: &mut Picture<Colour>) -> Result<Painted, Flaw>
        requires { Holds picture.old self.old.rect }
        // how much was taken
        ensures used { IfOk result (λ answer. answer.used ≤ length bytes.now) }
        ensures some { IfOk result (λ answer. is_ended self.old.rect self.old.stage ≡ false →
            0 < length bytes.now → 0 < answer.used) }
        ensures all { IfOk result (λ answer. answer.done ≡ false → answer.used ≡ length bytes.now) }
        ensures ended { IfOk result (λ answer.
            answer.done ≡ is_ended self.new.rect self.new.stage) }
        // what it makes of the picture
        ensures done { IfOk result (λ answer. answer.done ≡ true →
            Paints self.old picture.old (take answer.used bytes.now) self.new picture.new) }
        ensures copied { IfOk result (λ answer. answer.done ≡ true →
            CopiesFrom self.old picture.old (take answer.used bytes.now) self.new) }
        ensures more { IfOk result (λ answer. answer.done ≡ false →
            Waits self.old picture.old bytes.now self.new picture.new) }
        ensures fault { IfErr result (λ flaw.
            Refuses self.old picture.old bytes.now picture.new flaw.fault) }
        // with which byte a fault comes
        ensures with { IfErr result (λ flaw. ShowsWith self.old picture.old bytes.now flaw) }
        ensures begun { IfErr result (λ flaw. 0 < flaw.used) }
        ensures within { IfErr result (λ flaw. flaw.used ≤ length bytes.now) }
        // what stays
        ensures rect { self.new.rect ≡ self.old.rect }
        ensures form { self.new.form ≡ self.old.form }
        ensures encoding { encoding_at self.new.stage ≡ encoding_at self.old.stage }
        ensures width { picture.new.width ≡ picture.old.width }
        ensures height { picture.new.height ≡ picture.old.height }
    {
        prove!(self.rectangle.lies_in(picture));
        if bytes.len() == 1 && joins(&self.rectangle, self.stage, &self.pending) {
            self.pending.push(bytes[0]);
            return Ok(Painted {
                used: 1,
                done: false,
            });
        }
        self.take_pieces(bytes, picture)
    }

    // The same piece by piece. It is a call, since a byte that only joins those pending needs no
    // room for a step.
    #[inline(never)]
    fn take_pieces(&mut self, bytes: &[u8], picture: &mut Picture<Colour>) -> Result<Painted, Flaw>
        requires { Holds picture.old self.old.rect }
        // how much was taken
        ensures used { IfOk result (λ answer. answer.used ≤ length bytes.now) }
        ensures some { IfOk result (λ answer. is_ended self.old.rect self.old.stage ≡ false →
            0 < length bytes.now → 0 < answer.used) }
        ensures all { IfOk result (λ answer. answer.done ≡ false → answer.used ≡ length bytes.now) }
        ensures ended { IfOk result (λ answer.
            answer.done ≡ is_ended self.new.rect self.new.stage) }
        // what it makes of the picture
        ensures done { IfOk result (λ answer. answer.done ≡ true →
            Paints self.old picture.old (take answer.used bytes.now) self.new picture.new) }
        ensures copied { IfOk result (λ answer. answer.done ≡ true →
            CopiesFrom self.old picture.old (take answer.used bytes.now) self.new) }
        ensures more { IfOk result (λ answer. answer.done ≡ false →
            Waits self.old picture.old bytes.now self.new picture.new) }
        ensures fault { IfErr result (λ flaw.
            Refuses self.old picture.old bytes.now picture.new flaw.fault) }
        // with which byte a fault comes
        ensures with { IfErr result (λ flaw. ShowsWith self.old picture.old bytes.now flaw) }
        ensures begun { IfErr result (λ flaw. 0 < flaw.used) }
        ensures within { IfErr result (λ flaw. flaw.used ≤ length bytes.now) }
        // what stays
        ensures rect { self.new.rect ≡ self.old.rect }
        ensures form { self.new.form ≡ self.old.form }
        ensures encoding { encoding_at self.new.stage ≡ encoding_at self.old.stage }
        ensures width { picture.new.width ≡ picture.old.width }
        ensures height { picture.new.height ≡ picture.old.height }
    {
        prove!(self.rectangle.lies_in(picture));
        let step = pieces::feed(
            &self.rectangle,
            self.stage,
            &mut self.pending,
            bytes,
            picture,
        )?;
        self.stage = step.stage;
        Ok(Painted {
            used: step.used,
            done: pieces::is_ended(self.rectangle.rect, step.stage),
        })
    }

    /// The rectangle that it paints.
    pub fn rect(&self) -> Rect
        ensures { result ≡ self.now.rect }
    {
        self.rectangle.rect
    }

    /// The corner of what a CopyRect, section 7.7.2, was copied from, its column and its row, once
    /// it is painted. Of other encodings there is none.
    pub fn copied_from(&self) -> Option<(u16, u16)>
        ensures { result ≡ copied_from self.now.stage }
    {
        match self.stage {
            Stage::Copied { x, y } => Some((x, y)),
            _ => None,
        }
    }

    /// How many bytes of the piece under way are kept. The mask of a raw tile is not among them.
    pub fn pending(&self) -> usize
        ensures value { result ≡ length self.now.pending }
        ensures few { result < 1536 }
    {
        self.pending.len()
    }
}

// Where the data of each encoding begin.
fn first_stage(encoding: Encoding) -> Stage
    ensures { result ≡ stage_of encoding }
{
    match encoding {
        Encoding::Raw => Stage::InPixels {
            at: Place { x: 0, y: 0 },
        },
        Encoding::CopyRect => Stage::BeforeSource,
        Encoding::Rre => Stage::BeforeHead,
        Encoding::Hextile => Stage::InTiles {
            tile: 0,
            seen: NOTHING,
        },
    }
}

#[cfg(test)]
mod tests;
