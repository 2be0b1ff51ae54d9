//! What a record takes over from blocks of pixels.

ghost use Rattle.std.specs.Prelude.{◌≡◌, ◌≤◌, ◌<◌, ◌-◌, ℕ, None, true, false, if◌then◌else◌};
ghost use Rattle.std.specs.Bool.{OnTrue};
ghost use Rattle.rfb_picture.specs.Rect.{contains};
ghost use Rattle.rfb_picture.specs.Grid.{IsGrid, Holds, at_or, copied};
ghost use Rattle.rfb_picture.specs.Area.{added};
ghost use Rattle.rfb_codec.specs.Pixels.{HasPixels, IsSized};
ghost use Rattle.rfb_codec.specs.Codec.{PacksRect};
ghost use Rattle.rfb_codec.specs.RectData.{moved_to};
ghost use Rattle.rfb_codec.specs.Effect.{IsAlike, IsRecorded};
ghost use Rattle.rfb_server.specs.session.Twins.{AreKnownAlike, AreUnknown};

use crate::record::Record;
use rfb_codec::Block;
use rfb_picture::{Area, Picture, Rect};
use rfb_pixel::{Colour, Format, first_diff};

impl Record {
    ghost use Rattle.rfb_server.specs.Record.{AreKnown};

    /// Packs the rectangle of the screen into the block, from which it is to be sent, and records
    /// its pixels.
    #[tactic(auto, using(crate::proofs::RecordLemmas::record_sizes))]
    pub(crate) fn take(
        &mut self,
        screen: &Picture<Colour>,
        format: &Format,
        rect: Rect,
        block: &mut Block,
    )
        requires held { Holds self.old rect }
        requires bound { self.old.height ≤ 4096 }
        requires screen { IsAlike screen.now self.old }
        requires columns { (1 ≤ rect.w) × (rect.w ≤ 64) }
        requires rows { (1 ≤ rect.h) × (rect.h ≤ 64) }
        ensures sized { IsSized rect.w rect.h block.new }
        ensures packed { PacksRect format.now screen.now rect block.new }
        ensures fits { HasPixels format.now block.new }
        ensures whole { IsGrid self.new }
        ensures width { self.new.width ≡ self.old.width }
        ensures height { self.new.height ≡ self.old.height }
        ensures recorded { IsRecorded rect block.new self.old self.new }
    {
        block.pack(format, screen, rect);
        put_block(&mut self.pixels, rect, block);
        learn(&mut self.known, rect);
    }

    /// What `other` knows of the rectangle, of which it knows each place, is known here from
    /// now on.
    #[tactic(auto, using(crate::proofs::RecordLemmas::record_sizes))]
    pub(crate) fn take_from(&mut self, other: &Record, rect: Rect)
        requires held { Holds self.old rect }
        requires bound { self.old.height ≤ 4096 }
        requires columns { other.now.width ≡ self.old.width }
        requires rows { other.now.height ≡ self.old.height }
        requires known { AreKnown other.now rect }
        ensures whole { IsGrid self.new }
        ensures width { self.new.width ≡ self.old.width }
        ensures height { self.new.height ≡ self.old.height }
        ensures each { (x y : ℕ) → x < self.old.width → y < self.old.height →
            at_or self.new x y None ≡ (if contains rect x y then at_or other.now x y None
            else at_or self.old x y None) }
    {
        put_from(&mut self.pixels, &other.pixels, rect);
        learn(&mut self.known, rect);
    }

    /// Whether both know nothing of the rectangle, or the same of each of its places.
    pub(crate) fn has_same(&self, other: &Record, rect: Rect) -> bool
        requires bound { self.now.height ≤ 4096 }
        requires held { Holds self.now rect }
        requires held_too { Holds other.now rect }
        ensures { OnTrue result (AreKnownAlike self.now other.now rect) }
    {
        if self.knows_none(rect) {
            return other.knows_none(rect);
        }
        if !self.knows(rect) || !other.knows(rect) {
            return false;
        }
        are_same(&self.pixels, &other.pixels, rect)
    }

    // Whether no place of the rectangle is known.
    fn knows_none(&self, rect: Rect) -> bool
        requires { Holds self.now rect }
        ensures { OnTrue result (AreUnknown self.now rect) }
    {
        self.known.asked().bounds_in(rect).is_none()
    }

    /// What is known of the rectangle of that size at (`sx`, `sy`), of which each place is known,
    /// is known of `to` from here on: the viewer is sent the copy.
    #[tactic(auto, using(crate::proofs::RecordLemmas::record_sizes))]
    pub(crate) fn copy(&mut self, to: Rect, sx: u16, sy: u16)
        requires target { Holds self.old to }
        requires source { Holds self.old (moved_to sx sy to) }
        requires known { AreKnown self.old (moved_to sx sy to) }
        ensures value { self.new ≡ copied to sx sy self.old }
        ensures width { self.new.width ≡ self.old.width }
        ensures height { self.new.height ≡ self.old.height }
    {
        self.pixels.copy_by_lines(to, sx, sy);
        learn(&mut self.known, to);
    }
}

// The places of the rectangle are known from here on. Mostly they were, and nothing is written.
pub(super) fn learn(known: &mut Area, rect: Rect)
    requires { Holds known.old.asked rect }
    ensures value { known.new ≡ added rect false known.old }
    ensures width { known.new.asked.width ≡ known.old.asked.width }
    ensures height { known.new.asked.height ≡ known.old.asked.height }
{
    // It tells that each place is known or not.
    prove!(rect.w <= known.width());
    if !known.asked().has_all(rect) {
        known.add(rect, false);
    }
}

// Writes the block's pixels over the rectangle.
fn put_block(pixels: &mut Picture<u32>, rect: Rect, block: &Block)
    requires whole { IsGrid pixels.old }
    requires held { Holds pixels.old rect }
    requires bound { pixels.old.height ≤ 4096 }
    requires sized { IsSized rect.w rect.h block.now }
    ensures whole { IsGrid pixels.new }
    ensures width { pixels.new.width ≡ pixels.old.width }
    ensures height { pixels.new.height ≡ pixels.old.height }
    ensures each { (x y : ℕ) → x < pixels.old.width → y < pixels.old.height →
        at_or pixels.new x y 0
        ≡ (if contains rect x y then at_or block.now (x - rect.x) (y - rect.y) 0
        else at_or pixels.old x y 0) }
{
    for line in 0..rect.h {
        pixels.put_row(rect.x, rect.y + line, block.row(line));
    }
}

// Writes the other picture's pixels over the rectangle.
fn put_from(pixels: &mut Picture<u32>, other: &Picture<u32>, rect: Rect)
    requires whole { IsGrid pixels.old }
    requires whole_too { IsGrid other.now }
    requires held { Holds pixels.old rect }
    requires bound { pixels.old.height ≤ 4096 }
    requires columns { other.now.width ≡ pixels.old.width }
    requires rows { other.now.height ≡ pixels.old.height }
    ensures whole { IsGrid pixels.new }
    ensures width { pixels.new.width ≡ pixels.old.width }
    ensures height { pixels.new.height ≡ pixels.old.height }
    ensures each { (x y : ℕ) → x < pixels.old.width → y < pixels.old.height →
        at_or pixels.new x y 0
        ≡ (if contains rect x y then at_or other.now x y 0 else at_or pixels.old x y 0) }
{
    for line in 0..rect.h {
        let y = rect.y + line;
        pixels.put_row(rect.x, y, other.row(rect.x, y, rect.w));
    }
}

// Whether both pictures have the same pixels in the rectangle.
fn are_same(pixels: &Picture<u32>, other: &Picture<u32>, rect: Rect) -> bool
    requires whole { IsGrid pixels.now }
    requires whole_too { IsGrid other.now }
    requires bound { pixels.now.height ≤ 4096 }
    requires held { Holds pixels.now rect }
    requires held_too { Holds other.now rect }
    ensures { OnTrue result ((x y : ℕ) → contains rect x y ≡ true →
        at_or pixels.now x y 0 ≡ at_or other.now x y 0) }
{
    for line in 0..rect.h {
        let y = rect.y + line;
        let row = pixels.row(rect.x, y, rect.w);
        if first_diff(row, other.row(rect.x, y, rect.w)).is_some() {
            return false;
        }
    }
    true
}
