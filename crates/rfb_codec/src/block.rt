//! A block of pixels to be encoded.

ghost use Rattle.std.specs.Prelude.{◌≡◌, ℕ, ◌+◌, ◌*◌, ◌<◌, ◌≤◌, [], ◌∷◌, take, length};
ghost use Rattle.arrayvec.specs.ArrayVec.{array_vec_len};
ghost use Rattle.rfb_pixel.specs.Format.{ArePixels};
ghost use Rattle.rfb_picture.specs.Grid.{Holds};
ghost use Rattle.rfb_codec.specs.Pixels.{HasPixels, IsSized};
ghost use Rattle.rfb_codec.specs.Codec.{PacksRect};
ghost use Rattle.rfb_codec.specs.encoder.Encode.{PacksRows};

use arrayvec::ArrayVec;
use rfb_picture::{Picture, Rect};
use rfb_pixel::{Colour, Format};
use std::marker::Model;

/// The most columns and the most rows of a block.
pub const SIDE: usize = 64;

/// The most places of a block.
pub const PLACES: usize = SIDE * SIDE;

// How many colours of a row are packed at once.
const LANES: u16 = 8;

/// 1 to 64 columns and 1 to 64 rows of pixel values of one format, row by row from the top. It owns
/// them, and has exactly one for each place. A caller keeps one and packs rectangle after rectangle
/// into it: only what a rectangle needs is written.
#[derive(Debug, Drop)]
pub struct Block {
    width: u16,
    height: u16,
    // Those of its places, and after them what was left of other blocks.
    pixels: [u32; PLACES],
}

impl Model for Block {
    ghost use Rattle.std.specs.Prelude.{ℕ, ◌*◌, take};
    ghost use Rattle.rfb_picture.specs.Grid.{Grid, grid};
    ghost use Rattle.rfb_codec.specs.Codec.{IsBlock};

    ghost Value = { Grid ℕ };

    ghost view = { λ b. grid b.width b.height (take (b.height * b.width) b.pixels) };

    ghost invariant = { λ b. IsBlock (grid b.width b.height (take (b.height * b.width) b.pixels)) };
}

impl Block {
    ghost use Rattle.rfb_picture.specs.Grid.{grid, IsGrid, at_or, row_of};

    /// The block of `width` columns and `height` rows that has these pixels, row by row from the
    /// top, each row from the left.
    pub fn new(width: u16, height: u16, pixels: ArrayVec<u32, PLACES>) -> Block
        requires columns { (1 ≤ width) × (width ≤ SIDE) }
        requires rows { (1 ≤ height) × (height ≤ SIDE) }
        requires whole { array_vec_len pixels ≡ height * width }
        ensures { result ≡ grid width height pixels.items }
    {
        let mut held = [0; PLACES];
        held[..pixels.len()].copy_from_slice(pixels.as_slice());
        Block {
            width,
            height,
            pixels: held,
        }
    }

    /// The block of one place that has this pixel: one to keep and to pack into.
    pub fn single(pixel: u32) -> Block
        ensures { result ≡ grid 1 1 (pixel ∷ []) }
    {
        let mut pixels = ArrayVec::new();
        pixels.push(pixel);
        Block::new(1, 1, pixels)
    }

    /// Becomes the block of a rectangle of a picture, in the format: as many columns and rows, and
    /// at each place the pixel of the colour there. What it had before is gone; the picture stays
    /// the caller's.
    pub fn pack(&mut self, format: &Format, picture: &Picture<Colour>, rect: Rect)
        requires held { Holds picture.now rect }
        requires columns { (1 ≤ rect.w) × (rect.w ≤ SIDE) }
        requires rows { (1 ≤ rect.h) × (rect.h ≤ SIDE) }
        ensures sized { IsSized rect.w rect.h self.new }
        ensures packed { PacksRect format.now picture.now rect self.new }
        ensures fits { HasPixels format.now self.new }
    {
        pack_rows(&mut self.pixels, format, picture, rect);
        self.width = rect.w;
        self.height = rect.h;
    }

    /// How many columns it has.
    #[inline]
    pub fn width(&self) -> u16
        ensures value { result ≡ self.now.width }
        ensures some { 1 ≤ result }
        ensures bound { result ≤ SIDE }
    {
        self.width
    }

    /// How many rows it has.
    #[inline]
    pub fn height(&self) -> u16
        ensures value { result ≡ self.now.height }
        ensures some { 1 ≤ result }
        ensures bound { result ≤ SIDE }
    {
        self.height
    }

    /// The pixel at column `x` of row `y`.
    #[inline]
    pub fn at(&self, x: u16, y: u16) -> u32
        requires column { x < self.now.width }
        requires row { y < self.now.height }
        ensures { (d : ℕ) → result ≡ at_or self.now x y d }
    {
        self.pixels()[usize::from(y) * usize::from(self.width()) + usize::from(x)]
    }

    /// Lends the pixels of row `y`, from the left.
    #[inline]
    pub fn row(&self, y: u16) -> &[u32]
        requires { y < self.now.height }
        ensures value { result.now ≡ row_of self.now 0 y self.now.width }
        ensures len { length result.now ≡ self.now.width }
    {
        let columns = usize::from(self.width());
        let start = usize::from(y) * columns;
        &self.pixels()[start..start + columns]
    }

    /// Lends its pixels, row by row from the top. Its contract also says that there is one for each
    /// place.
    #[inline]
    pub(crate) fn pixels(&self) -> &[u32]
        ensures value { result.now ≡ self.now.places }
        ensures whole { IsGrid self.now }
        ensures bound { length result.now ≤ PLACES }
    {
        &self.pixels[..usize::from(self.height) * usize::from(self.width)]
    }
}

// Writes the pixels of the rectangle, row by row, over the first of these. The format that most
// screens are sent in is treated apart, so that its loop is compiled for its shifts.
fn pack_rows(pixels: &mut [u32; PLACES], format: &Format, picture: &Picture<Colour>, rect: Rect)
    requires held { Holds picture.now rect }
    requires columns { rect.w ≤ SIDE }
    requires rows { rect.h ≤ SIDE }
    ensures packed { PacksRows format.now picture.now rect rect.h
        (take (rect.h * rect.w) pixels.new) }
    ensures fits { ArePixels format.now (take (rect.h * rect.w) pixels.new) }
{
    let span = span_of(picture, rect);
    if *format == Format::rgb888() {
        pack_each_row(pixels, Format::rgb888(), picture, rect, span);
    } else {
        pack_each_row(pixels, *format, picture, rect, span);
    }
}

// How many columns of each row are packed: those of the rectangle, but eight, which go at once, for
// fewer where the picture has as many. What is past the rectangle is written over by the row below.
#[inline(always)]
fn span_of(picture: &Picture<Colour>, rect: Rect) -> u16
    requires held { Holds picture.now rect }
    requires columns { rect.w ≤ SIDE }
    requires rows { rect.h ≤ SIDE }
    ensures wide { rect.w ≤ result }
    ensures within { rect.x + result ≤ picture.now.width }
    ensures room { rect.h * rect.w + result ≤ PLACES + rect.w }
{
    if rect.w < LANES && picture.width() - rect.x >= LANES {
        LANES
    } else {
        rect.w
    }
}

// The same, by one loop for every format, of so many columns.
#[inline(always)]
fn pack_each_row(
    pixels: &mut [u32; PLACES],
    format: Format,
    picture: &Picture<Colour>,
    rect: Rect,
    span: u16,
)
    requires held { Holds picture.now rect }
    requires span { (rect.w ≤ span) × (rect.x + span ≤ picture.now.width) }
    requires room { rect.h * rect.w + span ≤ PLACES + rect.w }
    ensures packed { PacksRows format picture.now rect rect.h
        (take (rect.h * rect.w) pixels.new) }
    ensures fits { ArePixels format (take (rect.h * rect.w) pixels.new) }
{
    prove!(rect.h <= picture.height());
    let columns = usize::from(rect.w);
    for y in 0..rect.h {
        let row = picture.row(rect.x, rect.y + y, span);
        let start = usize::from(y) * columns;
        format.pack_row(row, &mut pixels[start..start + usize::from(span)]);
    }
}

#[cfg(test)]
mod tests;
