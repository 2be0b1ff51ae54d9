//! One colour over a rectangle.

ghost use Rattle.std.specs.Prelude.{◌≡◌, ℕ, ◌<◌, slice_index_or};
ghost use Rattle.rfb_pixel.specs.declared.colour.Colour.{Colour};
ghost use Rattle.rfb_codec.specs.decoder.Step.{IsPaintable, PaintsOver};

use crate::hextile::tiles::TILE;
use rfb_picture::{Picture, Rect};
use rfb_pixel::Colour;

/// Gives the colour to each place of the rectangle, as `Picture::fill` does. Most rectangles of
/// text are one place wide: these are filled where it is called.
#[inline(always)]
pub fn fill(rect: Rect, colour: Colour, picture: &mut Picture<Colour>)
    requires { IsPaintable picture.old rect }
    ensures { PaintsOver rect (λ x y. colour) picture.old picture.new }
{
    if rect.w == 1 {
        picture.fill_by(rect, colour, &line_of::<1>(colour));
    } else {
        fill_wide(rect, colour, picture);
    }
}

/// The same by a call, and by pieces of sixteen places, or of four, where its rows have as many.
#[inline(never)]
pub fn fill_wide(rect: Rect, colour: Colour, picture: &mut Picture<Colour>)
    requires { IsPaintable picture.old rect }
    ensures { PaintsOver rect (λ x y. colour) picture.old picture.new }
{
    if rect.w >= 16 {
        picture.fill_by(rect, colour, &line_of::<16>(colour));
    } else if rect.w >= 4 {
        picture.fill_by(rect, colour, &line_of::<4>(colour));
    } else {
        picture.fill(rect, colour);
    }
}

/// The same over a tile. Most have sixteen places in a row, and so one piece.
#[inline(never)]
pub fn fill_tile(rect: Rect, colour: Colour, picture: &mut Picture<Colour>)
    requires { IsPaintable picture.old rect }
    ensures { PaintsOver rect (λ x y. colour) picture.old picture.new }
{
    if rect.w == TILE {
        let tile = Rect { w: TILE, ..rect };
        picture.fill_by(tile, colour, &line_of::<16>(colour));
    } else {
        fill_wide(rect, colour, picture);
    }
}

// N places of that colour. It is taken apart, so that they are put together in registers: copies of
// it as a whole would be written to memory one by one.
#[inline(always)]
fn line_of<const N: usize>(colour: Colour) -> [Colour; N]
    ensures { (k : ℕ) (d : Colour) → k < N → slice_index_or result k d ≡ colour }
{
    let Colour { r, g, b } = colour;
    [Colour { r, g, b }; N]
}
