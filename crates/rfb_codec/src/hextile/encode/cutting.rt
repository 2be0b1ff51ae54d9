//! The pixels of a tile, copied out of a block.

ghost use Rattle.std.specs.Prelude.{◌≡◌, ℕ, ◌+◌, ◌<◌, ◌≤◌, ◌*◌, ◌++◌, length, slice_index};
ghost use Rattle.arrayvec.specs.ArrayVec.{array_vec_len};
ghost use Rattle.rfb_wire.specs.RectHead.{IsOnScreen};
ghost use Rattle.rfb_codec.specs.HextileRule.{HasPixelsOf};

use crate::block::Block;
use crate::hextile::tiles::TILE_PLACES;
use arrayvec::ArrayVec;
use rfb_picture::Rect;
use rfb_wire::pieces::append;

/// Room for the pixels of a tile.
pub type TilePixels = ArrayVec<u32, TILE_PLACES>;

/// Puts the pixels of a tile into `pixels`, row by row, in the place of what was there.
pub fn cut(block: &Block, tile: Rect, pixels: &mut TilePixels)
    requires inside { IsOnScreen block.now.width block.now.height tile }
    requires small { (tile.w ≤ 16) × (tile.h ≤ 16) }
    ensures size { array_vec_len pixels.new ≡ tile.h * tile.w }
    ensures value { HasPixelsOf block.now tile pixels.new.items }
{
    let columns = usize::from(block.width());
    pixels.clear();
    for row in 0..usize::from(tile.h) {
        let start = (usize::from(tile.y) + row) * columns + usize::from(tile.x);
        append_row(pixels, &block.pixels()[start..start + usize::from(tile.w)]);
    }
}

// Appends a row of a tile. Most have sixteen pixels, which as an array go by vectors.
#[inline(always)]
fn append_row(pixels: &mut TilePixels, row: &[u32])
    requires { array_vec_len pixels.old + length row.now ≤ TILE_PLACES }
    ensures items { pixels.new.items ≡ pixels.old.items ++ row.now }
    ensures len { array_vec_len pixels.new ≡ array_vec_len pixels.old + length row.now }
{
    match row.as_array::<16>() {
        Some(sixteen) => append(pixels, sixteen),
        None => append(pixels, row),
    }
}
