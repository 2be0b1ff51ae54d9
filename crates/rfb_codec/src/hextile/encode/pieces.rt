//! The pieces of a tile's bytes, appended to those before. The caller has seen to the room.

ghost use Rattle.std.specs.Prelude.{◌≡◌, ◌+◌, ◌-◌, ◌≤◌, ◌*◌, ◌++◌, [], ◌∷◌, length};
ghost use Rattle.std.specs.List.{flat_map};
ghost use Rattle.arrayvec.specs.ArrayVec.{array_vec_len};
ghost use Rattle.rfb_pixel.specs.Format.{size_of, pixel_bytes};
ghost use Rattle.rfb_codec.specs.encoder.TileSpelling.{IsTilePart, AreTileParts, own_place};
ghost use Rattle.rfb_codec.specs.SentTile.{colour_bytes, count_bytes, colored_bytes};

use super::choosing::TileSubrects;
use crate::raw::put_pixels;
use crate::subrect::Subrect;
use arrayvec::ArrayVec;
use rfb_pixel::Format;
use rfb_wire::pieces::append;

/// No tile has more bytes: a mask, two colours, and a count with 170 coloured subrectangles.
pub const MAX_TILE_BYTES: usize = 1030;

/// Room for the bytes of a tile.
pub type TileBytes = ArrayVec<u8, MAX_TILE_BYTES>;

/// Appends a byte.
pub fn append_byte(byte: u8, tile: &mut TileBytes)
    requires { array_vec_len tile.old + 1 ≤ MAX_TILE_BYTES }
    ensures items { tile.new.items ≡ tile.old.items ++ byte ∷ [] }
    ensures len { array_vec_len tile.new ≡ array_vec_len tile.old + 1 }
{
    tile.push(byte);
}

/// Appends the pixels of a tile.
pub fn append_pixels(format: &Format, pixels: &[u32], tile: &mut TileBytes)
    requires few { length pixels.now ≤ 256 }
    requires room { array_vec_len tile.old
        + length pixels.now * size_of format.now ≤ MAX_TILE_BYTES }
    ensures { tile.new.items ≡ tile.old.items ++ flat_map (pixel_bytes format.now) pixels.now }
{
    let mut bytes = [0; 1024];
    let size = pixels.len() * format.size();
    put_pixels(format, pixels, &mut bytes[..size]);
    append(tile, &bytes[..size]);
}

// Appends a pixel.
fn append_pixel(format: &Format, pixel: u32, tile: &mut TileBytes)
    requires { array_vec_len tile.old + size_of format.now ≤ MAX_TILE_BYTES }
    ensures items { tile.new.items ≡ tile.old.items ++ pixel_bytes format.now pixel }
    ensures len { array_vec_len tile.new ≡ array_vec_len tile.old + size_of format.now }
{
    let mut bytes = [0; 4];
    let size = format.size();
    format.put(pixel, &mut bytes[..size]);
    append(tile, &bytes[..size]);
}

/// Appends a colour, if it is named.
pub fn append_colour(format: &Format, colour: Option<u32>, tile: &mut TileBytes)
    requires { array_vec_len tile.old + length (colour_bytes format.now colour) ≤ MAX_TILE_BYTES }
    ensures items { tile.new.items ≡ tile.old.items ++ colour_bytes format.now colour }
    ensures len { array_vec_len tile.new ≡
        array_vec_len tile.old + length (colour_bytes format.now colour) }
{
    if let Some(pixel) = colour {
        append_pixel(format, pixel, tile);
    }
}

/// Appends the number of subrectangles, if there are any.
pub fn append_count(subs: &TileSubrects, tile: &mut TileBytes)
    requires { array_vec_len tile.old + length (count_bytes subs.now.items) ≤ MAX_TILE_BYTES }
    ensures items { tile.new.items ≡ tile.old.items ++ count_bytes subs.now.items }
    ensures len { array_vec_len tile.new ≡
        array_vec_len tile.old + length (count_bytes subs.now.items) }
{
    if !subs.is_empty() {
        append_byte(subs.len() as u8, tile);
    }
}

/// Appends the places of subrectangles.
pub fn append_places(format: &Format, subs: &TileSubrects, tile: &mut TileBytes)
    requires parts { AreTileParts format.now 16 16 subs.now.items }
    requires room { array_vec_len tile.old + length subs.now.items * 2 ≤ MAX_TILE_BYTES }
    ensures { tile.new.items ≡ tile.old.items ++ flat_map own_place subs.now.items }
{
    for sub in subs.as_slice() {
        append_place(format, *sub, tile);
    }
}

/// Appends subrectangles with their pixels.
pub fn append_colored(format: &Format, subs: &TileSubrects, tile: &mut TileBytes)
    requires parts { AreTileParts format.now 16 16 subs.now.items }
    requires room { array_vec_len tile.old
        + length subs.now.items * (size_of format.now + 2) ≤ MAX_TILE_BYTES }
    ensures { tile.new.items ≡
        tile.old.items ++ flat_map (colored_bytes format.now) subs.now.items }
{
    for sub in subs.as_slice() {
        append_pixel(format, sub.pixel, tile);
        append_place(format, *sub, tile);
    }
}

// Appends a place: x and y in a byte, and width and height less one in another.
fn append_place(format: &Format, sub: Subrect, tile: &mut TileBytes)
    requires part { IsTilePart format.now 16 16 sub }
    requires room { array_vec_len tile.old + 2 ≤ MAX_TILE_BYTES }
    ensures items { tile.new.items ≡ tile.old.items ++ own_place sub }
    ensures len { array_vec_len tile.new ≡ array_vec_len tile.old + 2 }
{
    let place = sub.rect;
    append_byte((place.x * 16 + place.y) as u8, tile);
    append_byte(((place.w - 1) * 16 + (place.h - 1)) as u8, tile);
}
