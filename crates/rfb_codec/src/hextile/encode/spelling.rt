//! The bytes of a tile.

ghost use Rattle.std.specs.Prelude.{◌≡◌, ◌+◌, ◌≤◌, ◌*◌, ◌++◌, length, if◌then◌else◌};
ghost use Rattle.arrayvec.specs.ArrayVec.{array_vec_len};
ghost use Rattle.rfb_pixel.specs.Format.{size_of};
ghost use Rattle.rfb_codec.specs.encoder.TileSpelling.{AreTileParts, mask_of, tile_bytes};
ghost use Rattle.rfb_codec.specs.SentTile.{are_some, is_there, bit_if, colour_bytes};

use super::choosing::TileSubrects;
use super::pieces::{
    MAX_TILE_BYTES, TileBytes, append_byte, append_colored, append_colour, append_count,
    append_pixels, append_places,
};
use crate::hextile::layout::TileLayout;
use crate::hextile::mask::{
    ANY_SUBRECTS, BACKGROUND_SPECIFIED, FOREGROUND_SPECIFIED, RAW, SUBRECTS_COLORED,
};
use rfb_pixel::Format;

/// How many bytes `append` appends.
pub fn spelled_length(
    format: &Format,
    layout: TileLayout,
    pixels: &[u32],
    subs: &TileSubrects,
) -> usize
    requires { length pixels.now ≤ 256 }
    ensures value { result ≡ length (tile_bytes format.now layout pixels.now subs.now.items) }
    ensures few { result ≤ MAX_TILE_BYTES }
{
    let size = format.size();
    match layout {
        TileLayout::Raw => 1 + pixels.len() * size,
        TileLayout::Plain {
            background,
            foreground,
        } => {
            1 + colour_length(format, background)
                + colour_length(format, foreground)
                + list_length(subs, 2)
        }
        TileLayout::Colored { background } => {
            1 + colour_length(format, background) + list_length(subs, size + 2)
        }
    }
}

// How many bytes a colour has, if it is named.
fn colour_length(format: &Format, colour: Option<u32>) -> usize
    ensures value { result ≡ length (colour_bytes format.now colour) }
    ensures few { result ≤ 4 }
{
    match colour {
        Some(_) => format.size(),
        None => 0,
    }
}

// How many bytes the subrectangles have, of `size` each, and the byte that counts them.
fn list_length(subs: &TileSubrects, size: usize) -> usize
    requires { size ≤ 6 }
    ensures value { result ≡
        (if are_some subs.now.items then 1 + length subs.now.items * size else 0) }
    ensures few { result ≤ 1021 }
{
    if subs.is_empty() {
        0
    } else {
        1 + subs.len() * size
    }
}

/// Appends the tile, for which there is room.
pub fn append(
    format: &Format,
    layout: TileLayout,
    pixels: &[u32],
    subs: &TileSubrects,
    tile: &mut TileBytes,
)
    requires parts { AreTileParts format.now 16 16 subs.now.items }
    requires few { length pixels.now ≤ 256 }
    requires room { array_vec_len tile.old
        + length (tile_bytes format.now layout pixels.now subs.now.items) ≤ MAX_TILE_BYTES }
    ensures { tile.new.items ≡
        tile.old.items ++ tile_bytes format.now layout pixels.now subs.now.items }
{
    append_byte(mask_of(layout, subs), tile);
    match layout {
        TileLayout::Raw => append_pixels(format, pixels, tile),
        TileLayout::Plain {
            background,
            foreground,
        } => {
            append_colour(format, background, tile);
            append_colour(format, foreground, tile);
            append_count(subs, tile);
            append_places(format, subs, tile);
        }
        TileLayout::Colored { background } => {
            append_colour(format, background, tile);
            append_count(subs, tile);
            append_colored(format, subs, tile);
        }
    }
}

// The mask of a tile.
fn mask_of(layout: TileLayout, subs: &TileSubrects) -> u8
    ensures { result ≡ mask_of layout subs.now.items }
{
    let any = if subs.is_empty() { 0 } else { ANY_SUBRECTS };
    match layout {
        TileLayout::Raw => RAW,
        TileLayout::Plain {
            background,
            foreground,
        } => bit_if(BACKGROUND_SPECIFIED, background)
            | bit_if(FOREGROUND_SPECIFIED, foreground)
            | any,
        TileLayout::Colored { background } => {
            bit_if(BACKGROUND_SPECIFIED, background) | any | SUBRECTS_COLORED
        }
    }
}

// The bit where the colour is named.
fn bit_if(bit: u8, colour: Option<u32>) -> u8
    ensures { result ≡ bit_if bit (is_there colour) }
{
    match colour {
        Some(_) => bit,
        None => 0,
    }
}
