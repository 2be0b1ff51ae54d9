//! Pixels of a raw tile, each shown at its last byte.

ghost use Rattle.std.specs.Prelude.{◌≡◌, ◌+◌, ◌<◌, length};
ghost use Rattle.arrayvec.specs.ArrayVec.{array_vec_len};
ghost use Rattle.rfb_pixel.specs.Format.{size_of};
ghost use Rattle.rfb_codec.specs.declared.painter.stage.Stage.TheVariants.{InTiles, InRawTile};
ghost use Rattle.rfb_codec.specs.Hextile.{tile_count, tile_width, tile_height};
ghost use Rattle.rfb_codec.specs.decoder.Step.{IsPaintable, Takes};

use super::next::places_of_tile;
use super::tile_read::Seen;
use crate::painter::gather::Pending;
use crate::painter::rectangle::Rectangle;
use crate::painter::stage::{Place, Stage, Step};
use crate::raw::take_pixels;
use rfb_picture::Picture;
use rfb_pixel::Colour;

/// A place of a tile: the tile's number in its rectangle, and where in the tile.
#[derive(Clone, Copy, Debug)]
pub struct TilePlace {
    pub tile: usize,
    pub at: Place,
}

/// Takes pixels of a raw tile, from a place of it on.
pub fn take_raw(
    rectangle: &Rectangle,
    place: TilePlace,
    seen: Seen,
    pending: &mut Pending,
    bytes: &[u8],
    picture: &mut Picture<Colour>,
) -> Step
    requires place { IsPaintable picture.old rectangle.now.rect }
    requires below { place.tile < tile_count rectangle.now.rect.w rectangle.now.rect.h }
    requires column { place.at.x < tile_width rectangle.now.rect.w place.tile }
    requires row { let rect = rectangle.now.rect in
        place.at.y < tile_height rect.w rect.h place.tile }
    requires short { array_vec_len pending.old < size_of rectangle.now.format }
    requires some { 0 < length bytes.now }
    ensures { Takes rectangle.now (InRawTile place.tile seen place.at) pending.old.items
        picture.old bytes.now result pending.new.items picture.new }
{
    let Rectangle { format, rect } = *rectangle;
    let TilePlace { tile, at } = place;
    let places = places_of_tile(rect, tile);
    let (used, at) = take_pixels(format, places, at, pending, bytes, picture);
    let stage = if at.y < places.h {
        Stage::InRawTile { tile, seen, at }
    } else {
        Stage::InTiles {
            tile: tile + 1,
            seen,
        }
    };
    Step { used, stage }
}
