//! The rectangle's next tile: where it lies, and what becomes of it once it is all there.

ghost use Rattle.std.specs.Prelude.{◌≡◌, ◌+◌, ◌^◌, ◌<◌, ◌≤◌, IfOk, IfErr, IfSome};
ghost use Rattle.rfb_codec.specs.decoder.TileRead.{IsShort, tile_of_read};
ghost use Rattle.rfb_codec.specs.Hextile.{tile_count, tile_width, tile_height};
ghost use Rattle.rfb_codec.specs.decoder.Step.{IsPaintable};
ghost use Rattle.rfb_codec.specs.Front.{tile_places};
ghost use Rattle.rfb_codec.specs.decoder.Step.{IsGoodTile, TellsNext, FaultsNext, DrawsTile};

use super::drawing::draw_tile;
use super::reading::read_tile;
use super::tile_read::{Seen, TileRead, seen_after};
use crate::fault::Flaw;
use crate::hextile::tiles::{tile_count, tile_rect};
use rfb_picture::{Picture, Rect};
use rfb_pixel::{Colour, Format};

/// The rectangle's tile with that number, if the bytes begin with all of it.
#[inline(always)]
pub fn read_next(
    format: Format,
    rect: Rect,
    tile: usize,
    seen: Seen,
    bytes: &[u8],
) -> Result<Option<TileRead>, Flaw>
    requires { tile < tile_count rect.w rect.h }
    ensures told { TellsNext format rect tile seen bytes.now result }
    ensures good { IfOk result (λ told. IfSome told (λ read.
        IsGoodTile format rect tile read bytes.now)) }
    ensures short { IsShort bytes.now result }
    ensures with { IfErr result (λ flaw. FaultsNext format rect tile seen bytes.now flaw) }
    ensures columns { 0 < tile_width rect.w tile }
    ensures rows { 0 < tile_height rect.w rect.h tile }
{
    let part = tile_rect(rect.w, rect.h, tile);
    read_tile(format, seen, part.w, part.h, bytes)
}

/// Paints the tile that was read from the bytes, and returns the colours seen after it.
#[inline(always)]
pub fn draw_next(
    format: Format,
    rect: Rect,
    tile: usize,
    seen: Seen,
    read: TileRead,
    bytes: &[u8],
    picture: &mut Picture<Colour>,
) -> Seen
    requires place { IsPaintable picture.old rect }
    requires below { tile < tile_count rect.w rect.h }
    requires good { IsGoodTile format rect tile read bytes.now }
    ensures value { DrawsTile format rect tile seen
        (tile_of_read format (tile_width rect.w tile) (tile_height rect.w rect.h tile) read
        bytes.now)
        picture.old result picture.new }
    ensures width { picture.new.width ≡ picture.old.width }
    ensures height { picture.new.height ≡ picture.old.height }
{
    let seen = seen_after(seen, read.layout);
    draw_tile(
        format,
        places_of_tile(rect, tile),
        seen,
        read,
        bytes,
        picture,
    );
    seen
}

/// Where a tile lies in the picture.
pub fn places_of_tile(rect: Rect, tile: usize) -> Rect
    requires below { tile < tile_count rect.w rect.h }
    requires columns { rect.x + rect.w < 2 ^ 16 }
    requires rows { rect.y + rect.h < 2 ^ 16 }
    ensures value { result ≡ tile_places rect tile }
    ensures column { rect.x ≤ result.x × result.x + result.w ≤ rect.x + rect.w }
    ensures row { rect.y ≤ result.y × result.y + result.h ≤ rect.y + rect.h }
    ensures some { (0 < result.w) × (0 < result.h) }
{
    tile_rect(rect.w, rect.h, tile).moved_by(rect.x, rect.y)
}
