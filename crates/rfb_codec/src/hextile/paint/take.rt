//! Tiles from the slices that they come in: one that is not raw at its last byte, and the mask of
//! one that is.

ghost use Rattle.std.specs.Prelude.{◌≡◌, ◌<◌, [], ◌∷◌, length, slice_index, true, false};
ghost use Rattle.arrayvec.specs.ArrayVec.{array_vec_len};
ghost use Rattle.rfb_codec.specs.declared.painter.stage.Stage.TheVariants.{InTiles, InRawTile};
ghost use Rattle.rfb_codec.specs.Tile.{is_raw};
ghost use Rattle.rfb_codec.specs.Hextile.{tile_count};
ghost use Rattle.rfb_codec.specs.decoder.Step.{IsPaintable, Steps};

use super::least::least_size;
use super::next::{draw_next, read_next};
use super::tile_read::Seen;
use crate::fault::Flaw;
use crate::hextile::mask::RAW;
use crate::hextile::tiles::tile_count;
use crate::painter::gather::{Pending, gather};
use crate::painter::rectangle::Rectangle;
use crate::painter::stage::{Place, Stage, Step};
use rfb_picture::Picture;
use rfb_pixel::Colour;

/// Takes the tiles that the bytes begin with, the mask of a raw one, or bytes of another, which is
/// painted at its last byte. A mask is judged at its byte, and subrectangles that leave the tile at
/// the tile's last byte.
#[inline(never)]
pub fn take_tile(
    rectangle: &Rectangle,
    tile: usize,
    seen: Seen,
    pending: &mut Pending,
    bytes: &[u8],
    picture: &mut Picture<Colour>,
) -> Result<Step, Flaw>
    requires place { IsPaintable picture.old rectangle.now.rect }
    requires below { tile < tile_count rectangle.now.rect.w rectangle.now.rect.h }
    requires short { array_vec_len pending.old < 1536 }
    requires some { 0 < length bytes.now }
    ensures { Steps rectangle.now (InTiles tile seen) pending.old.items picture.old bytes.now result
        pending.new.items picture.new }
{
    if !pending.is_empty() {
        return take_more(rectangle, tile, seen, pending, bytes, picture);
    }
    take_whole(rectangle, tile, seen, pending, bytes, picture)
}

// Takes the whole tiles that the bytes begin with, from the first on, up to the last of the
// rectangle. Of one that is not whole it takes the mask, if it is raw, or else all bytes.
#[inline(always)]
fn take_whole(
    rectangle: &Rectangle,
    first: usize,
    seen: Seen,
    pending: &mut Pending,
    bytes: &[u8],
    picture: &mut Picture<Colour>,
) -> Result<Step, Flaw>
    requires place { IsPaintable picture.old rectangle.now.rect }
    requires below { first < tile_count rectangle.now.rect.w rectangle.now.rect.h }
    requires none { array_vec_len pending.old ≡ 0 }
    requires some { 0 < length bytes.now }
    ensures { Steps rectangle.now (InTiles first seen) [] picture.old bytes.now result
        pending.new.items picture.new }
{
    let Rectangle { format, rect } = *rectangle;
    let count = tile_count(rect.w, rect.h);
    let (mut tile, mut now, mut used) = (first, seen, 0);
    'tiles: while tile < count && used < bytes.len() {
        prove!(rectangle.lies_in(picture));
        let slice = &bytes[used..];
        match read_next(format, rect, tile, now, slice) {
            Err(flaw) => {
                return Err(Flaw {
                    used: used + flaw.used,
                    fault: flaw.fault,
                });
            }
            Ok(None) => {
                let step = take_front(tile, now, pending, slice);
                return Ok(Step {
                    used: used + step.used,
                    stage: step.stage,
                });
            }
            Ok(Some(read)) => {
                now = draw_next(format, rect, tile, now, read, slice, picture);
                used += read.used;
                tile += 1;
            }
        }
    }
    Ok(Step {
        used,
        stage: Stage::InTiles { tile, seen: now },
    })
}

// Takes the mask of a raw tile, or all bytes of another that is not whole.
fn take_front(tile: usize, seen: Seen, pending: &mut Pending, bytes: &[u8]) -> Step
    requires none { array_vec_len pending.old ≡ 0 }
    requires some { 0 < length bytes.now }
    requires short { length bytes.now < 1536 }
    ensures raw { is_raw (slice_index bytes.now 0) ≡ true →
        (result ≡ record { used = 1; stage = InRawTile tile seen (record { x = 0; y = 0 }) })
        × (pending.new.items ≡ pending.old.items) }
    ensures other { is_raw (slice_index bytes.now 0) ≡ false →
        (result ≡ record { used = length bytes.now; stage = InTiles tile seen })
        × (pending.new.items ≡ bytes.now) }
{
    if bytes[0] & RAW != 0 {
        return Step {
            used: 1,
            stage: Stage::InRawTile {
                tile,
                seen,
                at: Place { x: 0, y: 0 },
            },
        };
    }
    match pending.try_extend_from_slice(bytes) {
        Ok(()) => {}
        Err(_) => unreachable!(),
    }
    Step {
        used: bytes.len(),
        stage: Stage::InTiles { tile, seen },
    }
}

// Takes further bytes of a tile that is not raw, up to the fewest that it has: all but the last of
// these, or that one.
#[inline(never)]
fn take_more(
    rectangle: &Rectangle,
    tile: usize,
    seen: Seen,
    pending: &mut Pending,
    bytes: &[u8],
    picture: &mut Picture<Colour>,
) -> Result<Step, Flaw>
    requires place { IsPaintable picture.old rectangle.now.rect }
    requires below { tile < tile_count rectangle.now.rect.w rectangle.now.rect.h }
    requires pending { 0 < array_vec_len pending.old }
    requires short { array_vec_len pending.old < 1536 }
    requires some { 0 < length bytes.now }
    ensures { Steps rectangle.now (InTiles tile seen) pending.old.items picture.old bytes.now result
        pending.new.items picture.new }
{
    let least = least_size(rectangle.format, pending.as_slice());
    if pending.len() + 1 < least {
        let used = gather(pending, least - 1, bytes);
        return Ok(Step {
            used,
            stage: Stage::InTiles { tile, seen },
        });
    }
    take_byte(rectangle, tile, seen, pending, bytes[0], picture)
}

// Takes a byte more of a tile that is not raw.
fn take_byte(
    rectangle: &Rectangle,
    tile: usize,
    seen: Seen,
    pending: &mut Pending,
    byte: u8,
    picture: &mut Picture<Colour>,
) -> Result<Step, Flaw>
    requires place { IsPaintable picture.old rectangle.now.rect }
    requires below { tile < tile_count rectangle.now.rect.w rectangle.now.rect.h }
    requires some { 0 < array_vec_len pending.old }
    requires short { array_vec_len pending.old < 1536 }
    ensures { Steps rectangle.now (InTiles tile seen) pending.old.items picture.old (byte ∷ [])
        result pending.new.items picture.new }
{
    let Rectangle { format, rect } = *rectangle;
    pending.push(byte);
    let bytes = pending.as_slice();
    match read_next(format, rect, tile, seen, bytes) {
        Err(flaw) => {
            pending.clear();
            Err(Flaw {
                used: 1,
                fault: flaw.fault,
            })
        }
        Ok(Some(read)) => {
            let seen = draw_next(format, rect, tile, seen, read, bytes, picture);
            pending.clear();
            Ok(Step {
                used: 1,
                stage: Stage::InTiles {
                    tile: tile + 1,
                    seen,
                },
            })
        }
        Ok(None) => Ok(Step {
            used: 1,
            stage: Stage::InTiles { tile, seen },
        }),
    }
}
