//! The data of each encoding, painted into a picture piece by piece from the slices that they come
//! in.

ghost use Rattle.std.specs.Prelude.{◌≡◌, ◌<◌, length, true, false};
ghost use Rattle.arrayvec.specs.ArrayVec.{array_vec_len};
ghost use Rattle.rfb_picture.specs.Grid.{Holds};
ghost use Rattle.rfb_codec.specs.decoder.Step.{IsPaintable};
ghost use Rattle.rfb_codec.specs.decoder.Step.{Steps, StepsAll};
ghost use Rattle.rfb_codec.specs.Stage.{is_ended, is_sound};

use super::gather::Pending;
use super::rectangle::Rectangle;
use super::stage::{Stage, Step};
use crate::fault::Flaw;
use crate::hextile::tiles::tile_count;
use crate::{copy_rect, hextile, raw, rre};
use rfb_picture::{Picture, Rect};
use rfb_pixel::Colour;

/// Whether the data have ended.
pub fn is_ended(rect: Rect, stage: Stage) -> bool
    ensures { result ≡ is_ended rect stage }
{
    match stage {
        Stage::Copied { .. } => true,
        Stage::InPixels { at } => rect.w == 0 || at.y >= rect.h,
        Stage::InSubrects { left } => left == 0,
        Stage::InTiles { tile, .. } => tile >= tile_count(rect.w, rect.h),
        Stage::BeforeSource | Stage::BeforeHead | Stage::InRawTile { .. } => false,
    }
}

/// Takes bytes of the data up to their last one, piece by piece. On a fault nothing is pending.
#[inline(always)]
pub fn feed(
    rectangle: &Rectangle,
    stage: Stage,
    pending: &mut Pending,
    bytes: &[u8],
    picture: &mut Picture<Colour>,
) -> Result<Step, Flaw>
    requires place { Holds picture.old rectangle.now.rect }
    requires sound { is_sound rectangle.now.format rectangle.now.rect stage
        (array_vec_len pending.old) ≡ true }
    ensures { StepsAll rectangle.now stage pending.old.items picture.old bytes.now result
        pending.new.items picture.new }
{
    let mut used = 0;
    let mut now = stage;
    'pieces: while used < bytes.len() && !is_ended(rectangle.rect, now) {
        prove!(rectangle.lies_in(picture));
        let step = match take(rectangle, now, pending, &bytes[used..], picture) {
            Ok(step) => step,
            Err(flaw) => {
                return Err(Flaw {
                    used: used + flaw.used,
                    fault: flaw.fault,
                });
            }
        };
        now = step.stage;
        used += step.used;
    }
    Ok(Step { used, stage: now })
}

// Takes the next piece of the data, a run of pixels, or bytes of a piece.
#[inline(always)]
fn take(
    rectangle: &Rectangle,
    stage: Stage,
    pending: &mut Pending,
    bytes: &[u8],
    picture: &mut Picture<Colour>,
) -> Result<Step, Flaw>
    requires place { IsPaintable picture.old rectangle.now.rect }
    requires some { 0 < length bytes.now }
    requires left { is_ended rectangle.now.rect stage ≡ false }
    requires sound { is_sound rectangle.now.format rectangle.now.rect stage
        (array_vec_len pending.old) ≡ true }
    ensures { Steps rectangle.now stage pending.old.items picture.old bytes.now result
        pending.new.items picture.new }
{
    match stage {
        Stage::BeforeSource => copy_rect::take_source(rectangle, pending, bytes, picture),
        Stage::Copied { .. } => unreachable!(),
        Stage::InPixels { at } => Ok(raw::take_run(rectangle, at, pending, bytes, picture)),
        Stage::BeforeHead => Ok(rre::take_head(rectangle, pending, bytes, picture)),
        Stage::InSubrects { left } => {
            rre::take_subrect(rectangle, left, pending, bytes, picture)
        }
        Stage::InTiles { tile, seen } => {
            hextile::take_tile(rectangle, tile, seen, pending, bytes, picture)
        }
        Stage::InRawTile { tile, seen, at } => {
            let place = hextile::TilePlace { tile, at };
            Ok(hextile::take_raw(rectangle, place, seen, pending, bytes, picture))
        }
    }
}
