//! A byte that only joins those pending: most bytes do where they come one by one.

ghost use Rattle.std.specs.Prelude.{◌≡◌, ◌+◌, ◌≤◌, true, false};
ghost use Rattle.arrayvec.specs.ArrayVec.{array_vec_len};
ghost use Rattle.rfb_codec.specs.Stage.{is_ended, is_sound};
ghost use Rattle.rfb_codec.specs.decoder.Step.{piece_size, Joins};

use super::gather::Pending;
use super::pieces::is_ended;
use super::rectangle::Rectangle;
use super::stage::Stage;
use crate::hextile::least_size;
use rfb_pixel::Format;

/// Whether the piece under way has more bytes than those pending and the next one, so that this one
/// is pending too, whatever it is, and nothing else changes.
#[inline(always)]
pub fn joins(rectangle: &Rectangle, stage: Stage, pending: &Pending) -> bool
    requires { is_sound rectangle.now.format rectangle.now.rect stage
        (array_vec_len pending.now) ≡ true }
    ensures left { result ≡ true → is_ended rectangle.now.rect stage ≡ false }
    ensures joins { result ≡ true →
        Joins rectangle.now.format rectangle.now.rect stage pending.now.items }
    ensures sound { result ≡ true → is_sound rectangle.now.format rectangle.now.rect stage
        (array_vec_len pending.now + 1) ≡ true }
    ensures room { result ≡ true → array_vec_len pending.now + 2 ≤ 1536 }
{
    pending.len() + 1 < piece_size(rectangle.format, stage, pending)
        && !is_ended(rectangle.rect, stage)
}

// The fewest bytes that the piece under way has.
#[inline(always)]
fn piece_size(format: Format, stage: Stage, pending: &Pending) -> usize
    ensures value { result ≡ piece_size format stage pending.now.items }
    ensures few { result ≤ 1536 }
{
    match stage {
        Stage::BeforeSource => 4,
        Stage::Copied { .. } => 0,
        Stage::InPixels { .. } | Stage::InRawTile { .. } => format.size(),
        Stage::BeforeHead => 4 + format.size(),
        Stage::InSubrects { .. } => format.size() + 8,
        Stage::InTiles { .. } => {
            if pending.is_empty() {
                0
            } else {
                least_size(format, pending.as_slice())
            }
        }
    }
}
