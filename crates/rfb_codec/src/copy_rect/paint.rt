//! The source of a CopyRect, from the slices that it comes in.

ghost use Rattle.std.specs.Prelude.{◌<◌, length};
ghost use Rattle.arrayvec.specs.ArrayVec.{array_vec_len};
ghost use Rattle.rfb_codec.specs.declared.painter.stage.Stage.TheVariants.{BeforeSource};
ghost use Rattle.rfb_codec.specs.decoder.Step.{IsPaintable, Steps};

use crate::fault::{Flaw, PaintFault};
use crate::painter::gather::{Pending, gather};
use crate::painter::rectangle::Rectangle;
use crate::painter::stage::{Stage, Step};
use byteorder::{BigEndian, ByteOrder};
use rfb_picture::{Picture, Rect};
use rfb_pixel::Colour;

const SOURCE_SIZE: usize = 4;

/// Takes bytes of the source, and copies it at its last byte. `SourceOutside` where it leaves the
/// picture.
#[inline(never)]
pub fn take_source(
    rectangle: &Rectangle,
    pending: &mut Pending,
    bytes: &[u8],
    picture: &mut Picture<Colour>,
) -> Result<Step, Flaw>
    requires place { IsPaintable picture.old rectangle.now.rect }
    requires short { array_vec_len pending.old < 4 }
    requires some { 0 < length bytes.now }
    ensures { Steps rectangle.now BeforeSource pending.old.items picture.old bytes.now result
        pending.new.items picture.new }
{
    let rect = rectangle.rect;
    let used = gather(pending, SOURCE_SIZE, bytes);
    if pending.len() < SOURCE_SIZE {
        return Ok(Step {
            used,
            stage: Stage::BeforeSource,
        });
    }
    let source = pending.as_slice();
    let x = BigEndian::read_u16(source);
    let y = BigEndian::read_u16(&source[2..]);
    pending.clear();
    if !picture.holds(Rect { x, y, ..rect }) {
        return Err(Flaw {
            used,
            fault: PaintFault::SourceOutside,
        });
    }
    picture.copy(rect, x, y);
    Ok(Step {
        used,
        stage: Stage::Copied { x, y },
    })
}
