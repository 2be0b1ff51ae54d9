//! RRE from the slices that it comes in: the background at the last byte of the head, and each
//! subrectangle at its own.

ghost use Rattle.std.specs.Prelude.{◌≡◌, ◌+◌, ◌<◌, ◌≤◌, [], length};
ghost use Rattle.arrayvec.specs.ArrayVec.{array_vec_len};
ghost use Rattle.rfb_pixel.specs.Format.{size_of};
ghost use Rattle.rfb_codec.specs.declared.painter.stage.Stage.TheVariants.{BeforeHead, InSubrects};
ghost use Rattle.rfb_codec.specs.Rre.{subrect_of};
ghost use Rattle.rfb_codec.specs.decoder.Step.{IsPaintable, Takes, Steps, DrawsSubrect};

use super::read::read;
use crate::fault::{Flaw, PaintFault};
use crate::painter::fill::fill;
use crate::painter::gather::{Pending, gather};
use crate::painter::rectangle::Rectangle;
use crate::painter::stage::{Stage, Step};
use byteorder::{BigEndian, ByteOrder};
use rfb_picture::Picture;
use rfb_pixel::{Colour, Format};

/// Takes bytes of the number of subrectangles and of the background, which is painted at its last
/// byte.
#[inline(never)]
pub fn take_head(
    rectangle: &Rectangle,
    pending: &mut Pending,
    bytes: &[u8],
    picture: &mut Picture<Colour>,
) -> Step
    requires place { IsPaintable picture.old rectangle.now.rect }
    requires short { array_vec_len pending.old < 4 + size_of rectangle.now.format }
    requires some { 0 < length bytes.now }
    ensures { Takes rectangle.now BeforeHead pending.old.items picture.old bytes.now result
        pending.new.items picture.new }
{
    let format = rectangle.format;
    let size = format.size();
    let used = gather(pending, 4 + size, bytes);
    if pending.len() < 4 + size {
        return Step {
            used,
            stage: Stage::BeforeHead,
        };
    }
    let head = pending.as_slice();
    let left = BigEndian::read_u32(head);
    let background = format.take(&head[4..4 + size]);
    pending.clear();
    fill(rectangle.rect, format.unpack(background), picture);
    Step {
        used,
        stage: Stage::InSubrects { left },
    }
}

/// Takes the whole subrectangles that the bytes begin with, or bytes of one, which is painted at
/// its last byte. `SubrectOutside` where one leaves the rectangle.
#[inline(never)]
pub fn take_subrect(
    rectangle: &Rectangle,
    left: u32,
    pending: &mut Pending,
    bytes: &[u8],
    picture: &mut Picture<Colour>,
) -> Result<Step, Flaw>
    requires place { IsPaintable picture.old rectangle.now.rect }
    requires left { 0 < left }
    requires short { array_vec_len pending.old < size_of rectangle.now.format + 8 }
    requires some { 0 < length bytes.now }
    ensures { Steps rectangle.now (InSubrects left) pending.old.items picture.old bytes.now result
        pending.new.items picture.new }
{
    let size = rectangle.format.size() + 8;
    if pending.is_empty() && bytes.len() >= size {
        return take_whole(rectangle, left, bytes, picture);
    }
    let used = gather(pending, size, bytes);
    if pending.len() < size {
        return Ok(Step {
            used,
            stage: Stage::InSubrects { left },
        });
    }
    let drawn = draw_subrect(rectangle, pending.as_slice(), picture);
    pending.clear();
    match drawn {
        Ok(()) => {}
        Err(fault) => return Err(Flaw { used, fault }),
    }
    Ok(Step {
        used,
        stage: Stage::InSubrects { left: left - 1 },
    })
}

// Takes the whole subrectangles that the bytes begin with, at most `left`. `SubrectOutside` at the
// first that leaves the rectangle.
fn take_whole(
    rectangle: &Rectangle,
    left: u32,
    bytes: &[u8],
    picture: &mut Picture<Colour>,
) -> Result<Step, Flaw>
    requires place { IsPaintable picture.old rectangle.now.rect }
    requires left { 0 < left }
    requires one { size_of rectangle.now.format + 8 ≤ length bytes.now }
    ensures { Steps rectangle.now (InSubrects left) [] picture.old bytes.now result
        [] picture.new }
{
    // The format that this project announces has a loop of its own.
    if rectangle.format == Format::rgb888() {
        let announced = rectangle.by_format(Format::rgb888());
        take_each(&announced, left, bytes, picture)
    } else {
        // Its own copy of what the rectangle is: that of the caller would be read again after each
        // place that is written.
        let own = *rectangle;
        take_each(&own, left, bytes, picture)
    }
}

// The same, by one loop for every format.
#[inline(always)]
fn take_each(
    rectangle: &Rectangle,
    left: u32,
    bytes: &[u8],
    picture: &mut Picture<Colour>,
) -> Result<Step, Flaw>
    requires place { IsPaintable picture.old rectangle.now.rect }
    requires left { 0 < left }
    requires one { size_of rectangle.now.format + 8 ≤ length bytes.now }
    ensures { Steps rectangle.now (InSubrects left) [] picture.old bytes.now result
        [] picture.new }
{
    let length = rectangle.format.size() + 8;
    let mut rest = left;
    let mut used = 0;
    'parts: while rest > 0 && bytes.len() - used >= length {
        prove!(rectangle.lies_in(picture));
        match draw_subrect(rectangle, &bytes[used..used + length], picture) {
            Ok(()) => {}
            Err(fault) => {
                return Err(Flaw {
                    used: used + length,
                    fault,
                });
            }
        }
        used += length;
        rest -= 1;
    }
    Ok(Step {
        used,
        stage: Stage::InSubrects { left: rest },
    })
}

// Paints the subrectangle that bytes spell, if it lies in the rectangle.
#[inline(always)]
fn draw_subrect(
    rectangle: &Rectangle,
    bytes: &[u8],
    picture: &mut Picture<Colour>,
) -> Result<(), PaintFault>
    requires place { IsPaintable picture.old rectangle.now.rect }
    requires size { length bytes.now ≡ size_of rectangle.now.format + 8 }
    ensures { DrawsSubrect rectangle.now (subrect_of rectangle.now.format bytes.now) picture.old
        result picture.new }
{
    let Rectangle { format, rect } = *rectangle;
    let part = read(format, bytes);
    // In 32 bits, since an edge may pass 65,535.
    if u32::from(part.rect.x) + u32::from(part.rect.w) > u32::from(rect.w)
        || u32::from(part.rect.y) + u32::from(part.rect.h) > u32::from(rect.h)
    {
        return Err(PaintFault::SubrectOutside);
    }
    let places = part.rect.moved_by(rect.x, rect.y);
    fill(places, format.unpack(part.pixel), picture);
    Ok(())
}
