//! A rectangle of an update as bytes, RFC 6143 sections 7.6.1 and 7.7.

ghost use Rattle.rfb_codec.specs.Pixels.{HasPixels};

use super::plain::Plain;
use rfb_codec::{Block, Codec, Hextile, Raw, Rre};
use rfb_picture::{Picture, Rect};
use rfb_pixel::{Colour, Format};
use rfb_wire::Encoding;

/// Appends bytes.
pub(super) fn append(bytes: &[u8], out: &mut Vec<u8>) {
    let _appended = out.extend_from_slice(bytes);
}

/// Appends a rectangle's head.
pub(super) fn append_head(rect: Rect, number: u32, out: &mut Vec<u8>) {
    append(rect.x.to_be_bytes().as_slice(), out);
    append(rect.y.to_be_bytes().as_slice(), out);
    append(rect.w.to_be_bytes().as_slice(), out);
    append(rect.h.to_be_bytes().as_slice(), out);
    append(number.to_be_bytes().as_slice(), out);
}

// Appends a block's data, unless the codec gives the block up.
fn append_data<C: Codec>(block: &Block, format: &Format, out: &mut Vec<u8>) -> bool
    requires { HasPixels format.now block.now }
{
    let raw = usize::from(block.height()) * usize::from(block.width()) * format.size();
    match out.reserve(raw) {
        Ok(()) => C::encode(block, format, out),
        Err(_) => false,
    }
}

// Appends a rectangle by a codec, and in Raw where it gives the block up.
fn append_coded<C: Codec>(
    rect: Rect,
    number: u32,
    block: &Block,
    format: &Format,
    out: &mut Vec<u8>,
)
    requires { HasPixels format.now block.now }
{
    let start = out.len();
    append_head(rect, number, out);
    if !append_data::<C>(block, format, out) {
        out.truncate(start);
        append_head(rect, 0, out);
        append_data::<Raw>(block, format, out);
    }
}

/// Appends the rectangle's pixels in the viewer's encoding.
pub(super) fn append_rect(plain: &Plain, screen: &Picture<Colour>, rect: Rect, out: &mut Vec<u8>) {
    if !screen.holds(rect) || rect.w < 1 || 64 < rect.w || rect.h < 1 || 64 < rect.h {
        return;
    }
    let mut block = Block::single(0);
    block.pack(&plain.format, screen, rect);
    match plain.encoding {
        Encoding::Rre => append_coded::<Rre>(rect, 2, &block, &plain.format, out),
        Encoding::Hextile => append_coded::<Hextile>(rect, 5, &block, &plain.format, out),
        Encoding::Raw | Encoding::CopyRect => {
            append_coded::<Raw>(rect, 0, &block, &plain.format, out);
        }
    }
}
