//! A rectangle of an update, appended to the bytes that are to be sent.

ghost use Rattle.std.specs.Prelude.{◌≡◌, ◌+◌, ◌≤◌, vec_len};
ghost use Rattle.std.specs.Bool.{OnTrue, OnFalse};
ghost use Rattle.std.specs.Vec.{vec_capacity};
ghost use Rattle.rfb_wire.specs.declared.encoding.Encoding.TheVariants.{Raw as RawEncoding};
ghost use Rattle.rfb_codec.specs.Pixels.{HasPixels, IsSized};
ghost use Rattle.rfb_codec.specs.Codec.{raw_of};
ghost use Rattle.rfb_codec.specs.ByRule.{GivesUp};
ghost use Rattle.rfb_server.specs.update.Rectangle.{AppendsIn, SendsRect};
ghost use Rattle.rfb_server.specs.update.Copies.{AppendsCopy};

use rfb_codec::{Block, Codec, Hextile, Raw, Rre, spell_source};
use rfb_picture::Rect;
use rfb_pixel::Format;
use rfb_wire::pieces::append_within;
use rfb_wire::{Encoding, RectHead};

/// How many bytes the head of a rectangle has, RFC 6143 section 7.6.1.
pub(crate) const RECT_HEAD_SIZE: usize = 12;

/// How many bytes a rectangle has that is copied: its head and its source.
pub(crate) const COPY_SIZE: usize = 16;

// Appends a rectangle with the pixels of a block: in that encoding where it is one for pixels and
// does not give the block up, else in Raw. The room is the caller's: that of its head and its
// pixels.
pub(crate) fn append_rect(
    encoding: Encoding,
    rect: Rect,
    block: &Block,
    format: &Format,
    out: &mut Vec<u8>,
)
    requires sized { IsSized rect.w rect.h block.now }
    requires pixels { HasPixels format.now block.now }
    requires room { vec_len out.old + 12 + raw_of format.now block.now ≤ vec_capacity out.old }
    ensures sent { SendsRect format.now rect encoding block.now out.old.items out.new.items }
    ensures room { vec_capacity out.new ≡ vec_capacity out.old }
{
    // Of one place no cover is shorter than its pixel.
    if rect.w == 1 && rect.h == 1 {
        append_raw(rect, block, format, out);
        return;
    }
    let sent = match encoding {
        Encoding::Rre => append_coded::<Rre>(Encoding::Rre, rect, block, format, out),
        Encoding::Hextile => append_coded::<Hextile>(Encoding::Hextile, rect, block, format, out),
        Encoding::Raw | Encoding::CopyRect => false,
    };
    if !sent {
        append_raw(rect, block, format, out);
    }
}

// Appends the rectangle in Raw, which gives up no block.
fn append_raw(rect: Rect, block: &Block, format: &Format, out: &mut Vec<u8>)
    requires sized { IsSized rect.w rect.h block.now }
    requires pixels { HasPixels format.now block.now }
    requires room { vec_len out.old + 12 + raw_of format.now block.now ≤ vec_capacity out.old }
    ensures sent { AppendsIn format.now rect RawEncoding block.now out.old.items out.new.items }
    ensures room { vec_capacity out.new ≡ vec_capacity out.old }
{
    let head = RectHead {
        rect,
        encoding: Encoding::Raw,
    };
    append_within(out, head.spell().as_slice());
    if !Raw::encode(block, format, out) {
        unreachable!()
    }
}

// Appends the rectangle by a codec, whose rule may give the block up: then nothing was appended.
fn append_coded<C: Codec>(
    encoding: Encoding,
    rect: Rect,
    block: &Block,
    format: &Format,
    out: &mut Vec<u8>,
) -> bool
    requires encoding { C.encoding ≡ encoding }
    requires sized { IsSized rect.w rect.h block.now }
    requires pixels { HasPixels format.now block.now }
    requires room { vec_len out.old + 12 + raw_of format.now block.now ≤ vec_capacity out.old }
    ensures sent { OnTrue result
        (AppendsIn format.now rect encoding block.now out.old.items out.new.items) }
    ensures taken { OnTrue result (GivesUp encoding format.now block.now → ⊥) }
    ensures given_up { OnFalse result (GivesUp encoding format.now block.now) }
    ensures kept { OnFalse result (out.new.items ≡ out.old.items) }
    ensures room { vec_capacity out.new ≡ vec_capacity out.old }
{
    let start = out.len();
    let head = RectHead { rect, encoding };
    append_within(out, head.spell().as_slice());
    if C::encode(block, format, out) {
        return true;
    }
    out.truncate(start);
    false
}

/// Appends a rectangle that the viewer is to copy from the one of its size at (`sx`, `sy`), RFC
/// 6143 section 7.7.2. The room is the caller's.
pub(crate) fn append_copy(rect: Rect, sx: u16, sy: u16, out: &mut Vec<u8>)
    requires { vec_len out.old + 16 ≤ vec_capacity out.old }
    ensures copied { AppendsCopy rect sx sy out.old.items out.new.items }
    ensures len { vec_len out.new ≡ vec_len out.old + 16 }
    ensures room { vec_capacity out.new ≡ vec_capacity out.old }
{
    let head = RectHead {
        rect,
        encoding: Encoding::CopyRect,
    };
    append_within(out, head.spell().as_slice());
    append_within(out, spell_source(sx, sy).as_slice());
}
