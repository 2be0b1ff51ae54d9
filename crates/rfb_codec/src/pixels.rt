//! Pictures that an owner has in memory, as bytes, painted at once.

ghost use Rattle.std.specs.Prelude.{◌≡◌, ◌+◌, ◌*◌, length};
ghost use Rattle.rfb_pixel.specs.Format.{colour_of};
ghost use Rattle.rfb_pixel.specs.Bytes.{byte_colour};
ghost use Rattle.rfb_picture.specs.Grid.{Holds};
ghost use Rattle.rfb_codec.specs.Raw.{raw_length, raw_pixel};
ghost use Rattle.rfb_codec.specs.Painter.{over};

use crate::raw::paint_rows;
use rfb_picture::{Picture, Rect};
use rfb_pixel::{Colour, Format, colours_of_bytes};

/// Gives each place of the rectangle the colour of its pixel. `bytes` has the pixels row by row
/// from the top, each row from the left, in that format, as Raw's data are (RFC 6143 section
/// 7.7.1). They stay the caller's.
pub fn paint_pixels(format: Format, rect: Rect, bytes: &[u8], picture: &mut Picture<Colour>)
    requires held { Holds picture.old rect }
    requires whole { length bytes.now ≡ raw_length format rect.w rect.h }
    ensures value { picture.new ≡
        over rect (λ x y. colour_of format (raw_pixel format rect.w bytes.now x y)) picture.old }
    ensures width { picture.new.width ≡ picture.old.width }
    ensures height { picture.new.height ≡ picture.old.height }
{
    // This also shows that the picture has a colour at each place, and that places are numbered in
    // 16 bits.
    prove!(rect.w <= picture.width() && rect.h <= picture.height());
    paint_rows(format, rect, bytes, picture);
}

/// Gives each place of the rectangle the colour of its three bytes: red, green and blue. `bytes`
/// has them row by row from the top, each row from the left. They stay the caller's.
pub fn paint_bytes(rect: Rect, bytes: &[u8], picture: &mut Picture<Colour>)
    requires held { Holds picture.old rect }
    requires whole { length bytes.now ≡ rect.h * rect.w * 3 }
    ensures value { picture.new ≡
        over rect (λ x y. byte_colour bytes.now (y * rect.w + x)) picture.old }
    ensures width { picture.new.width ≡ picture.old.width }
    ensures height { picture.new.height ≡ picture.old.height }
{
    prove!(rect.w <= picture.width() && rect.h <= picture.height());
    let length = usize::from(rect.w) * 3;
    for row in 0..rect.h {
        let start = usize::from(row) * length;
        let places = picture.row_mut(rect.x, rect.y + row, rect.w);
        colours_of_bytes(&bytes[start..start + length], places);
    }
}
