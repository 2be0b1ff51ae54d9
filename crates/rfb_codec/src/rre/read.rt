//! A subrectangle of RRE in its bytes, RFC 6143 section 7.7.3.

ghost use Rattle.std.specs.Prelude.{◌≡◌, ◌+◌, length};
ghost use Rattle.rfb_pixel.specs.Format.{size_of};
ghost use Rattle.rfb_codec.specs.Rre.{subrect_of};

use crate::subrect::Subrect;
use byteorder::{BigEndian, ByteOrder};
use rfb_picture::Rect;
use rfb_pixel::Format;

/// The subrectangle that bytes spell.
#[inline(always)]
pub fn read(format: Format, bytes: &[u8]) -> Subrect
    requires { length bytes.now ≡ size_of format + 8 }
    ensures { result ≡ subrect_of format bytes.now }
{
    let size = format.size();
    Subrect {
        pixel: format.take(&bytes[..size]),
        rect: Rect {
            x: BigEndian::read_u16(&bytes[size..]),
            y: BigEndian::read_u16(&bytes[size + 2..]),
            w: BigEndian::read_u16(&bytes[size + 4..]),
            h: BigEndian::read_u16(&bytes[size + 6..]),
        },
    }
}
