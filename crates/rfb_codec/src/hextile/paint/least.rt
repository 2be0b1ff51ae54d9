//! How many bytes a tile has at least.

ghost use Rattle.std.specs.Prelude.{◌≡◌, ◌+◌, ◌*◌, ◌<◌, ◌≤◌, length};
ghost use Rattle.rfb_codec.specs.Tile.{subrects_colored};
ghost use Rattle.rfb_codec.specs.decoder.TileRead.{sub_size, colours_end, least_size};

use crate::hextile::mask::{
    ANY_SUBRECTS, BACKGROUND_SPECIFIED, FOREGROUND_SPECIFIED, SUBRECTS_COLORED,
};
use rfb_pixel::Format;

/// The fewest bytes that a tile has that is not raw and begins with these.
#[inline(always)]
pub fn least_size(format: Format, bytes: &[u8]) -> usize
    requires { 0 < length bytes.now }
    ensures value { result ≡ least_size format bytes.now }
    ensures few { result ≤ 1536 }
{
    let mask = bytes[0];
    let (end, unit) = list_of(format, mask);
    if mask & ANY_SUBRECTS == 0 {
        end
    } else if bytes.len() <= end {
        end + 1
    } else {
        end + 1 + usize::from(bytes[end]) * unit
    }
}

// Where the colours end that a tile with that mask specifies, and how many bytes each of its
// subrectangles has.
#[inline(always)]
fn list_of(format: Format, mask: u8) -> (usize, usize)
    ensures end { result.0 ≡ colours_end format mask (subrects_colored mask) }
    ensures unit { result.1 ≡ sub_size format (subrects_colored mask) }
    ensures few { (result.0 + 1 + 255 * result.1 ≤ 1536) × (result.1 ≤ 6) }
{
    let size = format.size();
    let background = if mask & BACKGROUND_SPECIFIED == 0 {
        0
    } else {
        size
    };
    if mask & SUBRECTS_COLORED != 0 {
        (1 + background, size + 2)
    } else if mask & FOREGROUND_SPECIFIED == 0 {
        (1 + background, 2)
    } else {
        (1 + background + size, 2)
    }
}
