//! The tiles that Hextile splits a rectangle into, RFC 6143 section 7.7.4.

ghost use Rattle.std.specs.Prelude.{◌≡◌, ◌<◌, ◌≤◌, ◌*◌, ◌/◌, ◌%◌};
ghost use Rattle.rfb_wire.specs.RectHead.{IsOnScreen};
ghost use Rattle.rfb_codec.specs.Hextile.{across, tile_count, tile_width, tile_height};

use rfb_picture::Rect;

/// How many columns and rows a tile has, but for those at the right and at the lower edge.
pub const TILE: u16 = 16;

/// The most places of a tile.
pub const TILE_PLACES: usize = 256;

// How many tiles lie along `places` places.
fn tiles_along(places: u16) -> usize
    ensures value { result ≡ across places }
    ensures few { result ≤ 4096 }
{
    (usize::from(places) + 15) / 16
}

/// How many tiles a rectangle of that size has.
pub fn tile_count(width: u16, height: u16) -> usize
    ensures value { result ≡ tile_count width height }
    ensures few { result ≤ 4096 * 4096 }
{
    tiles_along(height) * tiles_along(width)
}

/// The places of the tile with that number, from the rectangle's corner.
pub fn tile_rect(width: u16, height: u16, n: usize) -> Rect
    requires { n < tile_count width height }
    ensures column { result.x ≡ n % across width * 16 }
    ensures row { result.y ≡ n / across width * 16 }
    ensures width { result.w ≡ tile_width width n }
    ensures height { result.h ≡ tile_height width height n }
    ensures inside { IsOnScreen width height result }
    ensures some { (0 < result.w) × (0 < result.h) }
    ensures small { (result.w ≤ 16) × (result.h ≤ 16) }
{
    let across = tiles_along(width);
    let x = (n % across * 16) as u16;
    let y = (n / across * 16) as u16;
    Rect {
        x,
        y,
        w: TILE.min(width - x),
        h: TILE.min(height - y),
    }
}
