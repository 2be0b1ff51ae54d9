//! A tile, painted where it lies in a picture.

ghost use Rattle.std.specs.Prelude.{◌≡◌, ℕ, ◌+◌, ◌*◌, ◌≤◌, ◌<◌, List, [], ◌∷◌, ◌++◌, length, drop};
ghost use Rattle.std.specs.Prelude.{false, true};
ghost use Rattle.rfb_pixel.specs.Format.{size_of, colour_of};
ghost use Rattle.rfb_codec.specs.Tile.{Tile, AreInside, places_of, tile_pixel, colored_of};
ghost use Rattle.rfb_codec.specs.decoder.TileRead.{LiesIn, tile_of_read};
ghost use Rattle.rfb_codec.specs.decoder.TileRead.{sub_after, sub_size};
ghost use Rattle.rfb_codec.specs.Stage.{Sees};
ghost use Rattle.rfb_codec.specs.decoder.Step.{HasSubs, IsPaintable, PaintsSubs};
ghost use Rattle.rfb_codec.specs.Painter.{over};

use super::reading::place_of;
use super::tile_read::{Seen, TileRead, or_zero};
use crate::hextile::layout::TileLayout;
use crate::painter::fill::{fill, fill_tile};
use crate::raw::paint_rows;
use crate::subrect::Subrect;
use rfb_picture::{Picture, Rect};
use rfb_pixel::{Colour, Format};

/// Paints a tile that was read from the bytes over its rectangle. `seen` has its own colours too.
#[inline(always)]
pub fn draw_tile(
    format: Format,
    rect: Rect,
    seen: Seen,
    read: TileRead,
    bytes: &[u8],
    picture: &mut Picture<Colour>,
)
    requires place { IsPaintable picture.old rect }
    requires lies { LiesIn format rect.w rect.h read bytes.now }
    requires inside { AreInside rect.w rect.h
        (places_of (tile_of_read format rect.w rect.h read bytes.now)) }
    ensures value { (before : List Tile) →
        Sees (before ++ tile_of_read format rect.w rect.h read bytes.now ∷ []) seen →
        picture.new ≡ over rect (λ x y. colour_of format (tile_pixel format rect.w
        (before ++ tile_of_read format rect.w rect.h read bytes.now ∷ [])
        (tile_of_read format rect.w rect.h read bytes.now) x y)) picture.old }
    ensures width { picture.new.width ≡ picture.old.width }
    ensures height { picture.new.height ≡ picture.old.height }
{
    let list = &bytes[read.list..];
    let (background, foreground) = (or_zero(seen.background), or_zero(seen.foreground));
    let plain = TileSubs {
        background,
        foreground,
        colored: false,
        count: read.count,
    };
    match read.layout {
        TileLayout::Raw => paint_rows(format, rect, &bytes[read.list..read.used], picture),
        TileLayout::Plain { .. } => draw_subs(format, rect, plain, list, picture),
        TileLayout::Colored { .. } => {
            let colored = TileSubs {
                colored: true,
                ..plain
            };
            draw_subs(format, rect, colored, list, picture);
        }
    }
}

// What a tile is painted in: a background, and so many subrectangles, which have pixels of their
// own or else the foreground.
#[derive(Clone, Copy)]
struct TileSubs {
    background: u32,
    foreground: u32,
    colored: bool,
    count: usize,
}

// Paints the background over the rectangle, and then the subrectangles, which lie inside it. There
// is a loop for those of one colour, and one for those that have pixels of their own. The format
// that this project announces has one of its own for these, since it is known before it runs.
#[inline(never)]
fn draw_subs(format: Format, rect: Rect, subs: TileSubs, list: &[u8], picture: &mut Picture<Colour>)
    requires place { IsPaintable picture.old rect }
    requires inside { HasSubs format rect subs list.now }
    ensures { PaintsSubs format rect subs list.now picture.old picture.new }
{
    if !subs.colored {
        draw_each(format, rect, subs, false, list, picture);
    } else if format == Format::rgb888() {
        draw_each(Format::rgb888(), rect, subs, true, list, picture);
    } else {
        draw_each(format, rect, subs, true, list, picture);
    }
}

// The same, by one loop for every format. `colored` is known where it is called.
#[inline(always)]
fn draw_each(
    format: Format,
    rect: Rect,
    subs: TileSubs,
    colored: bool,
    list: &[u8],
    picture: &mut Picture<Colour>,
)
    requires colored { subs.colored ≡ colored }
    requires place { IsPaintable picture.old rect }
    requires inside { HasSubs format rect subs list.now }
    ensures { PaintsSubs format rect subs list.now picture.old picture.new }
{
    fill_tile(rect, unpacked(format, subs.background), picture);
    let own = unpacked(format, subs.foreground);
    for n in 0..subs.count {
        let part = sub_at(format, subs.foreground, colored, n, list);
        let colour = colour_at(format, colored, own, part.pixel);
        let places = part.rect.moved_by(rect.x, rect.y);
        fill(places, colour, picture);
    }
}

// The colour of a subrectangle: of its pixel, or that of the foreground where it has none of its
// own.
#[inline(always)]
fn colour_at(format: Format, colored: bool, own: Colour, pixel: u32) -> Colour
    requires { colored ≡ false → own ≡ colour_of format pixel }
    ensures { result ≡ colour_of format pixel }
{
    if colored {
        unpacked(format, pixel)
    } else {
        own
    }
}

// The colour of a pixel. The format that this project announces is known before it runs, and needs
// no division.
#[inline(always)]
fn unpacked(format: Format, pixel: u32) -> Colour
    ensures { result ≡ colour_of format pixel }
{
    if format == Format::rgb888() {
        Format::rgb888().unpack(pixel)
    } else {
        format.unpack(pixel)
    }
}

// The subrectangle after `n` others.
#[inline(always)]
fn sub_at(format: Format, foreground: u32, colored: bool, n: usize, list: &[u8]) -> Subrect
    requires { (n + 1) * sub_size format colored ≤ length list.now }
    ensures { result ≡ sub_after format foreground colored n list.now }
{
    if colored {
        let size = format.size();
        let at = n * (size + 2);
        let part = &list[at..at + (size + 2)];
        Subrect {
            pixel: format.take(&part[..size]),
            rect: place_of(&part[size..]),
        }
    } else {
        Subrect {
            pixel: foreground,
            rect: place_of(&list[n * 2..n * 2 + 2]),
        }
    }
}
