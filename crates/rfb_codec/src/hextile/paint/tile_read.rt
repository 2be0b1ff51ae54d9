//! What is found of a tile before it is painted.

ghost use Rattle.std.specs.Prelude.{◌≡◌};
ghost use Rattle.rfb_codec.specs.Tile.{later, colour_or_zero};
ghost use Rattle.rfb_codec.specs.decoder.TileRead.{background_named, foreground_named};

use crate::hextile::layout::TileLayout;

/// A tile in the bytes that begin with it: how it is laid out, where its pixels or its
/// subrectangles begin, how many subrectangles there are, and how many bytes it has in all.
#[derive(Clone, Copy, Debug, PartialEq, Eq)]
pub struct TileRead {
    pub layout: TileLayout,
    pub list: usize,
    pub count: usize,
    pub used: usize,
}

/// The last background and the last foreground that tiles of the rectangle specified.
#[derive(Clone, Copy, Debug, PartialEq, Eq)]
pub struct Seen {
    pub background: Option<u32>,
    pub foreground: Option<u32>,
}

/// The colours seen after a tile of that layout too.
pub fn seen_after(seen: Seen, layout: TileLayout) -> Seen
    ensures background { result.background ≡ later (background_named layout) seen.background }
    ensures foreground { result.foreground ≡ later (foreground_named layout) seen.foreground }
{
    match layout {
        TileLayout::Raw => seen,
        TileLayout::Plain {
            background,
            foreground,
        } => Seen {
            background: latest(background, seen.background),
            foreground: latest(foreground, seen.foreground),
        },
        TileLayout::Colored { background } => Seen {
            background: latest(background, seen.background),
            foreground: seen.foreground,
        },
    }
}

// The colour that is named, else the one seen before.
fn latest(named: Option<u32>, before: Option<u32>) -> Option<u32>
    ensures { result ≡ later named before }
{
    match named {
        Some(colour) => Some(colour),
        None => before,
    }
}

/// A colour, or 0 where none was seen.
pub fn or_zero(colour: Option<u32>) -> u32
    ensures { result ≡ colour_or_zero colour }
{
    match colour {
        Some(pixel) => pixel,
        None => 0,
    }
}
