//! How far the data of a rectangle have come.

use crate::hextile::Seen;

/// A place of a rectangle or of a tile, from its corner.
#[derive(Clone, Copy, Debug, PartialEq, Eq)]
pub struct Place {
    pub x: u16,
    pub y: u16,
}

/// What the next byte belongs to.
#[derive(Clone, Copy, Debug, PartialEq, Eq)]
pub enum Stage {
    /// CopyRect: the source.
    BeforeSource,
    /// CopyRect: nothing, since the source was copied. Its corner lies there on the picture.
    Copied { x: u16, y: u16 },
    /// Raw: the pixel of this place.
    InPixels { at: Place },
    /// RRE: the number of subrectangles, and the background.
    BeforeHead,
    /// RRE: one of the subrectangles that are left.
    InSubrects { left: u32 },
    /// Hextile: the tile with this number, after tiles that specified the colours seen.
    InTiles { tile: usize, seen: Seen },
    /// Hextile: the pixel of this place of a raw tile.
    InRawTile { tile: usize, seen: Seen, at: Place },
}

/// What one step did: how many bytes it used, and what the byte after them belongs to.
#[derive(Clone, Copy, Debug, PartialEq, Eq)]
pub struct Step {
    pub used: usize,
    pub stage: Stage,
}
