//! How a tile is sent.

/// A tile as it is sent: its pixels; or subrectangles of the foreground over the background, or of
/// pixels of their own. A colour that is there is named; else that of an earlier tile is meant.
#[derive(Clone, Copy, Debug, PartialEq, Eq)]
pub enum TileLayout {
    Raw,
    Plain {
        background: Option<u32>,
        foreground: Option<u32>,
    },
    Colored {
        background: Option<u32>,
    },
}
