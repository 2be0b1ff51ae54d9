//! Tiles of Hextile, painted as they come.

mod drawing;
mod least;
mod next;
mod pixels;
mod reading;
mod take;
mod tile_read;

pub use least::least_size;
pub use pixels::{TilePlace, take_raw};
pub use take::take_tile;
pub use tile_read::Seen;

/// The colours seen before the first tile.
pub const NOTHING: Seen = Seen {
    background: None,
    foreground: None,
};
