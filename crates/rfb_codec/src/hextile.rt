//! Hextile, RFC 6143 section 7.7.4: tiles of 16 by 16, each with colours of its own or with those
//! of tiles before it.

mod encode;
pub mod layout;
pub mod mask;
mod paint;
pub mod tiles;

pub use encode::Hextile;
pub use paint::{NOTHING, Seen, TilePlace, least_size, take_raw, take_tile};
