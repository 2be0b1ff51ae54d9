//! The data of a rectangle, RFC 6143 section 7.7: what its bytes stand for, encoders that append
//! them and a decoder that paints them.
//!
//! # The order of calls
//!
//! To send a rectangle of at most 64 by 64 places:
//!
//! 1. `Block::pack` takes its pixels of a picture, in the format that the viewer wants.
//! 2. The caller makes room for the pixels as Raw has them, and appends the rectangle's head.
//! 3. `Codec::encode`, of `Rre` or `Hextile`, appends the data, or reports that it gives the block
//!    up. Then `Raw` takes it, which never does. A head names the encoding that was taken,
//!    `NUMBER`.
//! 4. For a CopyRect `spell_source` has the four bytes.
//!
//! To show one, whatever slices its data come in:
//!
//! 1. `Painter::new` once its head is read: where it lies, its encoding, the format in force.
//! 2. `feed` with each slice and the picture, until it is done. What it did not use is of the next
//!    rectangle. `take` does the same, and a fault names its byte.
//!
//! | Bytes | Go to |
//! |---|---|
//! | that `encode` appended, after their head | the client |
//! | of a rectangle, after its head | `Painter::feed` |
#![tactic(auto)]

mod block;
mod choice;
mod codec;
mod copy_rect;
mod fault;
mod hextile;
pub mod law;
mod painter;
mod pixels;
mod raw;
mod rre;
mod subrect;
#[cfg(test)]
mod tests;

pub use block::{Block, PLACES, SIDE};
pub use codec::Codec;
pub use copy_rect::spell_source;
pub use fault::{Flaw, PaintFault};
pub use hextile::Hextile;
pub use painter::{Painted, Painter};
pub use pixels::{paint_bytes, paint_pixels};
pub use raw::{Raw, put_pixels};
pub use rre::Rre;
