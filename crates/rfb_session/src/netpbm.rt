//! Reading a portable pixmap (PPM), a file of Netpbm's, as the picture that it spells.
//!
//! The caller owns the reader. What is taken are the places of the picture and no more: the size is
//! judged before. A file that spells no picture is refused by the first thing that is wrong with
//! it.

ghost use Rattle.std.specs.Prelude.{◌≡◌, ◌*◌, length};
ghost use Rattle.rfb_session.specs.netpbm.Side.{IsSide};

mod fault;
mod head;
mod input;
mod number;
mod places;
mod read;
#[cfg(test)]
mod tests;

pub use fault::{Flaw, PixmapError};
pub use read::read_ppm;
use rfb_pixel::Colour;

/// A picture of 1 to 4,096 pixels a side, with a colour for each: row after row from the top, each
/// from the left.
#[derive(Drop)]
pub struct Pixmap {
    pub width: u16,
    pub height: u16,
    pub places: Vec<Colour>,
    ghost columns: { IsSide width },
    ghost rows: { IsSide height },
    ghost whole: { length places.items ≡ height * width },
}
