//! CopyRect, RFC 6143 section 7.7.2: where on the screen to copy from.

ghost use Rattle.rfb_codec.specs.RectData.{SpellsSource};

mod paint;

use byteorder::{BigEndian, ByteOrder};
pub use paint::take_source;

/// The bytes of a CopyRect's source, U16 src-x-position and U16 src-y-position: the column and the
/// row on the screen that the rectangle's first place is copied from. The rectangle of the same
/// size there has to lie on the screen, else a viewer refuses it.
pub fn spell_source(x: u16, y: u16) -> [u8; 4]
    ensures { SpellsSource x y result }
{
    let mut bytes = [0; 4];
    BigEndian::write_u16(&mut bytes, x);
    BigEndian::write_u16(&mut bytes[2..], y);
    bytes
}

#[cfg(test)]
mod tests;
