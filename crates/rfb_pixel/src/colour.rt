//! Colours as a picture keeps them, whatever the pixels on the wire look like.

ghost use Rattle.std.specs.Prelude.{◌≡◌};
ghost use Rattle.rfb_pixel.specs.Format.{colour_of_bytes};

/// A colour: red, green and blue, each from 0 to `COMPONENT_MAX`. `of_bytes` makes it
/// of components of eight bits.
#[derive(Clone, Copy, Debug, PartialEq, Eq)]
pub struct Colour {
    pub r: u16,
    pub g: u16,
    pub b: u16,
}

impl Colour {
    /// The colour of components of eight bits: each is 257 times as much, so that 255 is full
    /// strength.
    pub fn of_bytes(r: u8, g: u8, b: u8) -> Colour
        ensures { result ≡ colour_of_bytes r g b }
    {
        Colour {
            r: 257 * u16::from(r),
            g: 257 * u16::from(g),
            b: 257 * u16::from(b),
        }
    }
}

/// The full strength of a component.
pub const COMPONENT_MAX: u32 = 65_535;
