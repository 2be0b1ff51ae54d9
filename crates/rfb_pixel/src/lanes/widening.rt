//! Eight colours of three bytes each at once.

ghost use Rattle.std.specs.Prelude.{◌≡◌, length};
ghost use Rattle.rfb_pixel.specs.Bytes.{AreOfBytes};

use crate::colour::Colour;
use crate::lanes::{components_of, write_eight};
use std::simd::u8x16;

/// Writes the colours of eight times three bytes. A component has its byte twice.
#[inline(always)]
pub fn widen_eight(bytes: &[u8], colours: &mut [Colour])
    requires bytes { length bytes.now ≡ 24 }
    requires colours { length colours.old ≡ 8 }
    ensures value { AreOfBytes bytes.now colours.new }
    ensures len { length colours.new ≡ 8 }
{
    let front = u8x16::from_slice(bytes);
    let back = u8x16::from_slice(&bytes[8..]);
    let x = components_of(front.swizzle([0, 0, 1, 1, 2, 2, 3, 3, 4, 4, 5, 5, 6, 6, 7, 7]));
    let y = components_of(back.swizzle([0, 0, 1, 1, 2, 2, 3, 3, 4, 4, 5, 5, 6, 6, 7, 7]));
    let z = components_of(back.swizzle([
        8, 8, 9, 9, 10, 10, 11, 11, 12, 12, 13, 13, 14, 14, 15, 15,
    ]));
    write_eight(x, y, z, colours);
}
