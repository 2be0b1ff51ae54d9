//! Colours of three bytes each: red, green and blue, as many pictures in memory have them.

ghost use Rattle.std.specs.Prelude.{◌≡◌, ◌*◌, length};
ghost use Rattle.rfb_pixel.specs.Bytes.{AreOfBytes};

use crate::colour::Colour;
use crate::lanes::{LANES, widen_eight};

/// Writes the colour of each three bytes, as `Colour::of_bytes` makes it.
pub fn colours_of_bytes(bytes: &[u8], colours: &mut [Colour])
    requires { length bytes.now ≡ length colours.old * 3 }
    ensures { AreOfBytes bytes.now colours.new }
{
    if colours.len() < LANES {
        widen_each(bytes, colours);
        return;
    }
    let last = colours.len() - LANES;
    let mut at = 0;
    while at < last {
        widen_eight(&bytes[at * 3..at * 3 + 24], &mut colours[at..at + LANES]);
        at += LANES;
    }
    widen_eight(&bytes[last * 3..], &mut colours[last..]);
}

// The same one by one, for rows of fewer than eight.
fn widen_each(bytes: &[u8], colours: &mut [Colour])
    requires { length bytes.now ≡ length colours.old * 3 }
    ensures { AreOfBytes bytes.now colours.new }
{
    for (k, colour) in colours.iter_mut().enumerate() {
        *colour = Colour::of_bytes(bytes[3 * k], bytes[3 * k + 1], bytes[3 * k + 2]);
    }
}
