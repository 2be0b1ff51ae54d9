//! Eight pixels of bgr233 at once.

ghost use Rattle.std.specs.Prelude.{◌≡◌, ◌^◌, ◌<◌, ℕ, length, map, slice_index, slice_index_or};
ghost use Rattle.rfb_pixel.specs.declared.colour.Colour.{Colour};
ghost use Rattle.rfb_pixel.specs.Format.{AreColours, bgr233, pixel_of};
ghost use Rattle.rfb_pixel.specs.bits.Lanes.{colours_in};

use crate::colour::Colour;
use crate::lanes::{read_eight, write_eight};
use std::simd::{u8x8, u16x8, u32x8};

// The factors, in 65,536ths, that make a component a field of three or of two bits in the upper
// bits of a lane.
const THREE: u32 = 57_345;

const TWO: u32 = 49_153;

/// The pixel values of eight colours in bgr233.
#[inline(always)]
pub fn pack_eight_bgr233(colours: &[Colour]) -> u32x8
    requires { length colours.now ≡ 8 }
    ensures value { (k : ℕ) (d : Colour) → k < 8 →
        slice_index result k ≡ pixel_of bgr233 (slice_index_or colours.now k d) }
    ensures bound { (k : ℕ) → k < 8 → slice_index result k < 2 ^ 8 }
    ensures len { length result ≡ 8 }
{
    let (x, y, z) = read_eight(colours);
    pixels_of(&x, &y, &z)
}

// The same of eight colours whose components follow one another.
#[inline(always)]
fn pixels_of(x: &[u16], y: &[u16], z: &[u16]) -> u32x8
    requires x { length x.now ≡ 8 }
    requires y { length y.now ≡ 8 }
    requires z { length z.now ≡ 8 }
    ensures value { result ≡ map (pixel_of bgr233) (colours_in x.now y.now z.now) }
    ensures bound { (k : ℕ) → k < 8 → slice_index result k < 2 ^ 8 }
{
    let x = u16x8::from_array([x[0], x[1], x[2], x[3], x[4], x[5], x[6], x[7]]).cast::<u32>();
    let y = u16x8::from_array([y[0], y[1], y[2], y[3], y[4], y[5], y[6], y[7]]).cast::<u32>();
    let z = u16x8::from_array([z[0], z[1], z[2], z[3], z[4], z[5], z[6], z[7]]).cast::<u32>();
    // Each field in the upper bits of a lane, rounded by the bits below it.
    let x = (x * u32x8::from_array([THREE, THREE, TWO, THREE, THREE, TWO, THREE, THREE]))
        >> u32x8::splat(16);
    let y = (y * u32x8::from_array([TWO, THREE, THREE, TWO, THREE, THREE, TWO, THREE]))
        >> u32x8::splat(16);
    let z = (z * u32x8::from_array([THREE, TWO, THREE, THREE, TWO, THREE, THREE, TWO]))
        >> u32x8::splat(16);
    let x = x.cast::<u16>() + u16x8::from_array([4096, 4096, 8192, 4096, 4096, 8192, 4096, 4096]);
    let y = y.cast::<u16>() + u16x8::from_array([8192, 4096, 4096, 8192, 4096, 4096, 8192, 4096]);
    let z = z.cast::<u16>() + u16x8::from_array([4096, 8192, 4096, 4096, 8192, 4096, 4096, 8192]);
    // Reds 0, 3, 6, 1, 4, 7, 2 and 5, greens from 5 on in this order, and blues from 2 on.
    let red = x
        .shuffle(y, [0, 9, 0, 3, 12, 0, 6, 15])
        .shuffle(z, [0, 1, 10, 3, 4, 13, 6, 7]);
    let green = x
        .shuffle(y, [0, 1, 10, 0, 4, 13, 0, 7])
        .shuffle(z, [8, 1, 2, 11, 4, 5, 14, 7]);
    let blue = x
        .shuffle(y, [8, 0, 2, 11, 0, 5, 14, 0])
        .shuffle(z, [0, 9, 2, 3, 12, 5, 6, 15]);
    // In order, each at its place in the pixel.
    let red = (red >> u16x8::splat(13)).swizzle([0, 3, 6, 1, 4, 7, 2, 5]);
    let green = ((green >> u16x8::splat(13)) * u16x8::splat(8)).swizzle([1, 4, 7, 2, 5, 0, 3, 6]);
    let blue = ((blue >> u16x8::splat(14)) * u16x8::splat(64)).swizzle([2, 5, 0, 3, 6, 1, 4, 7]);
    (red + green + blue).cast::<u32>()
}

/// Writes the colours of eight pixels of bgr233.
#[inline(always)]
pub fn unpack_eight_bgr233(bytes: &[u8], colours: &mut [Colour])
    requires bytes { length bytes.now ≡ 8 }
    requires colours { length colours.old ≡ 8 }
    ensures value { AreColours bgr233 bytes.now colours.new }
    ensures len { length colours.new ≡ 8 }
{
    let p = u8x8::from_array([
        bytes[0], bytes[1], bytes[2], bytes[3], bytes[4], bytes[5], bytes[6], bytes[7],
    ])
    .cast::<u16>();
    // Each field in the upper bits of a lane, and nothing below it.
    let x = p.swizzle([0, 0, 0, 1, 1, 1, 2, 2])
        * u16x8::from_array([8192, 1024, 256, 8192, 1024, 256, 8192, 1024]);
    let y = p.swizzle([2, 3, 3, 3, 4, 4, 4, 5])
        * u16x8::from_array([256, 8192, 1024, 256, 8192, 1024, 256, 8192]);
    let z = p.swizzle([5, 5, 6, 6, 6, 7, 7, 7])
        * u16x8::from_array([1024, 256, 8192, 1024, 256, 8192, 1024, 256]);
    let x = x - (x & u16x8::from_array([8191, 8191, 16383, 8191, 8191, 16383, 8191, 8191]));
    let y = y - (y & u16x8::from_array([16383, 8191, 8191, 16383, 8191, 8191, 16383, 8191]));
    let z = z - (z & u16x8::from_array([8191, 16383, 8191, 8191, 16383, 8191, 8191, 16383]));
    // What the field repeats of itself below.
    let s = (x.cast::<u32>()
        * u32x8::from_array([9362, 9362, 21845, 9362, 9362, 21845, 9362, 9362]))
        >> u32x8::splat(16);
    let t = (y.cast::<u32>()
        * u32x8::from_array([21845, 9362, 9362, 21845, 9362, 9362, 21845, 9362]))
        >> u32x8::splat(16);
    let u = (z.cast::<u32>()
        * u32x8::from_array([9362, 21845, 9362, 9362, 21845, 9362, 9362, 21845]))
        >> u32x8::splat(16);
    let x = (x + s.cast::<u16>()).to_array();
    let y = (y + t.cast::<u16>()).to_array();
    let z = (z + u.cast::<u16>()).to_array();
    write_eight(x, y, z, colours);
}
