//! Eight pixels of rgb565 at once.

ghost use Rattle.std.specs.Prelude.{◌≡◌, ◌*◌, ◌^◌, ◌<◌, ℕ, drop, length, map, slice_index};
ghost use Rattle.std.specs.Prelude.{slice_index_or};
ghost use Rattle.byteorder.specs.Endian.{little_number};
ghost use Rattle.rfb_pixel.specs.declared.colour.Colour.{Colour};
ghost use Rattle.rfb_pixel.specs.Format.{AreColours, pixel_of, rgb565};
ghost use Rattle.rfb_pixel.specs.bits.Lanes.{colours_in};

use crate::colour::Colour;
use crate::lanes::{read_eight, write_eight};
use std::simd::{u8x16, u16x8, u32x8};

// The factors, in 65,536ths, that make a component a field of five or of six bits in the upper bits
// of a lane.
const FIVE: u32 = 63_489;

const SIX: u32 = 64_513;

/// The pixel values of eight colours in rgb565.
#[inline(always)]
pub fn pack_eight_rgb565(colours: &[Colour]) -> u32x8
    requires { length colours.now ≡ 8 }
    ensures value { (k : ℕ) (d : Colour) → k < 8 →
        slice_index result k ≡ pixel_of rgb565 (slice_index_or colours.now k d) }
    ensures bound { (k : ℕ) → k < 8 → slice_index result k < 2 ^ 16 }
    ensures len { length result ≡ 8 }
{
    let (x, y, z) = read_eight(colours);
    pixels_of(&x, &y, &z)
}

// The same of eight colours whose components follow one another.
#[inline(always)]
fn pixels_of(x: &[u16], y: &[u16], z: &[u16]) -> u32x8
    requires x { length x.now ≡ 8 }
    requires y { length y.now ≡ 8 }
    requires z { length z.now ≡ 8 }
    ensures value { result ≡ map (pixel_of rgb565) (colours_in x.now y.now z.now) }
    ensures bound { (k : ℕ) → k < 8 → slice_index result k < 2 ^ 16 }
{
    let x = u16x8::from_array([x[0], x[1], x[2], x[3], x[4], x[5], x[6], x[7]]).cast::<u32>();
    let y = u16x8::from_array([y[0], y[1], y[2], y[3], y[4], y[5], y[6], y[7]]).cast::<u32>();
    let z = u16x8::from_array([z[0], z[1], z[2], z[3], z[4], z[5], z[6], z[7]]).cast::<u32>();
    // Each field in the upper bits of a lane, rounded by the bits below it.
    let x = (x * u32x8::from_array([FIVE, SIX, FIVE, FIVE, SIX, FIVE, FIVE, SIX]))
        >> u32x8::splat(16);
    let y = (y * u32x8::from_array([FIVE, FIVE, SIX, FIVE, FIVE, SIX, FIVE, FIVE]))
        >> u32x8::splat(16);
    let z = (z * u32x8::from_array([SIX, FIVE, FIVE, SIX, FIVE, FIVE, SIX, FIVE]))
        >> u32x8::splat(16);
    let x = x.cast::<u16>() + u16x8::from_array([1024, 512, 1024, 1024, 512, 1024, 1024, 512]);
    let y = y.cast::<u16>() + u16x8::from_array([1024, 1024, 512, 1024, 1024, 512, 1024, 1024]);
    let z = z.cast::<u16>() + u16x8::from_array([512, 1024, 1024, 512, 1024, 1024, 512, 1024]);
    // Reds 0, 3, 6, 1, 4, 7, 2 and 5, greens from 5 on in this order, and blues from 2 on.
    let red = x
        .shuffle(y, [0, 9, 0, 3, 12, 0, 6, 15])
        .shuffle(z, [0, 1, 10, 3, 4, 13, 6, 7]);
    let green = x
        .shuffle(y, [0, 1, 10, 0, 4, 13, 0, 7])
        .shuffle(z, [8, 1, 2, 11, 4, 5, 14, 7]);
    let blue = x
        .shuffle(y, [8, 0, 2, 11, 0, 5, 14, 0])
        .shuffle(z, [0, 9, 2, 3, 12, 5, 6, 15]);
    // In order, each at its place in the pixel.
    let red = ((red >> u16x8::splat(11)) * u16x8::splat(2048)).swizzle([0, 3, 6, 1, 4, 7, 2, 5]);
    let green = ((green >> u16x8::splat(10)) * u16x8::splat(32)).swizzle([1, 4, 7, 2, 5, 0, 3, 6]);
    let blue = (blue >> u16x8::splat(11)).swizzle([2, 5, 0, 3, 6, 1, 4, 7]);
    (red + green + blue).cast::<u32>()
}

/// Writes the colours of eight pixels of rgb565.
#[inline(always)]
pub fn unpack_eight_rgb565(bytes: &[u8], colours: &mut [Colour])
    requires bytes { length bytes.now ≡ 16 }
    requires colours { length colours.old ≡ 8 }
    ensures value { AreColours rgb565 bytes.now colours.new }
    ensures len { length colours.new ≡ 8 }
{
    let [a, b, c, d, e, f, g, h] = numbers_of(bytes);
    let x = u16x8::from_array([a, a, a, b, b, b, c, c]);
    let y = u16x8::from_array([c, d, d, d, e, e, e, f]);
    let z = u16x8::from_array([f, f, g, g, g, h, h, h]);
    // Each field at its place in the pixel.
    let x = x & u16x8::from_array([65_535, 2047, 31, 65_535, 2047, 31, 65_535, 2047]);
    let y = y & u16x8::from_array([31, 65_535, 2047, 31, 65_535, 2047, 31, 65_535]);
    let z = z & u16x8::from_array([2047, 31, 65_535, 2047, 31, 65_535, 2047, 31]);
    let x = x - (x & u16x8::from_array([2047, 31, 0, 2047, 31, 0, 2047, 31]));
    let y = y - (y & u16x8::from_array([0, 2047, 31, 0, 2047, 31, 0, 2047]));
    let z = z - (z & u16x8::from_array([31, 0, 2047, 31, 0, 2047, 31, 0]));
    // Its component is a product in whole numbers, and one in 65,536ths.
    let s = (x + u16x8::from_array([0, 1, 0, 0, 1, 0, 0, 1])).cast::<u32>();
    let t = (y + u16x8::from_array([0, 0, 1, 0, 0, 1, 0, 0])).cast::<u32>();
    let u = (z + u16x8::from_array([1, 0, 0, 1, 0, 0, 1, 0])).cast::<u32>();
    let s = (s * u32x8::from_array([2114, 33_255, 4096, 2114, 33_255, 4096, 2114, 33_255]))
        >> u32x8::splat(16);
    let t = (t * u32x8::from_array([4096, 2114, 33_255, 4096, 2114, 33_255, 4096, 2114]))
        >> u32x8::splat(16);
    let u = (u * u32x8::from_array([33_255, 4096, 2114, 33_255, 4096, 2114, 33_255, 4096]))
        >> u32x8::splat(16);
    let x = x * u16x8::from_array([1, 32, 2114, 1, 32, 2114, 1, 32]) + s.cast::<u16>();
    let y = y * u16x8::from_array([2114, 1, 32, 2114, 1, 32, 2114, 1]) + t.cast::<u16>();
    let z = z * u16x8::from_array([32, 2114, 1, 32, 2114, 1, 32, 2114]) + u.cast::<u16>();
    write_eight(x.to_array(), y.to_array(), z.to_array(), colours);
}

// The eight numbers of two bytes each, the lowest byte first.
#[inline(always)]
fn numbers_of(bytes: &[u8]) -> [u16; 8]
    requires { length bytes.now ≡ 16 }
    ensures value { (k : ℕ) → k < 8 →
        slice_index result k ≡ little_number 2 (drop (2 * k) bytes.now) }
    ensures bound { (k : ℕ) → slice_index result k < 65536 }
{
    u16x8::from_le_bytes(u8x16::from_slice(bytes)).to_array()
}
