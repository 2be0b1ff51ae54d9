//! Eight pixels of rgb888 at once.

ghost use Rattle.std.specs.Prelude.{◌≡◌, ◌*◌, ◌^◌, ◌<◌, ℕ, drop, length, map, slice_index};
ghost use Rattle.std.specs.Prelude.{slice_index_or};
ghost use Rattle.byteorder.specs.Endian.{little_number};
ghost use Rattle.rfb_pixel.specs.declared.colour.Colour.{Colour};
ghost use Rattle.rfb_pixel.specs.Format.{AreColours, pixel_of, rgb888};
ghost use Rattle.rfb_pixel.specs.bits.Lanes.{colours_in};

use crate::colour::Colour;
use crate::lanes::{components_of, read_eight, write_eight};
use std::simd::{u8x16, u8x32, u16x8, u32x8};

/// Writes the colours of eight pixels of rgb888. A component has its byte twice.
#[inline(always)]
pub fn unpack_eight_rgb888(bytes: &[u8], colours: &mut [Colour])
    requires bytes { length bytes.now ≡ 32 }
    requires colours { length colours.old ≡ 8 }
    ensures value { AreColours rgb888 bytes.now colours.new }
    ensures len { length colours.new ≡ 8 }
{
    let front = u8x16::from_slice(bytes);
    let middle = u8x16::from_slice(&bytes[8..]);
    let back = u8x16::from_slice(&bytes[16..]);
    let x = components_of(front.swizzle([2, 2, 1, 1, 0, 0, 6, 6, 5, 5, 4, 4, 10, 10, 9, 9]));
    let y = components_of(middle.swizzle([0, 0, 6, 6, 5, 5, 4, 4, 10, 10, 9, 9, 8, 8, 14, 14]));
    let z = components_of(back.swizzle([5, 5, 4, 4, 10, 10, 9, 9, 8, 8, 14, 14, 13, 13, 12, 12]));
    write_eight(x, y, z, colours);
}

/// The pixel values of eight colours in rgb888.
#[inline(always)]
pub fn pack_eight_rgb888(colours: &[Colour]) -> u32x8
    requires { length colours.now ≡ 8 }
    ensures value { (k : ℕ) (d : Colour) → k < 8 →
        slice_index result k ≡ pixel_of rgb888 (slice_index_or colours.now k d) }
    ensures bound { (k : ℕ) → k < 8 → slice_index result k < 2 ^ 32 }
    ensures len { length result ≡ 8 }
{
    let (x, y, z) = read_eight(colours);
    pixels_of(&x, &y, &z)
}

// The same of eight colours whose components follow one another.
#[inline(always)]
fn pixels_of(x: &[u16], y: &[u16], z: &[u16]) -> u32x8
    requires x { length x.now ≡ 8 }
    requires y { length y.now ≡ 8 }
    requires z { length z.now ≡ 8 }
    ensures value { result ≡ map (pixel_of rgb888) (colours_in x.now y.now z.now) }
    ensures bound { (k : ℕ) → k < 8 → slice_index result k < 2 ^ 32 }
{
    let x = u16x8::from_array([x[0], x[1], x[2], x[3], x[4], x[5], x[6], x[7]]).cast::<u32>();
    let y = u16x8::from_array([y[0], y[1], y[2], y[3], y[4], y[5], y[6], y[7]]).cast::<u32>();
    let z = u16x8::from_array([z[0], z[1], z[2], z[3], z[4], z[5], z[6], z[7]]).cast::<u32>();
    // Each component times 65,281 / 65,536, plus 128: the upper byte is the nearest one.
    let (factor, down, half) = (u32x8::splat(65_281), u32x8::splat(16), u16x8::splat(128));
    let byte = u16x8::splat(8);
    let x = ((((x * factor) >> down).cast::<u16>() + half) >> byte).cast::<u8>();
    let y = ((((y * factor) >> down).cast::<u16>() + half) >> byte).cast::<u8>();
    let z = ((((z * factor) >> down).cast::<u16>() + half) >> byte).cast::<u8>();
    let front = x.shuffle(y, [0, 1, 2, 3, 4, 5, 6, 7, 8, 9, 10, 11, 12, 13, 14, 15]);
    let back = y.shuffle(z, [0, 1, 2, 3, 4, 5, 6, 7, 8, 9, 10, 11, 12, 13, 14, 15]);
    // Blue, green, red and a byte of zero, pixel by pixel.
    let none = u8x16::splat(0);
    let front = front.shuffle(none, [2, 1, 0, 16, 5, 4, 3, 16, 8, 7, 6, 16, 11, 10, 9, 16]);
    let back = back.shuffle(
        none,
        [6, 5, 4, 16, 9, 8, 7, 16, 12, 11, 10, 16, 15, 14, 13, 16],
    );
    numbers_of(front.shuffle(
        back,
        [
            0, 1, 2, 3, 4, 5, 6, 7, 8, 9, 10, 11, 12, 13, 14, 15, 16, 17, 18, 19, 20, 21, 22, 23,
            24, 25, 26, 27, 28, 29, 30, 31,
        ],
    ))
}

// Eight numbers of four bytes each, the lowest byte first.
#[inline(always)]
fn numbers_of(bytes: u8x32) -> u32x8
    ensures value { (k : ℕ) → k < 8 → slice_index result k ≡ little_number 4 (drop (4 * k) bytes) }
    ensures len { length result ≡ 8 }
{
    u32x8::from_le_bytes(bytes)
}
