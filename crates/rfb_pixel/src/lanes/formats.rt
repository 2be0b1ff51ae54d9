//! The formats that have lanes, by number, so that one loop serves for each of them and is compiled
//! for each.

ghost use Rattle.std.specs.Prelude.{◌≡◌, ◌*◌, ◌^◌, ◌<◌, ℕ, length, slice_index, slice_index_or};
ghost use Rattle.rfb_pixel.specs.declared.colour.Colour.{Colour};
ghost use Rattle.rfb_pixel.specs.Format.{AreColours, pixel_of, size_of};
ghost use Rattle.rfb_pixel.specs.bits.Lanes.{laned};

use crate::colour::Colour;
use crate::format::Format;
use crate::lanes::bgr233::{pack_eight_bgr233, unpack_eight_bgr233};
use crate::lanes::rgb565::{pack_eight_rgb565, unpack_eight_rgb565};
use crate::lanes::rgb888::{pack_eight_rgb888, unpack_eight_rgb888};
use std::simd::u32x8;

pub const RGB888: usize = 0;

pub const RGB565: usize = 1;

pub const BGR233: usize = 2;

/// The format of that number.
#[inline(always)]
pub fn laned<const NUMBER: usize>() -> Format
    ensures { result ≡ laned NUMBER }
{
    if NUMBER == RGB888 {
        Format::rgb888()
    } else if NUMBER == RGB565 {
        Format::rgb565()
    } else {
        Format::bgr233()
    }
}

/// How many bytes its pixels have.
#[inline(always)]
pub fn laned_size<const NUMBER: usize>() -> usize
    ensures { result ≡ size_of (laned NUMBER) }
{
    if NUMBER == RGB888 {
        4
    } else if NUMBER == RGB565 {
        2
    } else {
        1
    }
}

/// The pixel values of eight colours in it.
#[inline(always)]
pub fn pack_eight<const NUMBER: usize>(colours: &[Colour]) -> u32x8
    requires { length colours.now ≡ 8 }
    ensures value { (k : ℕ) (d : Colour) → k < 8 →
        slice_index result k ≡ pixel_of (laned NUMBER) (slice_index_or colours.now k d) }
    ensures bound { (k : ℕ) → k < 8 → slice_index result k < 2 ^ (8 * size_of (laned NUMBER)) }
    ensures len { length result ≡ 8 }
{
    if NUMBER == RGB888 {
        pack_eight_rgb888(colours)
    } else if NUMBER == RGB565 {
        pack_eight_rgb565(colours)
    } else {
        pack_eight_bgr233(colours)
    }
}

/// Writes the colours of eight of its pixels.
#[inline(always)]
pub fn unpack_eight<const NUMBER: usize>(bytes: &[u8], colours: &mut [Colour])
    requires bytes { length bytes.now ≡ 8 * size_of (laned NUMBER) }
    requires colours { length colours.old ≡ 8 }
    ensures value { AreColours (laned NUMBER) bytes.now colours.new }
    ensures len { length colours.new ≡ 8 }
{
    if NUMBER == RGB888 {
        unpack_eight_rgb888(bytes, colours);
    } else if NUMBER == RGB565 {
        unpack_eight_rgb565(bytes, colours);
    } else {
        unpack_eight_bgr233(bytes, colours);
    }
}
