//! Eight pixels of a row at once, in the formats that most viewers ask for.

ghost use Rattle.std.specs.Prelude.{◌≡◌, ◌*◌, ◌<◌, ℕ, drop, length, slice_index};
ghost use Rattle.byteorder.specs.Endian.{little_number};
ghost use Rattle.rfb_pixel.specs.declared.colour.Colour.{Colour};
ghost use Rattle.rfb_pixel.specs.bits.Lanes.{colours_in};

use crate::colour::Colour;
use std::simd::{u8x16, u16x8};

mod bgr233;
mod formats;
mod rgb565;
mod rgb888;
mod widening;

pub use formats::{BGR233, RGB565, RGB888, laned, laned_size, pack_eight, unpack_eight};
pub use widening::widen_eight;

/// How many pixels are taken at once.
pub const LANES: usize = 8;

// The components of eight colours, one after another.
#[inline(always)]
fn read_eight(colours: &[Colour]) -> ([u16; 8], [u16; 8], [u16; 8])
    requires { length colours.now ≡ 8 }
    ensures { colours_in result.0 result.1 result.2 ≡ colours.now }
{
    let (a, b, c, d) = (colours[0], colours[1], colours[2], colours[3]);
    let (e, f, g, h) = (colours[4], colours[5], colours[6], colours[7]);
    (
        [a.r, a.g, a.b, b.r, b.g, b.b, c.r, c.g],
        [c.b, d.r, d.g, d.b, e.r, e.g, e.b, f.r],
        [f.g, f.b, g.r, g.g, g.b, h.r, h.g, h.b],
    )
}

// Writes the eight colours whose components follow one another.
#[inline(always)]
fn write_eight(x: [u16; 8], y: [u16; 8], z: [u16; 8], colours: &mut [Colour])
    requires { length colours.old ≡ 8 }
    ensures { colours.new ≡ colours_in x y z }
{
    colours[0] = colour(x[0], x[1], x[2]);
    colours[1] = colour(x[3], x[4], x[5]);
    colours[2] = colour(x[6], x[7], y[0]);
    colours[3] = colour(y[1], y[2], y[3]);
    colours[4] = colour(y[4], y[5], y[6]);
    colours[5] = colour(y[7], z[0], z[1]);
    colours[6] = colour(z[2], z[3], z[4]);
    colours[7] = colour(z[5], z[6], z[7]);
}

// Eight components of two bytes each, the lower byte first.
#[inline(always)]
fn components_of(bytes: u8x16) -> [u16; 8]
    ensures { (k : ℕ) → k < 8 → slice_index result k ≡ little_number 2 (drop (2 * k) bytes) }
{
    u16x8::from_le_bytes(bytes).to_array()
}

// The prover reads from its contract that a component read of an array is one.
#[inline(always)]
fn colour(r: u16, g: u16, b: u16) -> Colour
    ensures { result ≡ record { r = r; g = g; b = b } }
{
    Colour { r, g, b }
}
