//! One component's field in a pixel value, and the conversion between components and fields.

ghost use Rattle.std.specs.Prelude.{◌≡◌, ◌*◌, ◌^◌, ◌<◌, ◌≤◌, ◌+◌, ◌-◌, OnErr, IfOk, if◌then◌else◌};
ghost use Rattle.byteorder.specs.Endian.{big_bytes};
ghost use Rattle.rfb_pixel.specs.Channel.{IsField, IsMax, IsMaxOf, max_of, width_of, is_max};
ghost use Rattle.rfb_pixel.specs.Channel.{rescaled, field_for, component_in};
ghost use Rattle.rfb_pixel.specs.Channel.{is_apart, are_within, are_apart};

use crate::colour::COMPONENT_MAX;
use crate::fault::FormatFault;

/// Where a component is in a pixel value: `width` bits, with `shift` bits below them.
#[derive(Clone, Copy, Debug, PartialEq, Eq)]
pub struct Channel {
    pub width: u8,
    pub shift: u8,
}

impl Channel {
    /// The field of a maximum and a shift. `BadMax` where the maximum is not 2^N - 1 with N from 1
    /// to 16.
    pub fn read(max: u16, shift: u8) -> Result<Channel, FormatFault>
        ensures value { result ≡ if is_max max
            then Ok (record { width = width_of max; shift = shift }) else Err FormatFault.BadMax }
        ensures maximum { IfOk result (λ c. IsMaxOf max c.width) }
        ensures refused { OnErr result (IsMax max → ⊥) }
    {
        let width = max.count_ones();
        let is_max = max != 0 && u32::from(max) == (1 << width) - 1;
        if !is_max {
            return Err(FormatFault::BadMax);
        }
        Ok(Channel {
            width: width as u8,
            shift,
        })
    }

    /// The first bit above the field.
    fn end(self) -> u32
        ensures { result ≡ self.shift + self.width }
    {
        u32::from(self.shift) + u32::from(self.width)
    }

    /// The greatest value of the field, as red-max is of the red one.
    #[inline(always)]
    fn max(self) -> u32
        requires { IsField 32 self }
        ensures value { result ≡ max_of self }
        ensures some { 0 < result }
        ensures bound { result < 2 ^ 16 }
    {
        (1 << self.width) - 1
    }

    /// The maximum in two bytes, the high one first.
    pub fn max_bytes(self) -> [u8; 2]
        requires { IsField 32 self }
        ensures { result ≡ big_bytes 2 (max_of self) }
    {
        (self.max() as u16).to_be_bytes()
    }

    /// A pixel value with this component in the field, and no other bit.
    #[inline(always)]
    pub fn place(self, component: u16) -> u32
        requires { IsField 32 self }
        ensures { result ≡ field_for self component * 2 ^ self.shift }
    {
        narrow(component, self.max()) << self.shift
    }

    /// The component that the field shows in a pixel value. The other bits are not looked at.
    #[inline(always)]
    pub fn component(self, pixel: u32) -> u16
        requires { IsField 32 self }
        ensures { result ≡ component_in self pixel }
    {
        let max = self.max();
        let held = (pixel >> self.shift) & max;
        if self.width <= WIDEST {
            widen(self.width, held)
        } else {
            rescale(held, max, COMPONENT_MAX) as u16
        }
    }
}

/// Whether the three fields lie in a pixel of `bits_per_pixel` bits.
pub fn are_within(bits_per_pixel: u8, red: Channel, green: Channel, blue: Channel) -> bool
    ensures value { result ≡ are_within bits_per_pixel red green blue }
{
    let bits = u32::from(bits_per_pixel);
    red.end() <= bits && green.end() <= bits && blue.end() <= bits
}

/// Whether no two of the three fields share a bit. One ends where the other begins, or below.
pub fn are_apart(red: Channel, green: Channel, blue: Channel) -> bool
    ensures value { result ≡ are_apart red green blue }
{
    is_apart(red, green) && is_apart(red, blue) && is_apart(green, blue)
}

fn is_apart(a: Channel, b: Channel) -> bool
    ensures { result ≡ is_apart a b }
{
    a.end() <= u32::from(b.shift) || b.end() <= u32::from(a.shift)
}

/// A component as the nearest value of a field with this maximum.
#[inline(always)]
fn narrow(component: u16, max: u32) -> u32
    requires { max < 2 ^ 16 }
    ensures value { result ≡ rescaled COMPONENT_MAX max component }
    ensures bound { result ≤ max }
{
    // The sum by `COMPONENT_MAX`, which is 2^16 - 1, without a division.
    let sum = u32::from(component) * max + 32_767;
    (sum + (sum >> 16) + 1) >> 16
}

/// A value out of `0..=from` as the nearest out of `0..=to`.
fn rescale(value: u32, from: u32, to: u32) -> u32
    requires some { 0 < from }
    requires narrow { from < 2 ^ 16 }
    requires to { to < 2 ^ 16 }
    requires value { value ≤ from }
    ensures value { result ≡ rescaled from to value }
    ensures bound { result ≤ to }
{
    (value * to + (from - 1) / 2) / from
}

// The widest field that has a factor.
const WIDEST: u8 = 10;

// The factors, in 65,536ths, that make a value of a field a component, rounded to the nearest: one
// for each width of a field, from 0 on.
const FACTORS: [u32; 11] = [
    0,
    4_294_901_760,
    1_431_633_920,
    613_557_394,
    286_326_784,
    138_545_218,
    68_173_044,
    33_818_124,
    16_842_752,
    8_404_896,
    4_198_340,
];

/// A value of a field of 1 to 10 bits as the nearest component. It is what `rescale` gives for each
/// of them, without a division.
#[inline(always)]
fn widen(width: u8, value: u32) -> u16
    requires some { 1 ≤ width }
    requires few { width ≤ 10 }
    requires value { value < 2 ^ width }
    ensures { result ≡ rescaled (2 ^ width - 1) COMPONENT_MAX value }
{
    ((value * FACTORS[usize::from(width)] + 32_768) >> 16) as u16
}

#[cfg(test)]
mod tests;
