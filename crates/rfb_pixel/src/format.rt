//! True-colour pixel formats, RFC 6143 section 7.4.

ghost use Rattle.std.specs.Prelude.{◌≡◌, ℕ, ◌*◌, ◌+◌, ◌%◌, ◌^◌, ◌<◌, length, IfOk, ◌≤◌, List, ◌∷◌};
ghost use Rattle.std.specs.Prelude.{[]};
ghost use Rattle.std.specs.Result.{result_err};
ghost use Rattle.std.specs.Int.{bit_at};
ghost use Rattle.rfb_pixel.specs.Format.{pixel_format, IsPixelSize, size_of, pixel_of, colour_of};
ghost use Rattle.rfb_pixel.specs.Format.{pixel_bytes, pixel_number, seen_through};
ghost use Rattle.rfb_pixel.specs.Format.{IsColour, FieldsHold, IsOutsideFields, AgreeInFields};
ghost use Rattle.rfb_pixel.specs.Format.{KeepsFullFields, FieldsKept};
ghost use Rattle.rfb_pixel.specs.Format.{colour_of_bytes, pixel_of_bytes, seen_in_bytes};
ghost use Rattle.rfb_pixel.specs.FormatBytes.{AreBytes, Spells, Passes, IsFirstFault, first_fault};
ghost use Rattle.rfb_pixel.specs.FormatBytes.{fault_of_fields, format_bytes, number_at};
ghost use Rattle.rfb_pixel.specs.bits.Fields.{HasWidth};

use crate::channel::{Channel, are_apart, are_within};
use crate::colour::Colour;
use crate::fault::FormatFault;
use byteorder::{BigEndian, ByteOrder, LittleEndian};
use std::marker::Model;

/// How many bytes a PIXEL_FORMAT has.
pub const FORMAT_SIZE: usize = 16;

/// A true-colour pixel format: 8, 16 or 32 bits, with three fields for red, green and blue. Every
/// value is one that RFC 6143 allows; the fields lie in the pixel and share no bit.
#[derive(Clone, Copy, Debug, PartialEq, Eq)]
pub struct Format {
    bits_per_pixel: u8,
    depth: u8,
    big_endian: bool,
    red: Channel,
    green: Channel,
    blue: Channel,
}

impl Model for Format {
    ghost use Rattle.rfb_pixel.specs.Format.{PixelFormat, pixel_format, IsFormat};

    ghost Value = { PixelFormat };

    ghost view = { λ f. pixel_format f.bits_per_pixel f.depth f.big_endian f.red f.green f.blue };

    ghost invariant = { λ f.
        IsFormat (pixel_format f.bits_per_pixel f.depth f.big_endian f.red f.green f.blue) };

    ghost inverse = { λ f. record {
      bits_per_pixel = f.bits_per_pixel;
      depth = f.depth;
      big_endian = f.big_endian;
      red = f.red;
      green = f.green;
      blue = f.blue;
    } };
}

impl Format {
    ghost use Rattle.rfb_pixel.specs.declared.colour.Colour.{Colour};
    ghost use Rattle.rfb_pixel.specs.Format.{PixelFormat, IsFormat};
    ghost use Rattle.rfb_pixel.specs.Format.{rgb888, rgb565, bgr233, rgb101010};

    /// 32 bits, little-endian: eight bits each of red, green and blue at shifts 16, 8 and 0.
    /// A component is seen through it as the nearest multiple of 257.
    pub fn rgb888() -> Format
        ensures value { result ≡ rgb888 }
        ensures seen { (c : Colour) → IsColour c → seen_through result c ≡ seen_in_bytes c }
    {
        Format {
            bits_per_pixel: 32,
            depth: 24,
            big_endian: false,
            red: Channel {
                width: 8,
                shift: 16,
            },
            green: Channel { width: 8, shift: 8 },
            blue: Channel { width: 8, shift: 0 },
        }
    }

    /// 16 bits, little-endian: five bits of red, six of green and five of
    /// blue at shifts 11, 5 and 0.
    pub fn rgb565() -> Format
        ensures { result ≡ rgb565 }
    {
        Format {
            bits_per_pixel: 16,
            depth: 16,
            big_endian: false,
            red: Channel {
                width: 5,
                shift: 11,
            },
            green: Channel { width: 6, shift: 5 },
            blue: Channel { width: 5, shift: 0 },
        }
    }

    /// 8 bits: two bits of blue above three of green above three of red.
    pub fn bgr233() -> Format
        ensures { result ≡ bgr233 }
    {
        Format {
            bits_per_pixel: 8,
            depth: 8,
            big_endian: false,
            red: Channel { width: 3, shift: 0 },
            green: Channel { width: 3, shift: 3 },
            blue: Channel { width: 2, shift: 6 },
        }
    }

    /// 32 bits, little-endian: ten bits each of red, green and blue at shifts 20, 10 and 0.
    pub fn rgb101010() -> Format
        ensures value { result ≡ rgb101010 }
        ensures bytes { format_bytes result ≡ 32 ∷ 30 ∷ 0 ∷ 1 ∷ 3 ∷ 255 ∷ 3 ∷ 255 ∷ 3 ∷ 255
            ∷ 20 ∷ 10 ∷ 0 ∷ 0 ∷ 0 ∷ 0 ∷ [] }
    {
        Format {
            bits_per_pixel: 32,
            depth: 30,
            big_endian: false,
            red: Channel {
                width: 10,
                shift: 20,
            },
            green: Channel {
                width: 10,
                shift: 10,
            },
            blue: Channel {
                width: 10,
                shift: 0,
            },
        }
    }

    /// The format that a PIXEL_FORMAT is. A flag is true where it is not zero, depth is kept and
    /// compared with bits-per-pixel alone, and padding is ignored. The error is the first check
    /// that fails, in the order of `FormatFault`.
    pub fn read(bytes: &[u8; FORMAT_SIZE]) -> Result<Format, FormatFault>
        ensures found { IfOk result (λ f. Spells f bytes.now) }
        ensures fault { result_err result ≡ first_fault bytes.now }
    {
        let (bits_per_pixel, depth) = (bytes[0], bytes[1]);
        if !matches!(bits_per_pixel, 8 | 16 | 32) {
            return Err(FormatFault::BadBits);
        }
        if depth > bits_per_pixel {
            return Err(FormatFault::DepthTooLarge);
        }
        if bytes[3] == 0 {
            return Err(FormatFault::NotTrueColour);
        }
        let red = Channel::read(max_at(4, bytes), bytes[10])?;
        let green = Channel::read(max_at(6, bytes), bytes[11])?;
        let blue = Channel::read(max_at(8, bytes), bytes[12])?;
        Format::of_fields(bits_per_pixel, depth, bytes[2] != 0, red, green, blue)
    }

    /// A law about `first_fault`, with nothing to run. Where it is a fault, that one's check fails
    /// and each check before it passes; where it is none, every check passes.
    pub fn first_fault_is_of_the_first_check()
        ensures told { (bytes : List ℕ) (fault : FormatFault) → AreBytes bytes →
            first_fault bytes ≡ Some fault → IsFirstFault fault bytes }
        ensures none { (bytes : List ℕ) (fault : FormatFault) → AreBytes bytes →
            first_fault bytes ≡ None → Passes fault bytes }
    {}

    /// A law about `format_bytes`, with nothing to run: the bytes of a format encode it.
    pub fn bytes_of_a_format_spell_it()
        ensures { (f : PixelFormat) → IsFormat f → Spells f (format_bytes f) }
    {}

    /// A law about `pack` and `unpack`, with nothing to run: each field of a pixel value is what
    /// its colour is packed to again.
    pub fn fields_come_back_through_their_colour()
        ensures { (f : PixelFormat) (p : ℕ) → IsFormat f →
            FieldsKept f p (pixel_of f (colour_of f p)) }
    {}

    /// A law about `pack`, with nothing to run. A colour of components of eight bits, each 257
    /// times as much, has the pixel value of these bytes: each rounded into its field, out of 255.
    pub fn components_of_a_byte_keep_their_pixel()
        ensures { (f : PixelFormat) (r g b : ℕ) →
            pixel_of f (colour_of_bytes r g b) ≡ pixel_of_bytes f r g b }
    {}

    // A format of a red, a green and a blue field, if they lie in the pixel and share no bit.
    fn of_fields(
        bits_per_pixel: u8,
        depth: u8,
        big_endian: bool,
        red: Channel,
        green: Channel,
        blue: Channel,
    ) -> Result<Format, FormatFault>
        requires whole { IsPixelSize bits_per_pixel }
        requires deep { depth ≤ bits_per_pixel }
        requires red { HasWidth red }
        requires green { HasWidth green }
        requires blue { HasWidth blue }
        ensures found { IfOk result (λ f.
            f ≡ pixel_format bits_per_pixel depth big_endian red green blue) }
        ensures fault { result_err result ≡ fault_of_fields bits_per_pixel red green blue }
    {
        if !are_within(bits_per_pixel, red, green, blue) {
            return Err(FormatFault::ShiftTooLarge);
        }
        if !are_apart(red, green, blue) {
            return Err(FormatFault::FieldsOverlap);
        }
        Ok(Format {
            bits_per_pixel,
            depth,
            big_endian,
            red,
            green,
            blue,
        })
    }

    /// The PIXEL_FORMAT of this format, with flags of 0 or 1 and padding of zeros. `read` takes it,
    /// and gives this format back. Its contract also says that RFC 6143 allows the format.
    pub fn write(&self) -> [u8; FORMAT_SIZE]
        ensures format { IsFormat self.now }
        ensures value { result ≡ format_bytes self.now }
        ensures spells { Spells self.now result }
        ensures accepted { first_fault result ≡ None }
        ensures read_back { (f : PixelFormat) → Spells f result → f ≡ self.now }
    {
        let red = self.red.max_bytes();
        let green = self.green.max_bytes();
        let blue = self.blue.max_bytes();
        [
            self.bits_per_pixel,
            self.depth,
            u8::from(self.big_endian),
            1,
            red[0],
            red[1],
            green[0],
            green[1],
            blue[0],
            blue[1],
            self.red.shift,
            self.green.shift,
            self.blue.shift,
            0,
            0,
            0,
        ]
    }

    /// How many bytes a pixel has: 1, 2 or 4.
    #[inline]
    pub fn size(&self) -> usize
        ensures value { result ≡ size_of self.now }
        ensures some { 0 < result }
        ensures bound { result ≤ 4 }
    {
        self.bits_per_pixel as usize / 8
    }

    /// The pixel value of a colour. It fits the format's size, and bits outside
    /// the three fields are zero.
    #[inline(always)]
    pub fn pack(&self, colour: Colour) -> u32
        ensures value { result ≡ pixel_of self.now colour }
        ensures fields { FieldsHold self.now colour result }
        ensures outside { (i : ℕ) → IsOutsideFields self.now i → bit_at result i ≡ 0 }
        ensures exact { KeepsFullFields self.now colour (colour_of self.now result) }
        ensures bound { result < 2 ^ (8 * size_of self.now) }
    {
        self.red.place(colour.r) | self.green.place(colour.g) | self.blue.place(colour.b)
    }

    /// The colour of a pixel value. Bits outside the three fields are ignored.
    #[inline(always)]
    pub fn unpack(&self, pixel: u32) -> Colour
        ensures value { result ≡ colour_of self.now pixel }
        ensures ignored { (other : ℕ) → AgreeInFields self.now pixel other →
            result ≡ colour_of self.now other }
    {
        Colour {
            r: self.red.component(pixel),
            g: self.green.component(pixel),
            b: self.blue.component(pixel),
        }
    }

    /// Writes a pixel value as the format's bytes, in its byte order. Bits above them are dropped.
    pub fn put(&self, pixel: u32, bytes: &mut [u8])
        requires { length bytes.old ≡ size_of self.now }
        ensures value { bytes.new ≡ pixel_bytes self.now pixel }
        ensures low_bits { pixel_number self.now bytes.new ≡ pixel % 2 ^ (8 * size_of self.now) }
    {
        match (self.bits_per_pixel, self.big_endian) {
            (8, _) => bytes[0] = (pixel & 0xFF) as u8,
            (16, true) => BigEndian::write_u16(bytes, (pixel & 0xFFFF) as u16),
            (16, false) => LittleEndian::write_u16(bytes, (pixel & 0xFFFF) as u16),
            (_, true) => BigEndian::write_u32(bytes, pixel),
            (_, false) => LittleEndian::write_u32(bytes, pixel),
        }
    }

    /// The pixel value in the format's bytes, in its byte order.
    #[inline]
    pub fn take(&self, bytes: &[u8]) -> u32
        requires { length bytes.now ≡ size_of self.now }
        ensures { result ≡ pixel_number self.now bytes.now }
    {
        match (self.bits_per_pixel, self.big_endian) {
            (8, _) => u32::from(bytes[0]),
            (16, true) => u32::from(BigEndian::read_u16(bytes)),
            (16, false) => u32::from(LittleEndian::read_u16(bytes)),
            (_, true) => BigEndian::read_u32(bytes),
            (_, false) => LittleEndian::read_u32(bytes),
        }
    }
}

// The maximum of a field: the two bytes that begin at `at`, the high one first.
fn max_at(at: usize, bytes: &[u8; FORMAT_SIZE]) -> u16
    requires { at + 2 ≤ 16 }
    ensures { result ≡ number_at at bytes.now }
{
    BigEndian::read_u16(&bytes[at..])
}

mod rows;
#[cfg(test)]
mod tests;
