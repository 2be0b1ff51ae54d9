//! The Raw encoder, RFC 6143 section 7.7.1.

ghost use Rattle.std.specs.Prelude.{refl, ◌≡◌, ◌+◌, ◌*◌, ◌<◌, ◌≤◌, ◌++◌, length, vec_len, pos};
ghost use Rattle.std.specs.Prelude.{IsTrue};
ghost use Rattle.std.specs.List.{flat_map};
ghost use Rattle.std.specs.Bool.{OnTrue, OnFalse};
ghost use Rattle.std.specs.Vec.{vec_capacity};
ghost use Rattle.rfb_pixel.specs.Format.{size_of, pixel_bytes};
ghost use Rattle.rfb_codec.specs.Pixels.{HasPixels};
ghost use Rattle.rfb_codec.specs.Raw.{StandsRaw};
ghost use Rattle.rfb_wire.specs.declared.encoding.Encoding.TheVariants.{Raw as RawEncoding};
ghost use Rattle.rfb_codec.specs.ByRule.{GivesUp};
ghost use Rattle.rfb_codec.specs.Codec.{Appends, raw_of, shortens};

use crate::block::Block;
use crate::codec::Codec;
use byteorder::{ByteOrder, LittleEndian};
use rfb_pixel::Format;
use rfb_wire::pieces::append_within;

// How many pixels are appended at once.
const PIECE: usize = 64;

/// Raw: the pixels row by row from the top, each row from the left. Every block can be sent so.
#[derive(Clone, Copy, Debug, PartialEq, Eq)]
pub struct Raw;

impl Codec for Raw {
    ghost stands = { StandsRaw };

    ghost encoding = { RawEncoding };

    ghost NUMBER = { pos 0 };

    ghost numbered = { refl };

    ghost read_back = { λ f width height rect block bytes sized stands. (sized, stands) };

    ghost by_rule = { λ f block bytes stands. stands };

    const NUMBER: i32 = 0;

    fn encode(block: &Block, format: &Format, out: &mut Vec<u8>) -> bool
        requires pixels { HasPixels format.now block.now }
        requires room { vec_len out.old + raw_of format.now block.now ≤ vec_capacity out.old }

        ensures always { IsTrue result }
        ensures spelled { OnTrue result
            (Appends StandsRaw format.now block.now out.old.items out.new.items) }
        ensures shorter { OnTrue (shortens RawEncoding)
            (OnTrue result (vec_len out.new < vec_len out.old + raw_of format.now block.now)) }
        ensures given_up { OnFalse result (GivesUp RawEncoding format.now block.now) }
        ensures taken { OnTrue result (GivesUp RawEncoding format.now block.now → ⊥) }
        ensures kept { OnFalse result (out.new.items ≡ out.old.items) }
        ensures room { vec_capacity out.new ≡ vec_capacity out.old }
    {
        let pixels = block.pixels();
        let mut start = 0;
        while start < pixels.len() {
            let end = pixels.len().min(start + PIECE);
            append_pixels(out, format, &pixels[start..end]);
            start = end;
        }
        true
    }
}

// Appends a piece of the pixels.
fn append_pixels(out: &mut Vec<u8>, format: &Format, pixels: &[u32])
    requires few { length pixels.now ≤ PIECE }
    requires room { vec_len out.old
        + length pixels.now * size_of format.now ≤ vec_capacity out.old }
    ensures items { out.new.items ≡ out.old.items ++ flat_map (pixel_bytes format.now) pixels.now }
    ensures len { vec_len out.new ≡ vec_len out.old + length pixels.now * size_of format.now }
    ensures room { vec_capacity out.new ≡ vec_capacity out.old }
{
    let mut bytes = [0; 4 * PIECE];
    let length = pixels.len() * format.size();
    put_pixels(format, pixels, &mut bytes[..length]);
    append_within(out, &bytes[..length]);
}

/// Writes the bytes of each pixel. Those of the format that most screens are sent in are 32 bits,
/// the lowest byte first, which is how they lie in memory: they are copied as they are. Each other
/// format that this project announces has a loop by a format that is known before it runs.
pub fn put_pixels(format: &Format, pixels: &[u32], bytes: &mut [u8])
    requires { length bytes.old ≡ length pixels.now * size_of format.now }
    ensures { bytes.new ≡ flat_map (pixel_bytes format.now) pixels.now }
{
    if *format == Format::rgb888() {
        LittleEndian::write_u32_into(pixels, bytes);
    } else if *format == Format::rgb565() {
        put_each(&Format::rgb565(), pixels, bytes);
    } else if *format == Format::bgr233() {
        put_each(&Format::bgr233(), pixels, bytes);
    } else {
        put_each(format, pixels, bytes);
    }
}

// The same, by one loop for every format.
#[inline(always)]
fn put_each(format: &Format, pixels: &[u32], bytes: &mut [u8])
    requires { length bytes.old ≡ length pixels.now * size_of format.now }
    ensures { bytes.new ≡ flat_map (pixel_bytes format.now) pixels.now }
{
    // A copy, which no byte that is written can change: what it alone decides stays the same.
    let kept = *format;
    let size = format.size();
    for i in 0..pixels.len() {
        kept.put(pixels[i], &mut bytes[i * size..i * size + size]);
    }
}

#[cfg(test)]
mod tests;
