//! The RRE encoder, RFC 6143 section 7.7.3.

ghost use Rattle.std.specs.Prelude.{refl, ◌≡◌, ◌+◌, ◌*◌, ◌<◌, ◌≤◌, ◌++◌, length, vec_len, pos};
ghost use Rattle.std.specs.List.{flat_map};
ghost use Rattle.std.specs.Bool.{OnTrue, OnFalse};
ghost use Rattle.std.specs.Vec.{vec_capacity};
ghost use Rattle.byteorder.specs.Endian.{big_bytes};
ghost use Rattle.rfb_pixel.specs.Format.{size_of, pixel_bytes};
ghost use Rattle.rfb_wire.specs.Fields.{rect_bytes};
ghost use Rattle.rfb_codec.specs.Pixels.{HasPixels};
ghost use Rattle.rfb_codec.specs.Choice.{StandsRreByRule, IsNoShorter, subrect_bytes};
ghost use Rattle.rfb_wire.specs.declared.encoding.Encoding.TheVariants.{Rre as RreEncoding};
ghost use Rattle.rfb_codec.specs.Codec.{Appends, raw_of};
ghost use Rattle.rfb_codec.specs.encoder.Palette.{HasPalette};
ghost use Rattle.rfb_codec.specs.declared.choice.palette.Palette.TheVariants.{One};

use crate::block::Block;
use crate::choice::cover::cover;
use crate::choice::palette::{Palette, background_in, palette_of};
use crate::codec::Codec;
use crate::subrect::Subrect;
use arrayvec::ArrayVec;
use byteorder::{BigEndian, ByteOrder};
use rfb_picture::Rect;
use rfb_pixel::Format;
use rfb_wire::pieces::append_within;

// Blocks of up to this number of places are encoded with a small list of subrectangles.
const SMALL: usize = 256;

// A third of the places of a small block. More subrectangles are no shorter than Raw: each is at
// least as long as three pixels of four bytes.
const FEW: usize = 86;

const MANY: usize = 1366;

/// RRE: the number of subrectangles and the background, then each subrectangle, as the rule chooses
/// them. It gives up a block whose data would not be shorter than Raw, and no other.
#[derive(Clone, Copy, Debug, PartialEq, Eq)]
pub struct Rre;

impl Codec for Rre {
    ghost stands = { λ f block bytes. StandsRreByRule f block bytes };

    ghost encoding = { RreEncoding };

    ghost NUMBER = { pos 2 };

    ghost numbered = { refl };

    ghost read_back = { λ f width height rect block bytes sized stands. (sized, stands.stands) };

    ghost by_rule = { λ f block bytes stands. stands };

    const NUMBER: i32 = 2;

    fn encode(block: &Block, format: &Format, out: &mut Vec<u8>) -> bool {
        if block.pixels().len() <= SMALL {
            encode_with::<FEW>(block, format, out)
        } else {
            encode_with::<MANY>(block, format, out)
        }
    }
}

// The same, with a list of up to N subrectangles.
fn encode_with<const N: usize>(block: &Block, format: &Format, out: &mut Vec<u8>) -> bool
    requires places { length block.now.places ≤ 3 * N }
    requires list { N ≤ MANY }
    requires pixels { HasPixels format.now block.now }
    requires room { vec_len out.old + raw_of format.now block.now ≤ vec_capacity out.old }

    ensures spelled { OnTrue result
        (Appends (λ f block bytes. StandsRreByRule f block bytes)
        format.now block.now out.old.items out.new.items) }
    ensures shorter { OnTrue result
        (vec_len out.new < vec_len out.old + raw_of format.now block.now) }
    ensures given_up { OnFalse result (IsNoShorter format.now block.now) }
    ensures kept { OnFalse result (out.new.items ≡ out.old.items) }
    ensures room { vec_capacity out.new ≡ vec_capacity out.old }
{
    let pixels = block.pixels();
    let (width, height) = (usize::from(block.width()), usize::from(block.height()));
    let size = format.size();
    let raw = height * width * size;
    // More subrectangles than that are as long as Raw by themselves, and each pixel but the
    // background needs one.
    let limit = raw / (size + 8);
    let palette = palette_of(pixels);
    if let Palette::One(pixel) = palette {
        return append_flat(block, format, pixel, out);
    }
    let Some(background) = background_in(palette, pixels, limit + 1) else {
        return false;
    };
    let mut subs: ArrayVec<Subrect, N> = ArrayVec::new();
    if !cover(pixels, width, height, background, limit, &mut subs) {
        return false;
    }
    if raw <= 4 + size + subs.len() * (size + 8) {
        return false;
    }
    append_head(out, format, subs.len() as u32, background);
    append_subrects(out, format, subs.as_slice());
    true
}

// The same of a block that has one pixel: the background is all, and no list is made.
fn append_flat(block: &Block, format: &Format, pixel: u32, out: &mut Vec<u8>) -> bool
    requires some { 0 < length block.now.places }
    requires whole { length block.now.places ≡ block.now.height * block.now.width }
    requires one { HasPalette (One pixel) block.now.places }
    requires pixels { HasPixels format.now block.now }
    requires room { vec_len out.old + raw_of format.now block.now ≤ vec_capacity out.old }

    ensures given_up { OnFalse result (IsNoShorter format.now block.now) }
    ensures kept { OnFalse result (out.new.items ≡ out.old.items) }
    ensures room { vec_capacity out.new ≡ vec_capacity out.old }
    ensures spelled { OnTrue result
        (Appends (λ f block bytes. StandsRreByRule f block bytes)
        format.now block.now out.old.items out.new.items) }
    ensures shorter { OnTrue result
        (vec_len out.new < vec_len out.old + raw_of format.now block.now) }
{
    let (width, height) = (usize::from(block.width()), usize::from(block.height()));
    let size = format.size();
    if height * width * size <= 4 + size {
        return false;
    }
    append_head(out, format, 0, pixel);
    true
}

// Appends the U32 number of subrectangles and the background.
fn append_head(out: &mut Vec<u8>, format: &Format, count: u32, background: u32)
    requires { vec_len out.old + (4 + size_of format.now) ≤ vec_capacity out.old }
    ensures items { out.new.items ≡
        out.old.items ++ (big_bytes 4 count ++ pixel_bytes format.now background) }
    ensures len { vec_len out.new ≡ vec_len out.old + (4 + size_of format.now) }
    ensures room { vec_capacity out.new ≡ vec_capacity out.old }
{
    let mut field = [0; 4];
    BigEndian::write_u32(&mut field, count);
    append_within(out, &field);
    append_pixel(out, format, background);
}

// Appends a pixel.
fn append_pixel(out: &mut Vec<u8>, format: &Format, pixel: u32)
    requires { vec_len out.old + size_of format.now ≤ vec_capacity out.old }
    ensures items { out.new.items ≡ out.old.items ++ pixel_bytes format.now pixel }
    ensures len { vec_len out.new ≡ vec_len out.old + size_of format.now }
    ensures room { vec_capacity out.new ≡ vec_capacity out.old }
{
    let size = format.size();
    let mut field = [0; 4];
    format.put(pixel, &mut field[..size]);
    append_within(out, &field[..size]);
}

// Appends each subrectangle: its pixel, and x-position, y-position, width and height.
fn append_subrects(out: &mut Vec<u8>, format: &Format, subs: &[Subrect])
    requires { vec_len out.old + length subs.now * (size_of format.now + 8) ≤ vec_capacity out.old }
    ensures items { out.new.items ≡ out.old.items ++ flat_map (subrect_bytes format.now) subs.now }
    ensures len { vec_len out.new ≡ vec_len out.old + length subs.now * (size_of format.now + 8) }
    ensures room { vec_capacity out.new ≡ vec_capacity out.old }
{
    for s in subs {
        append_pixel(out, format, s.pixel);
        append_within(out, &bytes_of_rect(s.rect));
    }
}

// The U16 x-position, y-position, width and height.
fn bytes_of_rect(rect: Rect) -> [u8; 8]
    ensures { result ≡ rect_bytes rect }
{
    let mut bytes = [0; 8];
    BigEndian::write_u16(&mut bytes, rect.x);
    BigEndian::write_u16(&mut bytes[2..], rect.y);
    BigEndian::write_u16(&mut bytes[4..], rect.w);
    BigEndian::write_u16(&mut bytes[6..], rect.h);
    bytes
}

#[cfg(test)]
mod tests;
