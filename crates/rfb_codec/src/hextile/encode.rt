//! The Hextile encoder, RFC 6143 section 7.7.4.

ghost use Rattle.std.specs.Prelude.{refl, ◌≡◌, ◌+◌, ◌*◌, ◌<◌, ◌≤◌, length, vec_len, take, pos};
ghost use Rattle.std.specs.Bool.{OnTrue, OnFalse};
ghost use Rattle.std.specs.Vec.{vec_capacity};
ghost use Rattle.rfb_codec.specs.Pixels.{HasPixels};
ghost use Rattle.rfb_codec.specs.HextileRule.{StandsByRule, AreNoShorter};
ghost use Rattle.rfb_wire.specs.declared.encoding.Encoding.TheVariants.{Hextile as HextileEncoding};
ghost use Rattle.rfb_codec.specs.Codec.{Appends, raw_of};

mod carried;
mod choosing;
mod cutting;
mod pieces;
mod spelling;

use crate::block::Block;
use crate::codec::Codec;
use crate::hextile::tiles::{tile_count, tile_rect};
use carried::Carried;
use choosing::{TileSubrects, choose};
use cutting::{TilePixels, cut};
use pieces::TileBytes;
use rfb_pixel::Format;
use rfb_wire::pieces::append_within;
use spelling::{append, spelled_length};

/// Hextile: tiles of 16 by 16, each of one pixel, of two or of more, or Raw where that is as short.
/// A tile names its colours where they are not those that are carried to it. It gives up a block
/// whose tiles all together are no shorter than Raw, and no other.
#[derive(Clone, Copy, Debug, PartialEq, Eq)]
pub struct Hextile;

impl Codec for Hextile {
    ghost stands = { λ f block bytes. StandsByRule f block bytes };

    ghost encoding = { HextileEncoding };

    ghost NUMBER = { pos 5 };

    ghost numbered = { refl };

    ghost read_back = { λ f width height rect block bytes sized stands. (sized, stands.stands) };

    ghost by_rule = { λ f block bytes stands. stands };

    const NUMBER: i32 = 5;

    fn encode(block: &Block, format: &Format, out: &mut Vec<u8>) -> bool {
        let len = out.len();
        if !spell(block, format, out) {
            out.truncate(len);
            return false;
        }
        true
    }
}

// Appends each tile of the block, or answers false once the tiles are no shorter than Raw.
fn spell(block: &Block, format: &Format, out: &mut Vec<u8>) -> bool
    requires pixels { HasPixels format.now block.now }
    requires room { vec_len out.old + raw_of format.now block.now ≤ vec_capacity out.old }
    ensures spelled { OnTrue result
        (Appends (λ f block bytes. StandsByRule f block bytes)
        format.now block.now out.old.items out.new.items) }
    ensures shorter { OnTrue result
        (vec_len out.new < vec_len out.old + raw_of format.now block.now) }
    ensures given_up { OnFalse result (AreNoShorter format.now block.now) }
    ensures front { take (vec_len out.old) out.new.items ≡ out.old.items }
    ensures room { vec_capacity out.new ≡ vec_capacity out.old }
{
    let end = out.len() + block.pixels().len() * format.size();
    let mut carried = Carried {
        background: None,
        foreground: None,
    };
    let mut pixels = TilePixels::new();
    let mut subs = TileSubrects::new();
    let mut bytes = TileBytes::new();
    for n in 0..tile_count(block.width(), block.height()) {
        let tile = tile_rect(block.width(), block.height(), n);
        let (width, height) = (usize::from(tile.w), usize::from(tile.h));
        cut(block, tile, &mut pixels);
        let part = pixels.as_slice();
        let layout = choose(format, part, width, height, &mut carried, &mut subs);
        if out.len() + spelled_length(format, layout, part, &subs) >= end {
            return false;
        }
        bytes.clear();
        append(format, layout, part, &subs, &mut bytes);
        append_within(out, bytes.as_slice());
    }
    true
}

#[cfg(test)]
mod tests;
