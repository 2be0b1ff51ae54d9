//! What every encoder of a block promises.

ghost use Rattle.std.specs.Prelude.{◌≡◌, ◌+◌, ◌<◌, ◌≤◌, ℕ, ℤ, List, vec_len};
ghost use Rattle.std.specs.Bool.{OnTrue, OnFalse};
ghost use Rattle.std.specs.Vec.{vec_capacity};
ghost use Rattle.rfb_pixel.specs.Format.{PixelFormat};
ghost use Rattle.rfb_picture.specs.declared.rect.Rect.{Rect};
ghost use Rattle.rfb_picture.specs.Grid.{Grid};
ghost use Rattle.rfb_wire.specs.declared.encoding.Encoding.{Encoding};
ghost use Rattle.rfb_wire.specs.Encoding.{number_of};
ghost use Rattle.rfb_codec.specs.Pixels.{HasPixels, IsSized};
ghost use Rattle.rfb_codec.specs.RectData.{Pixels, SpellsData};
ghost use Rattle.rfb_codec.specs.Codec.{Appends, raw_of, shortens};
ghost use Rattle.rfb_codec.specs.ByRule.{StandsIn, GivesUp};

use crate::block::Block;
use rfb_pixel::Format;

/// An encoding of RFC 6143 section 7.7 that a block of pixels can be sent in.
pub trait Codec {
    // The bytes stand for the block, as data of a rectangle in this encoding.
    ghost stands: { PixelFormat → Grid ℕ → List ℕ → Type 0 };

    // The encoding whose data they are, and whose number a rectangle's head has.
    ghost encoding: { Encoding };

    ghost NUMBER: { ℤ };

    /// The encoding-type, an S32 of the head of a rectangle.
    const NUMBER: i32;

    /// Appends to `out` data that stand for the block in this format, no more bytes than its pixels
    /// have by themselves (Raw), and answers true. False is for a block that the encoding gives up,
    /// and for no other: its data, as the rule has them, would not be shorter than Raw. Then `out`
    /// has what it had.
    ///
    /// The caller owns all three. It has made the room that Raw would need, so no memory is taken
    /// and the capacity stays, and no pixel has more bits than the format gives it.
    fn encode(block: &Block, format: &Format, out: &mut Vec<u8>) -> bool
        requires pixels { HasPixels format.now block.now }
        requires room { vec_len out.old + raw_of format.now block.now ≤ vec_capacity out.old }

        ensures spelled { OnTrue result
            (Appends stands format.now block.now out.old.items out.new.items) }
        ensures shorter { OnTrue (shortens encoding)
            (OnTrue result (vec_len out.new < vec_len out.old + raw_of format.now block.now)) }
        ensures given_up { OnFalse result (GivesUp encoding format.now block.now) }
        ensures taken { OnTrue result (GivesUp encoding format.now block.now → ⊥) }
        ensures kept { OnFalse result (out.new.items ≡ out.old.items) }
        ensures room { vec_capacity out.new ≡ vec_capacity out.old };

    // The number is that of the encoding.
    ghost numbered: { number_of encoding ≡ NUMBER };

    // What stands for a block is, under the head of a rectangle of its size, data of the encoding.
    ghost read_back: { (f : PixelFormat) (width height : ℕ) (rect : Rect)
        (block : Grid ℕ) (bytes : List ℕ) →
        IsSized rect.w rect.h block → stands f block bytes →
        SpellsData f width height rect encoding (Pixels block) bytes };

    // It is what the rule of the encoding makes of the block.
    ghost by_rule: { (f : PixelFormat) (block : Grid ℕ) (bytes : List ℕ) →
        stands f block bytes → StandsIn encoding f block bytes };
}

#[cfg(test)]
pub(crate) mod tests;
