//! What the encoders' rules choose for a block, with nothing to run.

ghost use Rattle.std.specs.Prelude.{◌≡◌, ◌<◌, ℕ, List, length};
ghost use Rattle.rfb_pixel.specs.Format.{PixelFormat};
ghost use Rattle.rfb_picture.specs.Grid.{Grid};
ghost use Rattle.rfb_codec.specs.declared.subrect.Subrect.{Subrect};
ghost use Rattle.rfb_wire.specs.declared.encoding.Encoding.{Encoding};
ghost use Rattle.rfb_codec.specs.Codec.{IsBlock, raw_of};
ghost use Rattle.rfb_codec.specs.ByRule.{StandsIn, GivesUp};
ghost use Rattle.rfb_codec.specs.Choice.{IsRuleChoice, StandsRreByRule};
ghost use Rattle.rfb_codec.specs.Tile.{Tile};
ghost use Rattle.rfb_codec.specs.Hextile.{tile_count};
ghost use Rattle.rfb_codec.specs.HextileRule.{nothing_held, AreRuleTiles, StandsByRule};

/// The rule of RRE has a background and subrectangles for each block, and no others. So the bytes
/// that stand for a block by the rule are one list.
pub fn rre_has_one_choice()
    ensures some { (block : Grid ℕ) → IsBlock block →
        (background : ℕ) × (subs : List Subrect) × IsRuleChoice block background subs }
    ensures one { (block : Grid ℕ) (background other : ℕ) (subs others : List Subrect) →
        IsRuleChoice block background subs → IsRuleChoice block other others →
        (background ≡ other) × (subs ≡ others) }
    ensures bytes { (f : PixelFormat) (block : Grid ℕ) (bytes others : List ℕ) →
        StandsRreByRule f block bytes → StandsRreByRule f block others → bytes ≡ others }
{}

/// A block whose data by the rule of an encoding are shorter than Raw is not given up by that rule.
pub fn what_is_sent_shorter_is_not_given_up()
    ensures { (encoding : Encoding) (f : PixelFormat) (block : Grid ℕ) (bytes : List ℕ) →
        StandsIn encoding f block bytes → length bytes < raw_of f block →
        GivesUp encoding f block → ⊥ }
{}

/// The rule of Hextile has a tile for each part of a block, and no others. So the bytes that stand
/// for a block by the rule are one list.
pub fn hextile_has_one_choice()
    ensures some { (f : PixelFormat) (block : Grid ℕ) → (tiles : List Tile)
        × (length tiles ≡ tile_count block.width block.height)
        × AreRuleTiles f block 0 nothing_held tiles }
    ensures one { (f : PixelFormat) (block : Grid ℕ) (tiles others : List Tile) →
        length tiles ≡ tile_count block.width block.height →
        length others ≡ tile_count block.width block.height →
        AreRuleTiles f block 0 nothing_held tiles →
        AreRuleTiles f block 0 nothing_held others → tiles ≡ others }
    ensures bytes { (f : PixelFormat) (block : Grid ℕ) (bytes others : List ℕ) →
        StandsByRule f block bytes → StandsByRule f block others → bytes ≡ others }
{}
