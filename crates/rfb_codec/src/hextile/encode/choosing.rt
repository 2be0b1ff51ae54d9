//! How a tile is sent, by this project's rules.

ghost use Rattle.std.specs.Prelude.{◌≡◌, ℕ, ◌+◌, ◌<◌, ◌≤◌, ◌*◌, length, slice_index, IfSome};
ghost use Rattle.std.specs.Prelude.{IfNone, []};
ghost use Rattle.rfb_codec.specs.Pixels.{IsPixel};
ghost use Rattle.rfb_codec.specs.Raw.{raw_length};
ghost use Rattle.rfb_codec.specs.Tile.{Tile};
ghost use Rattle.rfb_codec.specs.HextileRule.{IsDrawn, IsRuleTile, left_by, tile_length};
ghost use Rattle.rfb_codec.specs.encoder.TileSpelling.{AreTileParts, tile_of};
ghost use Rattle.rfb_codec.specs.encoder.Carried.{Sends, held_of};

use super::carried::{Carried, named};
use super::spelling::spelled_length;
use crate::choice::background::background_of;
use crate::choice::cover::cover;
use crate::choice::palette::{Palette, palette_of};
use crate::hextile::layout::TileLayout;
use crate::subrect::Subrect;
use arrayvec::ArrayVec;
use rfb_pixel::Format;

/// The most subrectangles of a tile that is not sent as Raw. Of two pixels at most half of its
/// places need one, 128. Of more each has six bytes where a pixel has four, and 171 have more bytes
/// than the pixels.
pub const MAX_SUBRECTS: usize = 170;

/// Room for the subrectangles of a tile.
pub type TileSubrects = ArrayVec<Subrect, MAX_SUBRECTS>;

// How a tile is sent over a background, and what it leaves to the next one.
#[derive(Clone, Copy, Debug, PartialEq, Eq)]
struct Choice {
    layout: TileLayout,
    leaves: Carried,
}

/// How the tile is sent. `subs` becomes its subrectangles, and `carried` what it leaves to the
/// next.
///
/// It is Raw where the tile over its background is no shorter than that, and then leaves nothing.
pub fn choose(
    format: &Format,
    pixels: &[u32],
    width: usize,
    height: usize,
    carried: &mut Carried,
    subs: &mut TileSubrects,
) -> TileLayout
    requires whole { length pixels.now ≡ height * width }
    requires some { 0 < length pixels.now }
    requires columns { width ≤ 16 }
    requires rows { height ≤ 16 }
    requires pixels { (i : ℕ) → IsPixel format.now (slice_index pixels.now i) }
    ensures sends { Sends format.now width height result
        pixels.now subs.new.items carried.old carried.new }
    ensures rule { IsRuleTile format.now width height pixels.now (held_of carried.old)
        (tile_of format.now result pixels.now subs.new.items) }
    ensures leaves { held_of carried.new ≡ left_by (held_of carried.old)
        (tile_of format.now result pixels.now subs.new.items) }
    ensures parts { AreTileParts format.now 16 16 subs.new.items }
{
    let raw = 1 + pixels.len() * format.size();
    if let Some(choice) = over_background(format, pixels, width, height, *carried, subs) {
        if spelled_length(format, choice.layout, pixels, subs) < raw {
            *carried = choice.leaves;
            return choice.layout;
        }
    }
    subs.clear();
    *carried = Carried {
        background: None,
        foreground: None,
    };
    TileLayout::Raw
}

// The tile over its background, if it has room for the subrectangles and they are no longer than
// its pixels. Of one pixel it is a background alone, of two the other is the foreground, and of
// more each subrectangle has a pixel of its own.
fn over_background(
    format: &Format,
    pixels: &[u32],
    width: usize,
    height: usize,
    carried: Carried,
    subs: &mut TileSubrects,
) -> Option<Choice>
    requires whole { length pixels.now ≡ height * width }
    requires some { 0 < length pixels.now }
    requires columns { width ≤ 16 }
    requires rows { height ≤ 16 }
    requires pixels { (i : ℕ) → IsPixel format.now (slice_index pixels.now i) }
    ensures sends { IfSome result (λ choice. Sends format.now width height choice.layout
        pixels.now subs.new.items carried choice.leaves) }
    ensures drawn { IfSome result (λ choice. IsDrawn width height pixels.now (held_of carried)
        (tile_of format.now choice.layout pixels.now subs.new.items)) }
    ensures leaves { IfSome result (λ choice. held_of choice.leaves ≡ left_by (held_of carried)
        (tile_of format.now choice.layout pixels.now subs.new.items)) }
    ensures long { IfNone result ((drawn : Tile)
        → IsDrawn width height pixels.now (held_of carried) drawn
        → 1 + raw_length format.now width height ≤ tile_length format.now drawn) }
    ensures parts { IfSome result (λ choice. AreTileParts format.now 16 16 subs.new.items) }
{
    subs.clear();
    let room = pixels.len() * format.size();
    match palette_of(pixels) {
        Palette::One(background) => Some(Choice {
            layout: TileLayout::Plain {
                background: named(carried.background, background),
                foreground: None,
            },
            leaves: Carried {
                background: Some(background),
                foreground: carried.foreground,
            },
        }),
        Palette::Two {
            background,
            foreground,
        } => {
            if !cover(
                pixels,
                width,
                height,
                background,
                MAX_SUBRECTS.min(room / 2),
                subs,
            ) {
                return None;
            }
            Some(Choice {
                layout: TileLayout::Plain {
                    background: named(carried.background, background),
                    foreground: named(carried.foreground, foreground),
                },
                leaves: Carried {
                    background: Some(background),
                    foreground: Some(foreground),
                },
            })
        }
        Palette::More => {
            let limit = MAX_SUBRECTS.min(room / (format.size() + 2));
            let background = background_of(pixels, limit + 1)?;
            if !cover(pixels, width, height, background, limit, subs) {
                return None;
            }
            Some(Choice {
                layout: TileLayout::Colored {
                    background: named(carried.background, background),
                },
                leaves: Carried {
                    background: Some(background),
                    foreground: None,
                },
            })
        }
    }
}
