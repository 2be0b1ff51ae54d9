//! Whether a block has one pixel, two, or more.

ghost use Rattle.std.specs.Prelude.{◌≡◌, ◌≢◌, ℕ, ◌<◌, ◌≤◌, ◌⊎◌, length, slice_index, IfSome};
ghost use Rattle.std.specs.Prelude.{IfNone};
ghost use Rattle.std.specs.Bool.{OnTrue, OnFalse};
ghost use Rattle.rfb_codec.specs.Choice.{IsBackground, places_of};
ghost use Rattle.rfb_codec.specs.encoder.Background.{HasMore};
ghost use Rattle.rfb_codec.specs.encoder.Palette.{HasOther, HasPalette};

use crate::block::PLACES;
use crate::choice::background::{background_of, leads};
use rfb_pixel::run_of;

/// The pixels that a block has.
#[derive(Clone, Copy, Debug, PartialEq, Eq)]
pub enum Palette {
    One(u32),
    /// Two. More places have the background, or as many and it is the lesser value.
    Two { background: u32, foreground: u32 },
    More,
}

/// The pixels of a block.
pub fn palette_of(pixels: &[u32]) -> Palette
    requires some { 0 < length pixels.now }
    requires few { length pixels.now ≤ PLACES }
    ensures { HasPalette result pixels.now }
{
    let first = pixels[0];
    let start = run_of(pixels, first);
    if start == pixels.len() {
        return Palette::One(first);
    }
    let second = pixels[start];
    if has_other(pixels, first, second) {
        return Palette::More;
    }
    let seconds = places_of(pixels, second);
    if leads(pixels.len() - seconds, first, seconds, second) {
        Palette::Two {
            background: first,
            foreground: second,
        }
    } else {
        Palette::Two {
            background: second,
            foreground: first,
        }
    }
}

// Whether a place has neither of two pixels. All are counted, which goes by vectors.
fn has_other(pixels: &[u32], first: u32, second: u32) -> bool
    requires { length pixels.now ≤ PLACES }
    ensures other { OnTrue result (HasOther first second pixels.now) }
    ensures none { OnFalse result ((i : ℕ) → i < length pixels.now →
        (slice_index pixels.now i ≡ first) ⊎ (slice_index pixels.now i ≡ second)) }
{
    let mut others = 0u32;
    for pixel in pixels {
        if *pixel != first && *pixel != second {
            others += 1;
        }
    }
    others > 0
}

// How many places have the pixel.
fn places_of(pixels: &[u32], pixel: u32) -> usize
    requires { length pixels.now ≤ PLACES }
    ensures value { result ≡ places_of pixel pixels.now }
    ensures few { result ≤ length pixels.now }
{
    let mut count = 0u32;
    for other in pixels {
        if *other == pixel {
            count += 1;
        }
    }
    count as usize
}

/// The background of a block whose pixels are known to be these, as `background_of` has it. It is
/// known of one pixel and of two.
pub fn background_in(palette: Palette, pixels: &[u32], most: usize) -> Option<u32>
    requires some { 0 < length pixels.now }
    requires few { length pixels.now ≤ PLACES }
    requires palette { HasPalette palette pixels.now }
    ensures background { IfSome result (λ pixel. IsBackground pixels.now pixel) }
    ensures more { IfNone result (HasMore most pixels.now) }
{
    match palette {
        Palette::One(pixel) => Some(pixel),
        Palette::Two { background, .. } => Some(background),
        Palette::More => background_of(pixels, most),
    }
}
