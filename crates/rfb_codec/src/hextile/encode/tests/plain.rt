//! A plain reading of Hextile, with the colours that tiles leave to the next.

use crate::codec::tests::input::Input;
use rfb_pixel::Format;
use std::alloc::{AllocError, Global};
use std::result::Result;

// The colours that a tile may use without naming them.
#[derive(Clone, Copy)]
struct Held {
    background: Option<u32>,
    foreground: Option<u32>,
}

// Places of a block, from its corner.
#[derive(Clone, Copy)]
struct Part {
    x: usize,
    y: usize,
    w: usize,
    h: usize,
}

// Gives the places that pixel, in a block so wide.
fn fill(shown: &mut [u32], width: usize, part: Part, pixel: u32) {
    for y in 0..part.h {
        for x in 0..part.w {
            let (x, y) = (part.x.wrapping_add(x), part.y.wrapping_add(y));
            if let Some(place) = shown.get_mut(y.wrapping_mul(width).wrapping_add(x)) {
                *place = pixel;
            }
        }
    }
}

// The pixels of a raw tile.
fn read_raw(input: &mut Input<'_>, format: &Format, shown: &mut [u32], width: usize, tile: Part) {
    for y in 0..tile.h {
        for x in 0..tile.w {
            let place = Part {
                x: tile.x.wrapping_add(x),
                y: tile.y.wrapping_add(y),
                w: 1,
                h: 1,
            };
            let pixel = input.pixel(format);
            fill(shown, width, place, pixel);
        }
    }
}

// The place of a subrectangle of a tile, by its two bytes.
fn place_in(tile: Part, corner: u8, size: u8) -> Part {
    Part {
        x: tile.x.wrapping_add(usize::from(corner / 16)),
        y: tile.y.wrapping_add(usize::from(corner % 16)),
        w: usize::from(size / 16) + 1,
        h: usize::from(size % 16) + 1,
    }
}

// The subrectangles of a tile, in the foreground or each in its own pixel.
fn read_subs(
    input: &mut Input<'_>,
    format: &Format,
    shown: &mut [u32],
    width: usize,
    tile: Part,
    foreground: Option<u32>,
    colored: bool,
) {
    for _ in 0..input.byte() {
        let pixel = if colored {
            input.pixel(format)
        } else {
            input.known(foreground, 0)
        };
        let corner = input.byte();
        let size = input.byte();
        fill(shown, width, place_in(tile, corner, size), pixel);
    }
}

// A colour that a tile names, or else the one in force.
fn named(input: &mut Input<'_>, format: &Format, is_named: bool, held: Option<u32>) -> Option<u32> {
    if is_named {
        Some(input.pixel(format))
    } else {
        held
    }
}

// A tile, and the colours after it. Where `strict`, a raw one leaves no colour, and a coloured one
// no foreground.
fn read_tile(
    input: &mut Input<'_>,
    format: &Format,
    shown: &mut [u32],
    width: usize,
    tile: Part,
    held: Held,
    strict: bool,
) -> Held {
    let mask = input.byte();
    if mask & 1 != 0 {
        read_raw(input, format, shown, width, tile);
        return if strict { NOTHING } else { held };
    }
    let background = named(input, format, mask & 2 != 0, held.background);
    let foreground = named(input, format, mask & 4 != 0, held.foreground);
    let ground = input.known(background, 0);
    fill(shown, width, tile, ground);
    let colored = mask & 16 != 0;
    if mask & 8 != 0 {
        read_subs(input, format, shown, width, tile, foreground, colored);
    }
    Held {
        background,
        foreground: if strict && colored { None } else { foreground },
    }
}

const NOTHING: Held = Held {
    background: None,
    foreground: None,
};

// Whether there is each tile, and nothing after the last.
fn read_tiles(
    format: &Format,
    bytes: &[u8],
    shown: &mut [u32],
    width: usize,
    height: usize,
    strict: bool,
) -> bool {
    let mut input = Input::of(bytes);
    let mut held = NOTHING;
    for row in 0..height.div_ceil(16) {
        for column in 0..width.div_ceil(16) {
            let (x, y) = (column.wrapping_mul(16), row.wrapping_mul(16));
            let w = 16.min(width.saturating_sub(x));
            let h = 16.min(height.saturating_sub(y));
            let tile = Part { x, y, w, h };
            held = read_tile(&mut input, format, shown, width, tile, held, strict);
        }
    }
    input.is_at_end()
}

/// The pixels that Hextile data show, if they can be read.
pub fn decoded(
    alloc: Global,
    format: &Format,
    bytes: &[u8],
    width: usize,
    height: usize,
    strict: bool,
) -> Result<Option<Vec<u32>>, AllocError> {
    let mut shown = Vec::new(alloc);
    shown.resize(height.wrapping_mul(width), u32::MAX)?;
    if read_tiles(format, bytes, &mut shown, width, height, strict) {
        Ok(Some(shown))
    } else {
        Ok(None)
    }
}
