//! The rule for tiles in its plain form.

use crate::codec::tests::most_frequent;
use crate::subrect::Subrect;
use arrayvec::ArrayVec;
use rfb_picture::Rect;
use rfb_pixel::Format;
use std::alloc::{AllocError, Global};
use std::result::Result;

// The colours that the next tile needs not name.
#[derive(Clone, Copy)]
struct Held {
    background: Option<u32>,
    foreground: Option<u32>,
}

const NOTHING: Held = Held {
    background: None,
    foreground: None,
};

// What is to be drawn of a tile: its most frequent pixel, the first other one, and whether there is
// a third.
#[derive(Clone, Copy)]
struct Palette {
    background: u32,
    foreground: Option<u32>,
    colored: bool,
}

// A tile's pixels, row by row, and places after them.
#[derive(Clone, Copy)]
struct Tile {
    pixels: [u32; 256],
    width: u16,
    height: u16,
}

// At most a head of ten bytes and 255 subrectangles of six each.
type Bytes = ArrayVec<u8, 1600>;

type Subs = ArrayVec<Subrect, 256>;

// A byte of two digits.
fn digits(high: u16, low: u16) -> u8 {
    (high % 16 * 16 + low % 16) as u8
}

// The bit, where it is set.
fn bit(value: u8, set: bool) -> u8 {
    if set { value } else { 0 }
}

// Appends a byte.
fn push(bytes: &mut Bytes, byte: u8) {
    if !bytes.is_full() {
        bytes.push(byte);
    }
}

// Appends a pixel.
fn push_pixel(format: &Format, bytes: &mut Bytes, pixel: u32) {
    let mut field = [0; 4];
    let size = format.size();
    format.put(pixel, &mut field[..size]);
    for byte in &field[..size] {
        push(bytes, *byte);
    }
}

// Appends a pixel that has to be named.
fn push_named(format: &Format, bytes: &mut Bytes, is_named: bool, pixel: u32) {
    if is_named {
        push_pixel(format, bytes, pixel);
    }
}

// Appends the subrectangles, each with its pixel or without, after how many there are.
fn push_subs(format: &Format, bytes: &mut Bytes, subs: &[Subrect], colored: bool) {
    if !subs.is_empty() {
        push(bytes, subs.len().min(255) as u8);
    }
    for sub in subs {
        let rect = sub.rect;
        push_named(format, bytes, colored, sub.pixel);
        push(bytes, digits(rect.x, rect.y));
        push(
            bytes,
            digits(rect.w.wrapping_sub(1), rect.h.wrapping_sub(1)),
        );
    }
}

impl Tile {
    // The tile whose corner is at that place of a block.
    fn of(block: &[u32], size: (u16, u16), x: u16, y: u16) -> Tile {
        let mut pixels = [0; 256];
        let width = 16.min(size.0.saturating_sub(x));
        let height = 16.min(size.1.saturating_sub(y));
        for j in 0..height {
            for i in 0..width {
                let row = usize::from(y).wrapping_add(usize::from(j));
                let column = usize::from(x).wrapping_add(usize::from(i));
                let at = row.wrapping_mul(usize::from(size.0)).wrapping_add(column);
                let to = usize::from(j)
                    .wrapping_mul(usize::from(width))
                    .wrapping_add(usize::from(i));
                if let Some(place) = pixels.get_mut(to) {
                    *place = block.get(at).copied().unwrap_or(0);
                }
            }
        }
        Tile {
            pixels,
            width,
            height,
        }
    }

    fn index(&self, x: u16, y: u16) -> usize {
        usize::from(y)
            .wrapping_mul(usize::from(self.width))
            .wrapping_add(usize::from(x))
    }

    fn pixels(&self) -> &[u32] {
        match self.pixels.get(..self.index(0, self.height)) {
            Some(pixels) => pixels,
            None => &self.pixels,
        }
    }

    // How many places from (x, y) to the right have the pixel.
    fn run(&self, x: u16, y: u16, pixel: u32) -> u16 {
        let mut run = 0u16;
        for i in x..self.width {
            if self.pixels.get(self.index(i, y)) != Some(&pixel) {
                break;
            }
            run = run.wrapping_add(1);
        }
        run
    }

    // The subrectangle that begins at (x, y). It is taken out: its places become background.
    fn take(&mut self, background: u32, x: u16, y: u16, pixel: u32) -> Rect {
        let w = self.run(x, y, pixel);
        let mut h = 0u16;
        for j in y..self.height {
            if self.run(x, j, pixel) < w {
                break;
            }
            h = h.wrapping_add(1);
            for i in 0..w {
                let at = self.index(x.wrapping_add(i), j);
                if let Some(place) = self.pixels.get_mut(at) {
                    *place = background;
                }
            }
        }
        Rect { x, y, w, h }
    }

    // The cover, which is taken out.
    fn cover(&mut self, background: u32) -> Subs {
        let mut subs = ArrayVec::new();
        for y in 0..self.height {
            for x in 0..self.width {
                let at = self.index(x, y);
                let pixel = self.pixels.get(at).copied().unwrap_or(background);
                if pixel != background && !subs.is_full() {
                    let rect = self.take(background, x, y, pixel);
                    subs.push(Subrect { pixel, rect });
                }
            }
        }
        subs
    }

    // As a raw tile.
    fn raw(&self, format: &Format) -> Bytes {
        let mut bytes = ArrayVec::new();
        push(&mut bytes, 1);
        for pixel in self.pixels() {
            push_pixel(format, &mut bytes, *pixel);
        }
        bytes
    }

    fn palette(&self) -> Palette {
        let background = most_frequent(self.pixels());
        let mut foreground = None;
        let mut colored = false;
        for pixel in self.pixels() {
            if *pixel != background && foreground.is_none() {
                foreground = Some(*pixel);
            }
            colored = colored || (*pixel != background && foreground != Some(*pixel));
        }
        Palette {
            background,
            foreground,
            colored,
        }
    }

    // Over its background. Its pixels are taken out.
    fn drawn(&mut self, format: &Format, palette: Palette, held: Held) -> Bytes {
        let Palette {
            background,
            foreground,
            colored,
        } = palette;
        let subs = self.cover(background);
        let first = held.background != Some(background);
        let second = !colored && foreground.is_some() && held.foreground != foreground;
        let mut bytes = ArrayVec::new();
        push(
            &mut bytes,
            bit(2, first) | bit(4, second) | bit(8, !subs.is_empty()) | bit(16, colored),
        );
        push_named(format, &mut bytes, first, background);
        push_named(format, &mut bytes, second, foreground.unwrap_or(0));
        push_subs(format, &mut bytes, subs.as_slice(), colored);
        bytes
    }
}

// What a tile that is drawn leaves to the next: its background and its foreground.
fn left_by(palette: Palette, held: Held) -> Held {
    let foreground = if palette.colored {
        None
    } else if palette.foreground.is_some() {
        palette.foreground
    } else {
        held.foreground
    };
    Held {
        background: Some(palette.background),
        foreground,
    }
}

// A tile as the rule has it, and what it leaves to the next.
fn spelled_tile(tile: Tile, format: &Format, held: Held) -> (Bytes, Held) {
    let palette = tile.palette();
    let raw = tile.raw(format);
    let mut rest = tile;
    let drawn = rest.drawn(format, palette, held);
    if drawn.len() < raw.len() {
        (drawn, left_by(palette, held))
    } else {
        (raw, NOTHING)
    }
}

/// The tiles of a block of that width and height.
pub fn spelled(
    alloc: Global,
    format: &Format,
    pixels: &[u32],
    size: (u16, u16),
) -> Result<Vec<u8>, AllocError> {
    let mut bytes = Vec::new(alloc);
    let mut held = NOTHING;
    for row in 0..size.1.div_ceil(16) {
        for column in 0..size.0.div_ceil(16) {
            let (x, y) = (column.wrapping_mul(16), row.wrapping_mul(16));
            let (tile, left) = spelled_tile(Tile::of(pixels, size, x, y), format, held);
            bytes.extend_from_slice(tile.as_slice())?;
            held = left;
        }
    }
    Ok(bytes)
}
