//! A plain decoder of one update, written from RFC 6143, sections 7.6.1 and 7.7. It is given all
//! bytes that came, begins with the first of them each time, and draws nothing more from the first
//! piece on that is not whole.

use rfb_pixel::Colour;
use std::alloc::{AllocError, Global};

/// How wide and how high the picture is.
pub const SIDE: usize = 18;

/// A pixel format, little-endian: how many bytes a pixel has, and the maximum and the unit of its
/// red, its green and its blue.
#[derive(Clone, Copy)]
pub struct Pixels {
    pub size: usize,
    pub red: (usize, usize),
    pub green: (usize, usize),
    pub blue: (usize, usize),
}

// A part of the picture.
#[derive(Clone, Copy)]
struct Zone {
    x: usize,
    y: usize,
    w: usize,
    h: usize,
}

// The bytes, how many of them are read, and the picture's pixels so far. Once a piece was
// truncated, zeros are read, and nothing is drawn.
#[derive(Drop)]
struct Plain<'a> {
    bytes: &'a [u8],
    read: usize,
    cut_off: bool,
    pixel_size: usize,
    shown: Vec<usize>,
}

impl Plain<'_> {
    // Whether `count` bytes are there; if not, the piece that they are in is truncated.
    fn has(&mut self, count: usize) -> bool {
        let left = self.bytes.len().saturating_sub(self.read);
        self.cut_off = self.cut_off || left < count;
        !self.cut_off
    }

    fn byte(&mut self) -> usize {
        if !self.has(1) {
            return 0;
        }
        let byte = self.bytes.get(self.read).copied().unwrap_or_default();
        self.read = self.read.saturating_add(1);
        usize::from(byte)
    }

    // A number of `count` bytes, the highest first.
    fn number(&mut self, count: usize) -> usize {
        let mut number = 0usize;
        for _ in 0..count {
            number = number.wrapping_mul(256).wrapping_add(self.byte());
        }
        number
    }

    // The lowest first.
    fn pixel(&mut self) -> usize {
        let mut pixel = 0usize;
        let mut unit = 1usize;
        for _ in 0..self.pixel_size {
            pixel = pixel.wrapping_add(self.byte().wrapping_mul(unit));
            unit = unit.wrapping_mul(256);
        }
        pixel
    }

    fn zone(&mut self) -> Zone {
        let x = self.number(2);
        let y = self.number(2);
        let w = self.number(2);
        let h = self.number(2);
        Zone { x, y, w, h }
    }

    fn draw(&mut self, x: usize, y: usize, pixel: usize) {
        if let Some(here) = self.shown.get_mut(place(x, y)) {
            *here = pixel;
        }
    }

    fn fill(&mut self, zone: Zone, pixel: usize) {
        if self.cut_off {
            return;
        }
        for y in zone.y..zone.y.saturating_add(zone.h) {
            for x in zone.x..zone.x.saturating_add(zone.w) {
                self.draw(x, y, pixel);
            }
        }
    }

    fn take_update(&mut self) {
        self.number(2);
        for _ in 0..self.number(2) {
            let zone = self.zone();
            match self.number(4) {
                0 => self.take_raw(zone),
                1 => self.take_copy(zone),
                2 => self.take_rre(zone),
                _ => self.take_hextile(zone),
            }
        }
    }

    fn take_raw(&mut self, zone: Zone) {
        for y in 0..zone.h {
            for x in 0..zone.w {
                let pixel = self.pixel();
                self.fill(place_in(zone, x, y), pixel);
            }
        }
    }

    // Of overlapping places each is read before it is written: the order is that of the shift.
    fn take_copy(&mut self, zone: Zone) {
        let from_x = self.number(2);
        let from_y = self.number(2);
        for row in 0..zone.h {
            for column in 0..zone.w {
                let x = turned(column, zone.w, from_x < zone.x);
                let y = turned(row, zone.h, from_y < zone.y);
                self.copy(
                    from_x.wrapping_add(x),
                    from_y.wrapping_add(y),
                    place_in(zone, x, y),
                );
            }
        }
    }

    fn copy(&mut self, from_x: usize, from_y: usize, to: Zone) {
        let pixel = self.shown.get(place(from_x, from_y)).copied();
        self.fill(to, pixel.unwrap_or_default());
    }

    fn take_rre(&mut self, zone: Zone) {
        let count = self.number(4);
        let background = self.pixel();
        self.fill(zone, background);
        for _ in 0..count {
            let pixel = self.pixel();
            let part = self.zone();
            self.fill(within(zone, part), pixel);
        }
    }

    fn take_hextile(&mut self, zone: Zone) {
        let mut colours = (0, 0);
        for row in 0..zone.h.div_ceil(16) {
            for column in 0..zone.w.div_ceil(16) {
                let tile = tile_at(zone, column.wrapping_mul(16), row.wrapping_mul(16));
                colours = self.take_tile(tile, colours);
            }
        }
    }

    // A tile: the background and the foreground before it, and then those after it.
    fn take_tile(&mut self, tile: Zone, (before, ink): (usize, usize)) -> (usize, usize) {
        let mask = self.number(1);
        if mask & 1 != 0 {
            self.take_raw(tile);
            return (before, ink);
        }
        let background = if mask & 2 != 0 { self.pixel() } else { before };
        let foreground = if mask & 4 != 0 { self.pixel() } else { ink };
        let count = if mask & 8 != 0 { self.number(1) } else { 0 };
        self.take_parts(tile, count, mask & 16 != 0, (background, foreground));
        (background, foreground)
    }

    // `count` subrectangles, with colours of their own or not: shown when all of them came.
    fn take_parts(
        &mut self,
        tile: Zone,
        count: usize,
        coloured: bool,
        (background, foreground): (usize, usize),
    ) {
        let colour_size = if coloured { self.pixel_size } else { 0 };
        self.has(count.wrapping_mul(colour_size.wrapping_add(2)));
        self.fill(tile, background);
        for _ in 0..count {
            let pixel = if coloured { self.pixel() } else { foreground };
            let part = self.small_zone();
            self.fill(within(tile, part), pixel);
        }
    }

    // Two bytes: x-position and y-position in four bits each, then width and height, one less each.
    fn small_zone(&mut self) -> Zone {
        let corner = self.number(1);
        let extent = self.number(1);
        Zone {
            x: corner / 16,
            y: corner % 16,
            w: (extent / 16).wrapping_add(1),
            h: (extent % 16).wrapping_add(1),
        }
    }
}

/// What a black picture shows when these bytes of an update came.
pub fn shown_after(
    alloc: Global,
    bytes: &[u8],
    pixels: &Pixels,
) -> Result<Vec<Colour>, AllocError> {
    let mut plain = begun(alloc, bytes, pixels.size)?;
    plain.take_update();
    colours_of(alloc, &plain.shown, pixels)
}

// The decoder of these bytes that has read none of them.
fn begun(alloc: Global, bytes: &[u8], pixel_size: usize) -> Result<Plain<'_>, AllocError> {
    let mut shown = Vec::new(alloc);
    shown.resize(SIDE * SIDE, 0)?;
    Ok(Plain {
        bytes,
        read: 0,
        cut_off: false,
        pixel_size,
        shown,
    })
}

fn colours_of(alloc: Global, shown: &[usize], pixels: &Pixels) -> Result<Vec<Colour>, AllocError> {
    let mut colours = Vec::new(alloc);
    for pixel in shown {
        colours.push(colour_of(*pixel, pixels))?;
    }
    Ok(colours)
}

fn colour_of(pixel: usize, pixels: &Pixels) -> Colour {
    Colour {
        r: component(pixel, pixels.red),
        g: component(pixel, pixels.green),
        b: component(pixel, pixels.blue),
    }
}

// A field of a pixel as 0 to 65,535, rounded to the nearest.
fn component(pixel: usize, (max, unit): (usize, usize)) -> u16 {
    let value = pixel.checked_div(unit).unwrap_or_default() & max;
    let scaled = value.wrapping_mul(65_535).wrapping_add(max / 2);
    u16::try_from(scaled.checked_div(max).unwrap_or_default()).unwrap_or_default()
}

fn place(x: usize, y: usize) -> usize {
    y.wrapping_mul(SIDE).wrapping_add(x)
}

// A zone that is placed in another.
fn within(outer: Zone, inner: Zone) -> Zone {
    Zone {
        x: outer.x.wrapping_add(inner.x),
        y: outer.y.wrapping_add(inner.y),
        ..inner
    }
}

// One place of a zone.
fn place_in(zone: Zone, x: usize, y: usize) -> Zone {
    within(zone, Zone { x, y, w: 1, h: 1 })
}

// A place of `count`, or, where they are turned, that place from the end.
fn turned(place: usize, count: usize, is_turned: bool) -> usize {
    if is_turned {
        count.wrapping_sub(place).wrapping_sub(1)
    } else {
        place
    }
}

// The tile that begins there.
fn tile_at(zone: Zone, x: usize, y: usize) -> Zone {
    let w = zone.w.wrapping_sub(x).min(16);
    let h = zone.h.wrapping_sub(y).min(16);
    within(zone, Zone { x, y, w, h })
}
