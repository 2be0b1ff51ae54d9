//! The rule in its plain form, with a mark for each place, and a plain reading of RRE.

use crate::codec::tests::input::Input;
use crate::codec::tests::most_frequent;
use rfb_picture::Rect;
use rfb_pixel::Format;
use std::alloc::{AllocError, Global};
use std::result::Result;

/// A background and how many subrectangles there are over it.
#[derive(Drop)]
pub struct Plain {
    count: usize,
}

// The index of a place.
fn place(width: usize, x: usize, y: usize) -> usize {
    y.wrapping_mul(width).wrapping_add(x)
}

// Whether a place has the pixel and no mark.
fn is_open(pixels: &[u32], marks: &[bool], at: usize, pixel: u32) -> bool {
    pixels.get(at) == Some(&pixel) && marks.get(at) == Some(&false)
}

// How many open places of the pixel follow to the right, from (x, y) on.
fn run_of(pixels: &[u32], marks: &[bool], width: usize, x: usize, y: usize, pixel: u32) -> usize {
    let mut run = 0usize;
    for i in x..width {
        if !is_open(pixels, marks, place(width, i, y), pixel) {
            break;
        }
        run = run.wrapping_add(1);
    }
    run
}

impl Plain {
    /// What the rule makes of the pixels.
    pub fn of(
        alloc: Global,
        pixels: &[u32],
        width: usize,
        height: usize,
    ) -> Result<Plain, AllocError> {
        let background = most_frequent(pixels);
        let mut marks = Vec::new(alloc);
        marks.resize(pixels.len(), false)?;
        let mut count = 0usize;
        for y in 0..height {
            for x in 0..width {
                let pixel = match pixels.get(place(width, x, y)) {
                    Some(pixel) => *pixel,
                    None => background,
                };
                if pixel == background || !is_open(pixels, &marks, place(width, x, y), pixel) {
                    continue;
                }
                count = count.wrapping_add(1);
                let run = run_of(pixels, &marks, width, x, y, pixel);
                for j in y..height {
                    if run_of(pixels, &marks, width, x, j, pixel) < run {
                        break;
                    }
                    for i in 0..run {
                        if let Some(mark) = marks.get_mut(place(width, x.wrapping_add(i), j)) {
                            *mark = true;
                        }
                    }
                }
            }
        }
        Ok(Plain { count })
    }

    /// How many bytes it has, with `size` for a pixel.
    pub fn length(&self, size: usize) -> usize {
        size.wrapping_add(8)
            .wrapping_mul(self.count)
            .wrapping_add(4)
            .wrapping_add(size)
    }
}

// The rectangle of a subrectangle.
fn rect_of(input: &mut Input<'_>) -> Rect {
    let x = input.pair();
    let y = input.pair();
    let w = input.pair();
    let h = input.pair();
    Rect { x, y, w, h }
}

// Gives the places of a rectangle that pixel, in a block so wide.
fn fill(shown: &mut [u32], width: usize, rect: Rect, pixel: u32) {
    for y in 0..rect.h {
        for x in 0..rect.w {
            let column = usize::from(rect.x) + usize::from(x);
            let row = usize::from(rect.y) + usize::from(y);
            if let Some(place) = shown.get_mut(place(width, column, row)) {
                *place = pixel;
            }
        }
    }
}

/// The pixels that RRE data show, as far as they can be read.
pub fn decoded(
    alloc: Global,
    format: &Format,
    bytes: &[u8],
    width: usize,
    places: usize,
) -> Result<Vec<u32>, AllocError> {
    let mut input = Input::of(bytes);
    let high = u32::from(input.pair());
    let count = high * 65536 + u32::from(input.pair());
    let mut shown = Vec::new(alloc);
    shown.resize(places, input.pixel(format))?;
    for _ in 0..count {
        let pixel = input.pixel(format);
        let rect = rect_of(&mut input);
        fill(&mut shown, width, rect, pixel);
    }
    Ok(shown)
}
