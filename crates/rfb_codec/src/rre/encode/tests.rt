//! The rule at blocks worked out by hand, and at all small blocks against its plain form.

mod cells;
mod plain;

use super::*;
use crate::codec::tests::{count_up, is_given_up, is_sent_as, raw_length, sent};
use plain::{Plain, decoded};
use std::alloc::{AllocError, Global};
use std::process::Abort;
use std::test::Fail;

const A: u32 = 0;

const B: u32 = 0x00FF_FFFF;

#[test]
fn a_block_that_is_not_shorter_leaves_out_as_it_was(rt: HostRuntime) -> Result<(), Fail> {
    // 20 bytes against 16.
    let pixels = [A, A, A, B];
    let left = is_given_up::<Rre>(rt.alloc(), &Format::rgb888(), (4, 1), &pixels, &[9, 8])?;
    assert!(rt; left);
    Ok(())
}

#[test]
fn one_place_of_eight_is_a_subrectangle(rt: HostRuntime) -> Result<(), Fail> {
    let pixels = [A, A, A, A, A, A, A, B];
    let wanted = [
        9, 8, // stood there
        0, 0, 0, 1, // number of subrectangles
        0, 0, 0, 0, // background
        0xFF, 0xFF, 0xFF, 0, // pixel
        0, 7, 0, 0, 0, 1, 0, 1, // x, y, width, height
    ];
    let format = Format::rgb888();
    let sent = is_sent_as::<Rre>(rt.alloc(), &format, (8, 1), &pixels, &[9, 8], &wanted)?;
    assert!(rt; sent);
    Ok(())
}

#[test]
fn a_big_endian_format_has_the_high_byte_first(rt: HostRuntime) -> Result<(), Fail> {
    // PIXEL_FORMAT of 16 bits with the big-endian-flag.
    let narrow = [
        0x10, 0x10, 1, 1, 0, 0x1F, 0, 0x3F, 0, 0x1F, 11, 5, 0, 0, 0, 0,
    ];
    let mut pixels = [0x1234; 9];
    pixels[8] = 0xABCD;
    let wanted = [0, 0, 0, 1, 0x12, 0x34, 0xAB, 0xCD, 0, 2, 0, 2, 0, 1, 0, 1];
    let sent = match Format::read(&narrow) {
        Ok(format) => is_sent_as::<Rre>(rt.alloc(), &format, (3, 3), &pixels, &[], &wanted)?,
        Err(_) => false,
    };
    assert!(rt; sent);
    Ok(())
}

// Whether a row of this length is taken where the last place alone differs.
fn is_row_taken(alloc: Global, format: &Format, length: u16) -> Result<bool, Fail> {
    let mut pixels = Vec::new(alloc);
    pixels.resize(usize::from(length), 3)?;
    if let Some(last) = pixels.last_mut() {
        *last = 4;
    }
    let sent = sent::<Rre>(alloc, format, (length, 1), &pixels)?;
    Ok(sent.is_some())
}

fn only_fewer_bytes_are_taken(alloc: Global) -> Result<bool, Fail> {
    for (format, length, taken) in [
        // 14 bytes at one a pixel, 16 at two, 20 at four.
        (Format::bgr233(), 13, false),
        (Format::bgr233(), 14, false),
        (Format::bgr233(), 15, true),
        (Format::rgb565(), 8, false),
        (Format::rgb565(), 9, true),
        (Format::rgb888(), 5, false),
        (Format::rgb888(), 6, true),
    ] {
        if is_row_taken(alloc, &format, length)? != taken {
            return Ok(false);
        }
    }
    Ok(true)
}

#[test]
fn only_fewer_bytes_than_raw_are_taken(rt: HostRuntime) -> Result<(), Fail> {
    assert!(rt; only_fewer_bytes_are_taken(rt.alloc())?);
    Ok(())
}

// Whether the encoder does what the rule's plain form does, and what it appends is read back.
fn keeps_the_rule(
    alloc: Global,
    format: &Format,
    size: (u16, u16),
    pixels: &[u32],
) -> Result<bool, AllocError> {
    let length = plain_length(alloc, format, size, pixels)?;
    if raw_length(format, pixels) <= length {
        return is_given_up::<Rre>(alloc, format, size, pixels, &[]);
    }
    match sent::<Rre>(alloc, format, size, pixels)? {
        Some(data) => {
            Ok(data.len() == length && is_read_back(alloc, format, &data, size, pixels)?)
        }
        None => Ok(false),
    }
}

// How many bytes the rule's plain form has.
fn plain_length(
    alloc: Global,
    format: &Format,
    size: (u16, u16),
    pixels: &[u32],
) -> Result<usize, AllocError> {
    let plain = Plain::of(alloc, pixels, usize::from(size.0), usize::from(size.1))?;
    Ok(plain.length(format.size()))
}

// Whether a reading of the data shows the pixels.
fn is_read_back(
    alloc: Global,
    format: &Format,
    data: &[u8],
    size: (u16, u16),
    pixels: &[u32],
) -> Result<bool, AllocError> {
    let shown = decoded(alloc, format, data, usize::from(size.0), pixels.len())?;
    Ok(shown.as_slice() == pixels)
}

pub(crate) fn agrees(
    rt: &impl Abort,
    alloc: Global,
    format: &Format,
    width: u16,
    height: u16,
    pixels: &[u32],
) -> Result<(), Fail> {
    let kept = keeps_the_rule(alloc, format, (width, height), pixels)?;
    assert!(rt; kept, "{width} by {height}: {pixels:?}");
    Ok(())
}

// Agreement at every block of that width and height over pixels below `values`.
fn agrees_at_size(
    rt: &impl Abort,
    alloc: Global,
    width: u16,
    height: u16,
    values: u32,
) -> Result<(), Fail> {
    let mut pixels = Vec::new(alloc);
    pixels.resize(usize::from(width).wrapping_mul(usize::from(height)), 0)?;
    for _ in 0..1_000_000 {
        agrees(rt, alloc, &Format::rgb888(), width, height, &pixels)?;
        agrees(rt, alloc, &Format::bgr233(), width, height, &pixels)?;
        if !count_up(&mut pixels, values) {
            break;
        }
    }
    Ok(())
}

// The same at every block of up to `most` places.
fn agrees_at_all(rt: &impl Abort, alloc: Global, most: u16, values: u32) -> Result<(), Fail> {
    for width in 1..=most {
        for height in 1..=most.checked_div(width).unwrap_or(0) {
            agrees_at_size(rt, alloc, width, height, values)?;
        }
    }
    Ok(())
}

#[test]
fn it_keeps_the_rule_at_every_block_of_twelve_places_over_two_pixels(
    rt: HostRuntime,
) -> Result<(), Fail> {
    agrees_at_all(&rt, rt.alloc(), 12, 2)
}

#[test]
fn it_keeps_the_rule_at_every_block_of_nine_places_over_three_pixels(
    rt: HostRuntime,
) -> Result<(), Fail> {
    agrees_at_all(&rt, rt.alloc(), 9, 3)
}

#[test]
fn it_keeps_the_rule_at_larger_blocks(rt: HostRuntime) -> Result<(), Fail> {
    let mut state = 1u32;
    for (width, height) in [
        (5, 3),
        (4, 4),
        (3, 6),
        (19, 1),
        (2, 10),
        (7, 3),
        (1, 24),
        (6, 4),
        (24, 1),
        (11, 2),
    ] {
        for round in 0..400u32 {
            agrees_where_mixed(&rt, rt.alloc(), width, height, &mut state, round % 5)?;
        }
    }
    Ok(())
}

// Agreement at a block of pixels without order, where `others` in 24 are others than 9.
fn agrees_where_mixed(
    rt: &impl Abort,
    alloc: Global,
    width: u16,
    height: u16,
    state: &mut u32,
    others: u32,
) -> Result<(), Fail> {
    let mut pixels = Vec::new(alloc);
    for _ in 0..u32::from(width).wrapping_mul(u32::from(height)) {
        pixels.push(mixed(state, others))?;
    }
    agrees(rt, alloc, &Format::bgr233(), width, height, &pixels)?;
    agrees(rt, alloc, &Format::rgb565(), width, height, &pixels)
}

fn mixed(state: &mut u32, others: u32) -> u32 {
    *state = state.wrapping_mul(1_664_525).wrapping_add(1_013_904_223);
    let chance = (*state >> 16) % 24;
    if chance < others { 1 + chance % 2 } else { 9 }
}

// Agreement at a whole cell, at four bytes a pixel and at two.
fn agrees_at_cell(rt: &impl Abort, alloc: Global, pixels: &[u32]) -> Result<(), Fail> {
    agrees(rt, alloc, &Format::rgb888(), 64, 64, pixels)?;
    agrees(rt, alloc, &Format::rgb565(), 64, 64, pixels)
}

// A cell in which three of 29 places have another pixel.
fn three_of_29() -> [u32; 4096] {
    let mut pixels = [6; 4096];
    let mut at = 0u32;
    for pixel in pixels.iter_mut() {
        if at % 29 < 3 {
            *pixel = 5;
        }
        at = at.wrapping_add(1);
    }
    pixels
}

// A cell of pixels that all differ.
fn all_different() -> [u32; 4096] {
    let mut pixels = [0; 4096];
    let mut next = 0u32;
    for pixel in pixels.iter_mut() {
        *pixel = next;
        next = next.wrapping_add(1);
    }
    pixels
}

#[test]
fn it_keeps_the_rule_at_whole_cells(rt: HostRuntime) -> Result<(), Fail> {
    agrees(&rt, rt.alloc(), &Format::rgb888(), 64, 64, &[6; 4096])?;
    agrees_at_cell(&rt, rt.alloc(), &three_of_29())?;
    agrees_at_cell(&rt, rt.alloc(), &all_different())
}
