//! The rule at whole cells, against its plain form: runs and subrectangles as long as a cell, many
//! subrectangles, pixels of one hash, and blocks without order.

use super::agrees;
use rfb_pixel::Format;
use std::alloc::Global;
use std::process::Abort;
use std::test::Fail;

// A pixel that a subrectangle has, and the one under it.
const DARK: u32 = 0x30;

const LIGHT: u32 = 0x90;

// Agreement in each size of pixel, by the low bits of these.
fn agrees_in_each_size(rt: &impl Abort, alloc: Global, pixels: &[u32; 4096]) -> Result<(), Fail> {
    let mut narrow = *pixels;
    agrees(rt, alloc, &Format::rgb888(), 64, 64, &narrow)?;
    for pixel in narrow.iter_mut() {
        *pixel &= 0xFFFF;
    }
    agrees(rt, alloc, &Format::rgb565(), 64, 64, &narrow)?;
    for pixel in narrow.iter_mut() {
        *pixel &= 0xFF;
    }
    agrees(rt, alloc, &Format::bgr233(), 64, 64, &narrow)
}

// A number without order.
fn next(state: &mut u32) -> u32 {
    *state = state.wrapping_mul(1_664_525).wrapping_add(1_013_904_223);
    *state >> 8
}

fn square_of_forty() -> [u32; 4096] {
    let mut pixels = [LIGHT; 4096];
    for y in 11..51 {
        for x in 13..53 {
            darken(&mut pixels, y, x);
        }
    }
    pixels
}

// Makes a place of a cell dark.
fn darken(pixels: &mut [u32; 4096], y: usize, x: usize) {
    if let Some(pixel) = pixels.get_mut(y.wrapping_mul(64).wrapping_add(x)) {
        *pixel = DARK;
    }
}

#[test]
fn one_square_of_forty_is_one_subrectangle(rt: HostRuntime) -> Result<(), Fail> {
    agrees_in_each_size(&rt, rt.alloc(), &square_of_forty())
}

#[test]
fn six_hundred_single_places_are_taken_or_given_up(rt: HostRuntime) -> Result<(), Fail> {
    let mut pixels = [LIGHT; 4096];
    for place in 0..600 {
        darken(&mut pixels, place / 30 * 2, place % 30 * 2);
    }
    agrees_in_each_size(&rt, rt.alloc(), &pixels)
}

// Rows that have `zeros` places of one pixel, and then another of its hash.
fn two_of_one_hash(zeros: usize) -> [u32; 4096] {
    let mut pixels = [0x0E8B_2F51; 4096];
    for row in pixels.chunks_mut(64) {
        for pixel in row.iter_mut().take(zeros) {
            *pixel = 0;
        }
    }
    pixels
}

#[test]
fn pixels_of_one_hash_are_not_one_pixel(rt: HostRuntime) -> Result<(), Fail> {
    for zeros in [40, 20] {
        let pixels = two_of_one_hash(zeros);
        agrees(&rt, rt.alloc(), &Format::rgb888(), 64, 64, &pixels)?;
    }
    Ok(())
}

#[test]
fn fifty_dense_and_sparse_cells_keep_the_rule(rt: HostRuntime) -> Result<(), Fail> {
    let mut state = 7u32;
    for round in 0..50u32 {
        let apart = square(round % 5).wrapping_mul(9).wrapping_add(2);
        let others = square(round % 7).wrapping_mul(30).wrapping_add(1);
        agrees_in_each_size(&rt, rt.alloc(), &sprinkled(&mut state, apart, others))?;
    }
    Ok(())
}

fn square(number: u32) -> u32 {
    number.wrapping_mul(number)
}

// One of `kinds` pixels without order, each times `apart`.
fn kind_of(state: &mut u32, kinds: u32, apart: u32) -> u32 {
    let kind = next(state).checked_rem(kinds).unwrap_or(0);
    kind.wrapping_mul(apart)
}

// A cell in which of every `apart` places one has one of `others` other pixels, and one in three of
// these goes on to the right.
fn sprinkled(state: &mut u32, apart: u32, others: u32) -> [u32; 4096] {
    let mut pixels = [0x55_5555; 4096];
    let mut pixel = 0u32;
    for place in pixels.iter_mut() {
        let dice = next(state);
        let is_other = dice.checked_rem(apart) == Some(0);
        if is_other {
            pixel = kind_of(state, others, 0x01_0307);
        }
        if is_other || dice % 3 == 0 {
            *place = pixel;
        }
    }
    pixels
}

// Gives each place one of `kinds` pixels without order.
fn give_kinds(pixels: &mut [u32; 4096], state: &mut u32, kinds: u32) {
    for pixel in pixels.iter_mut() {
        *pixel = kind_of(state, kinds, 0x0001_0000);
    }
}

#[test]
fn four_thousand_pixels_of_a_few_hashes_keep_the_rule(rt: HostRuntime) -> Result<(), Fail> {
    let mut pixels = [0; 4096];
    let mut state = 3u32;
    for kinds in [40, 1300, 1366, 1367, 4000] {
        give_kinds(&mut pixels, &mut state, kinds);
        agrees_in_each_size(&rt, rt.alloc(), &pixels)?;
    }
    Ok(())
}
