//! Many blocks, against the rule's plain form and a plain reading.

use super::plain::decoded;
use super::rule;
use crate::codec::tests::{count_up, is_given_up, is_sent_as, raw_length};
use crate::hextile::Hextile;
use rfb_pixel::Format;
use std::alloc::{AllocError, Global};
use std::process::Abort;
use std::test::Fail;

const A: u32 = 0x10;

const B: u32 = 0x20;

// Whether a reading of the data shows the pixels, with colours carried as leniently and as strictly
// as can be.
fn is_read_back(
    alloc: Global,
    format: &Format,
    data: &[u8],
    size: (u16, u16),
    pixels: &[u32],
) -> Result<bool, AllocError> {
    Ok(
        is_read_as(alloc, format, data, size, pixels, false)?
            && is_read_as(alloc, format, data, size, pixels, true)?,
    )
}

fn is_read_as(
    alloc: Global,
    format: &Format,
    data: &[u8],
    size: (u16, u16),
    pixels: &[u32],
    strict: bool,
) -> Result<bool, AllocError> {
    let (columns, rows) = (usize::from(size.0), usize::from(size.1));
    match decoded(alloc, format, data, columns, rows, strict)? {
        Some(shown) => Ok(shown.as_slice() == pixels),
        None => Ok(false),
    }
}

// Bytes before those of a block.
const BEFORE: [u8; 2] = [9, 8];

fn after_those_before(alloc: Global, tiles: &[u8]) -> Result<Vec<u8>, AllocError> {
    let mut bytes = Vec::new(alloc);
    bytes.extend_from_slice(&BEFORE)?;
    bytes.extend_from_slice(tiles)?;
    Ok(bytes)
}

// Whether a block is sent as these bytes, after those that were there.
fn is_sent(
    alloc: Global,
    format: &Format,
    size: (u16, u16),
    pixels: &[u32],
    tiles: &[u8],
) -> Result<bool, AllocError> {
    let wanted = after_those_before(alloc, tiles)?;
    is_sent_as::<Hextile>(alloc, format, size, pixels, &BEFORE, &wanted)
}

// Whether the encoder does what the rule's plain form does, after bytes that were there, and what
// it appends is read back.
fn keeps_the_rule(
    alloc: Global,
    format: &Format,
    size: (u16, u16),
    pixels: &[u32],
) -> Result<bool, AllocError> {
    let tiles = rule::spelled(alloc, format, pixels, size)?;
    if tiles.len() < raw_length(format, pixels) {
        Ok(
            is_sent(alloc, format, size, pixels, &tiles)?
                && is_read_back(alloc, format, &tiles, size, pixels)?,
        )
    } else {
        is_given_up::<Hextile>(alloc, format, size, pixels, &BEFORE)
    }
}

fn agrees(
    rt: &impl Abort,
    alloc: Global,
    format: &Format,
    width: u16,
    height: u16,
    pixels: &[u32],
) -> Result<(), Fail> {
    let kept = keeps_the_rule(alloc, format, (width, height), pixels)?;
    assert!(rt; kept, "{width} by {height}: {pixels:?}");
    Ok(())
}

// A pixel of a tile of one colour, of two, of three, or of many without order.
fn pixel_of_kind(kind: u32, x: u16, y: u16) -> u32 {
    let here = x == 5 && 3 < y;
    match kind {
        0 => A,
        1 => if here { B } else { A },
        2 if y == 9 => 0x30,
        2 => if here { B } else { A },
        3 => u32::from(x)
            .wrapping_mul(138)
            .wrapping_add(u32::from(y).wrapping_mul(62))
            % 251,
        4 => B,
        _ => if here { A } else { B },
    }
}

// The number of the tile that a place lies in.
fn tile_at(across: u16, x: u16, y: u16) -> usize {
    usize::from(y / 16)
        .wrapping_mul(usize::from(across))
        .wrapping_add(usize::from(x / 16))
}

// A block of tiles of these kinds, `across` in each row.
fn block_of_kinds(alloc: Global, kinds: &[u32], across: u16, down: u16) -> Result<Vec<u32>, Fail> {
    let mut pixels = Vec::new(alloc);
    for y in 0..down.wrapping_mul(16) {
        for x in 0..across.wrapping_mul(16) {
            let at = tile_at(across, x, y);
            let kind = kinds.get(at).copied().unwrap_or(0);
            pixels.push(pixel_of_kind(kind, x % 16, y % 16))?;
        }
    }
    Ok(pixels)
}

// Agreement at each block of tiles of kinds below `kinds`, `across` by `down` of them.
fn agrees_at_kinds(
    rt: &impl Abort,
    alloc: Global,
    across: u16,
    down: u16,
    kinds: u32,
) -> Result<(), Fail> {
    let mut tiles = Vec::new(alloc);
    tiles.resize(usize::from(across).wrapping_mul(usize::from(down)), 0)?;
    for _ in 0..5000 {
        agrees_at_tiles(rt, alloc, across, down, &tiles)?;
        if !count_up(&mut tiles, kinds) {
            break;
        }
    }
    Ok(())
}

// The same at one of these blocks.
fn agrees_at_tiles(
    rt: &impl Abort,
    alloc: Global,
    across: u16,
    down: u16,
    kinds: &[u32],
) -> Result<(), Fail> {
    let pixels = block_of_kinds(alloc, kinds, across, down)?;
    let (width, height) = (across.wrapping_mul(16), down.wrapping_mul(16));
    agrees(rt, alloc, &Format::bgr233(), width, height, &pixels)?;
    agrees(rt, alloc, &Format::rgb888(), width, height, &pixels)
}

// Agreement in each size of pixel.
fn agrees_in_each_size(
    rt: &impl Abort,
    alloc: Global,
    width: u16,
    height: u16,
    pixels: &[u32],
) -> Result<(), Fail> {
    agrees(rt, alloc, &Format::bgr233(), width, height, pixels)?;
    agrees(rt, alloc, &Format::rgb565(), width, height, pixels)?;
    agrees(rt, alloc, &Format::rgb888(), width, height, pixels)
}

#[test]
fn it_keeps_the_rule_at_every_row_of_four_tiles(rt: HostRuntime) -> Result<(), Fail> {
    agrees_at_kinds(&rt, rt.alloc(), 4, 1, 6)
}

#[test]
fn it_keeps_the_rule_at_every_two_rows_of_three_tiles(rt: HostRuntime) -> Result<(), Fail> {
    agrees_at_kinds(&rt, rt.alloc(), 3, 2, 4)
}

#[test]
fn it_keeps_the_rule_at_every_row_of_few_places(rt: HostRuntime) -> Result<(), Fail> {
    for (width, values) in [
        (1, 3),
        (2, 3),
        (3, 3),
        (4, 3),
        (5, 3),
        (6, 3),
        (7, 3),
        (12, 2),
    ] {
        agrees_at_row(&rt, rt.alloc(), width, values)?;
    }
    Ok(())
}

// Agreement at each row of `width` places over pixels below `values`.
fn agrees_at_row(rt: &impl Abort, alloc: Global, width: u16, values: u32) -> Result<(), Fail> {
    let mut pixels = Vec::new(alloc);
    pixels.resize(usize::from(width), 0)?;
    for _ in 0..5000 {
        agrees_in_each_size(rt, alloc, width, 1, &pixels)?;
        if !count_up(&mut pixels, values) {
            break;
        }
    }
    Ok(())
}

// Pixels without order: one in `chance` is another than 9, of `values` others.
fn sprinkled(
    alloc: Global,
    places: u32,
    state: &mut u32,
    chance: u32,
    values: u32,
) -> Result<Vec<u32>, Fail> {
    let mut pixels = Vec::new(alloc);
    for _ in 0..places {
        pixels.push(sprinkle(state, chance, values))?;
    }
    Ok(pixels)
}

fn sprinkle(state: &mut u32, chance: u32, values: u32) -> u32 {
    *state = state.wrapping_mul(1_664_525).wrapping_add(1_013_904_223);
    let dice = *state >> 16;
    if dice.checked_rem(chance) == Some(0) {
        let other = (dice >> 8).checked_rem(values).unwrap_or(0);
        other.wrapping_add(10)
    } else {
        9
    }
}

// Agreement at a block of such pixels.
fn agrees_where_sprinkled(
    rt: &impl Abort,
    alloc: Global,
    size: (u16, u16),
    state: &mut u32,
    chance: u32,
    values: u32,
) -> Result<(), Fail> {
    let places = u32::from(size.0).wrapping_mul(u32::from(size.1));
    let pixels = sprinkled(alloc, places, state, chance, values)?;
    agrees_in_each_size(rt, alloc, size.0, size.1, &pixels)
}

#[test]
fn it_keeps_the_rule_at_sizes_beside_those_of_tiles(rt: HostRuntime) -> Result<(), Fail> {
    let mut state = 1u32;
    for width in [1, 15, 16, 17, 33, 64] {
        for height in [1, 15, 16, 17, 33, 64] {
            for (chance, values) in [(40, 2), (12, 1), (9, 3), (3, 4), (1, 90)] {
                let size = (width, height);
                agrees_where_sprinkled(&rt, rt.alloc(), size, &mut state, chance, values)?;
            }
        }
    }
    Ok(())
}

// Gives a place of the second tile a pixel of its own.
fn give_another(pixels: &mut [u32; 512], other: u16) {
    let place = (other / 16).wrapping_mul(32).wrapping_add(16 + other % 16);
    if let Some(pixel) = pixels.get_mut(usize::from(place)) {
        *pixel = u32::from(other).wrapping_add(10);
    }
}

#[test]
fn it_keeps_the_rule_at_every_number_of_pixels(rt: HostRuntime) -> Result<(), Fail> {
    // The first tile leaves its background, which then needs no bytes in the second.
    let mut pixels = [9; 512];
    for others in 0..246u16 {
        give_another(&mut pixels, others);
        agrees_in_each_size(&rt, rt.alloc(), 32, 16, &pixels)?;
    }
    Ok(())
}

// Two pixels by turns, or none of them twice in a row.
fn checkered(alloc: Global, side: u16) -> Result<Vec<u32>, Fail> {
    let mut pixels = Vec::new(alloc);
    for y in 0..side {
        for x in 0..side {
            pixels.push(if x % 2 == y % 2 { A } else { B })?;
        }
    }
    Ok(pixels)
}

fn agrees_checkered(rt: &impl Abort, alloc: Global, side: u16) -> Result<(), Fail> {
    let pixels = checkered(alloc, side)?;
    agrees_in_each_size(rt, alloc, side, side, &pixels)
}

#[test]
fn a_checkerboard_is_a_tile_of_two_pixels(rt: HostRuntime) -> Result<(), Fail> {
    // A tile has 128 subrectangles, which are shorter than Raw at four bytes a pixel alone.
    agrees_checkered(&rt, rt.alloc(), 16)?;
    agrees_checkered(&rt, rt.alloc(), 64)
}

#[test]
fn pixels_of_one_hash_are_two(rt: HostRuntime) -> Result<(), Fail> {
    for third in [0, 5] {
        let pixels = of_one_hash(rt.alloc(), third)?;
        agrees(&rt, rt.alloc(), &Format::rgb888(), 16, 16, &pixels)?;
    }
    Ok(())
}

// Rows of sixteen places: five of one pixel, this third one, and ten of another of the first's
// hash.
fn of_one_hash(alloc: Global, third: u32) -> Result<Vec<u32>, Fail> {
    let mut pixels = Vec::new(alloc);
    for place in 0..256 {
        pixels.push(match place % 16 {
            0..=4 => 0,
            5 => third,
            _ => 0x0E8B_2F51,
        })?;
    }
    Ok(pixels)
}

#[test]
fn fifty_dense_and_sparse_cells_keep_the_rule(rt: HostRuntime) -> Result<(), Fail> {
    let mut state = 11u32;
    for round in 0..50u32 {
        let chance = square(round % 5).wrapping_mul(5).wrapping_add(1);
        let values = square(round % 10).wrapping_mul(3).wrapping_add(1);
        agrees_where_sprinkled(&rt, rt.alloc(), (64, 64), &mut state, chance, values)?;
    }
    Ok(())
}

fn square(number: u32) -> u32 {
    number.wrapping_mul(number)
}
