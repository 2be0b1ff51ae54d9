//! Blocks worked out by hand, and many more that are compared.

mod agreement;
mod plain;
mod rule;

use super::*;
use crate::codec::tests::is_sent_as;
use std::alloc::Global;
use std::process::Abort;
use std::test::Fail;

// Two pixels for tiles at one byte a pixel, made by hand.
const A: u32 = 0x10;

const B: u32 = 0x20;

// Gives `count` places that pixel, from one on.
fn give(pixels: &mut [u32], from: usize, count: usize, pixel: u32) {
    for place in pixels.iter_mut().skip(from).take(count) {
        *place = pixel;
    }
}

// A block of that width and height is sent as these bytes.
fn sends(
    rt: &impl Abort,
    alloc: Global,
    format: &Format,
    size: (u16, u16),
    pixels: &[u32],
    wanted: &[u8],
) -> Result<(), Fail> {
    let sent = is_sent_as::<Hextile>(alloc, format, size, pixels, &[], wanted)?;
    assert!(rt; sent);
    Ok(())
}

#[test]
fn tiles_of_two_colours_and_of_three_name_what_is_not_carried(rt: HostRuntime) -> Result<(), Fail> {
    let mut pixels = [A; 48];
    pixels[14] = B;
    pixels[15] = 0x30;
    pixels[31] = B;
    pixels[47] = B;
    let wanted = [
        0x1A, 0x10, 2, 0x20, 0xE0, 0, 0x30, 0xF0, 0, // three pixels: no foreground is carried
        0x0C, 0x20, 1, 0xF0, 0, // a foreground is named
        8, 1, 0xF0, 0, // both are carried
    ];
    sends(
        &rt,
        rt.alloc(),
        &Format::bgr233(),
        (48, 1),
        &pixels,
        &wanted,
    )
}

#[test]
fn a_tile_of_one_colour_leaves_the_foreground_that_is_carried(rt: HostRuntime) -> Result<(), Fail> {
    let mut pixels = [A; 48];
    pixels[15] = B;
    pixels[47] = B;
    let format = Format::bgr233();
    let wanted = [0x0E, 0x10, 0x20, 1, 0xF0, 0, 0, 8, 1, 0xF0, 0];
    sends(&rt, rt.alloc(), &format, (48, 1), &pixels, &wanted)?;
    give(&mut pixels, 16, 16, 0x30);
    let wanted = [
        0x0E, 0x10, 0x20, 1, 0xF0, 0, 2, 0x30, 0x0A, 0x10, 1, 0xF0, 0,
    ];
    sends(&rt, rt.alloc(), &format, (48, 1), &pixels, &wanted)
}

#[test]
fn tiles_of_one_colour_name_it_once(rt: HostRuntime) -> Result<(), Fail> {
    // Red 255, green 128 and blue 1, low byte first.
    let pixels = [0x00FF_8001; 17];
    let wanted = [2, 1, 0x80, 0xFF, 0, 0];
    sends(
        &rt,
        rt.alloc(),
        &Format::rgb888(),
        (17, 1),
        &pixels,
        &wanted,
    )
}

#[test]
fn a_raw_tile_leaves_no_background(rt: HostRuntime) -> Result<(), Fail> {
    let pixels = [
        0, 0, 0, 0, 0, 0, 0, 0, 0, 0, 0, 0, 0, 0, 0, 0, //
        1, 2, 3, 4, 5, 6, 7, 8, 9, 10, 11, 12, 13, 14, 15, 16, //
        0, 0, 0, 0, 0, 0, 0, 0, 0, 0, 0, 0, 0, 0, 0, 0,
    ];
    let wanted = [
        2, 0, 0, 0, 0, //
        1, 1, 0, 0, 0, 2, 0, 0, 0, 3, 0, 0, 0, 4, 0, 0, 0, //
        5, 0, 0, 0, 6, 0, 0, 0, 7, 0, 0, 0, 8, 0, 0, 0, //
        9, 0, 0, 0, 10, 0, 0, 0, 11, 0, 0, 0, 12, 0, 0, 0, //
        13, 0, 0, 0, 14, 0, 0, 0, 15, 0, 0, 0, 16, 0, 0, 0, //
        2, 0, 0, 0, 0,
    ];
    sends(
        &rt,
        rt.alloc(),
        &Format::rgb888(),
        (48, 1),
        &pixels,
        &wanted,
    )
}

#[test]
fn a_place_has_x_and_width_in_the_high_digits(rt: HostRuntime) -> Result<(), Fail> {
    // 4 columns and 2 rows at (3, 5).
    let mut pixels = [A; 256];
    give(&mut pixels, 83, 4, B);
    give(&mut pixels, 99, 4, B);
    let wanted = [0x0E, 0x10, 0x20, 1, 0x35, 0x31];
    sends(
        &rt,
        rt.alloc(),
        &Format::bgr233(),
        (16, 16),
        &pixels,
        &wanted,
    )
}

#[test]
fn a_tile_that_is_no_shorter_than_its_pixels_is_raw(rt: HostRuntime) -> Result<(), Fail> {
    // One place: mask and pixel either way.
    let mut pixels = [A; 17];
    pixels[16] = B;
    let format = Format::bgr233();
    sends(
        &rt,
        rt.alloc(),
        &format,
        (17, 1),
        &pixels,
        &[2, 0x10, 1, 0x20],
    )?;
    // Mask, count and three bytes for each other pixel: 14 for four of them, 17 for five, as raw.
    let mut pixels = [A; 32];
    let four = [
        2, 0x10, 0x18, 4, 1, 0, 0, 2, 0x20, 0, 3, 0x40, 0, 4, 0x60, 0,
    ];
    pixels[16] = 1;
    pixels[18] = 2;
    pixels[20] = 3;
    pixels[22] = 4;
    sends(&rt, rt.alloc(), &format, (32, 1), &pixels, &four)?;
    let five = [
        2, 0x10, 1, 1, 0x10, 2, 0x10, 3, 0x10, 4, 0x10, 5, 0x10, 0x10, 0x10, 0x10, 0x10, 0x10, 0x10,
    ];
    pixels[24] = 5;
    sends(&rt, rt.alloc(), &format, (32, 1), &pixels, &five)
}

#[test]
fn a_big_endian_format_has_the_high_byte_first(rt: HostRuntime) -> Result<(), Fail> {
    // PIXEL_FORMAT of 16 bits with the big-endian-flag.
    let narrow = [
        0x10, 0x10, 1, 1, 0, 0x1F, 0, 0x3F, 0, 0x1F, 11, 5, 0, 0, 0, 0,
    ];
    let wanted = [2, 0x12, 0x34, 0];
    let sent = match Format::read(&narrow) {
        Ok(format) => {
            is_sent_as::<Hextile>(rt.alloc(), &format, (17, 1), &[0x1234; 17], &[], &wanted)?
        }
        Err(_) => false,
    };
    assert!(rt; sent);
    Ok(())
}
