//! Pixels in each order of bytes.

use super::*;
use crate::codec::tests::is_sent_as;
use std::alloc::Global;
use std::process::Abort;
use std::test::Fail;

// For a block of that width and height, the output is these bytes; the first was there before.
fn sends(
    rt: &impl Abort,
    alloc: Global,
    format: &Format,
    size: (u16, u16),
    pixels: &[u32],
    wanted: &[u8],
) -> Result<(), Fail> {
    let sent = is_sent_as::<Raw>(alloc, format, size, pixels, &[9], wanted)?;
    assert!(rt; sent);
    Ok(())
}

#[test]
fn four_bytes_a_pixel_low_byte_first(rt: HostRuntime) -> Result<(), Fail> {
    let pixels = [0, 0, 0, 0x00FF_FFFF];
    let wanted = [9, 0, 0, 0, 0, 0, 0, 0, 0, 0, 0, 0, 0, 0xFF, 0xFF, 0xFF, 0];
    sends(&rt, rt.alloc(), &Format::rgb888(), (4, 1), &pixels, &wanted)
}

#[test]
fn two_bytes_a_pixel_row_by_row(rt: HostRuntime) -> Result<(), Fail> {
    let pixels = [0x0102, 0x0304, 0x0506, 0xF708];
    let wanted = [9, 2, 1, 4, 3, 6, 5, 8, 0xF7];
    sends(&rt, rt.alloc(), &Format::rgb565(), (2, 2), &pixels, &wanted)
}

#[test]
fn one_byte_a_pixel(rt: HostRuntime) -> Result<(), Fail> {
    let wanted = [9, 1, 2, 0xFF];
    sends(
        &rt,
        rt.alloc(),
        &Format::bgr233(),
        (1, 3),
        &[1, 2, 0xFF],
        &wanted,
    )
}

// Whether a pixel is sent so in the format that a PIXEL_FORMAT spells.
fn is_one_sent(alloc: Global, field: &[u8; 16], pixel: u32, wanted: &[u8]) -> Result<bool, Fail> {
    match Format::read(field) {
        Ok(format) => Ok(is_sent_as::<Raw>(alloc, &format, (1, 1), &[pixel], &[9], wanted)?),
        Err(_) => Ok(false),
    }
}

#[test]
fn big_endian_formats_have_the_high_byte_first(rt: HostRuntime) -> Result<(), Fail> {
    // PIXEL_FORMAT of 32 bits and of 16, with the big-endian-flag.
    let wide = [
        0x20, 0x18, 1, 1, 0, 0xFF, 0, 0xFF, 0, 0xFF, 0x10, 0x08, 0, 0, 0, 0,
    ];
    let narrow = [
        0x10, 0x10, 1, 1, 0, 0x1F, 0, 0x3F, 0, 0x1F, 11, 5, 0, 0, 0, 0,
    ];
    let good = is_one_sent(rt.alloc(), &wide, 0x1234_5678, &[9, 0x12, 0x34, 0x56, 0x78])?
        && is_one_sent(rt.alloc(), &narrow, 0x1234, &[9, 0x12, 0x34])?;
    assert!(rt; good);
    Ok(())
}
