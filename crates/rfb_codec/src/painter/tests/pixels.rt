//! Pixels in formats of each size and both byte orders.

use super::*;

// Four pixels go into the last two columns and rows of three by three.
const PART: Ground = Ground {
    width: 3,
    height: 3,
    colour: GREEN,
    rect: Rect {
        x: 1,
        y: 1,
        w: 2,
        h: 2,
    },
};

const PART_SHOWN: [Colour; 9] = [
    GREEN, GREEN, GREEN, //
    GREEN, RED, GREEN, //
    GREEN, BLUE, BLACK,
];

// Red, green, blue and black.
const AT_RGB888: [u8; 16] = [
    0, 0, 0xFF, 0, //
    0, 0xFF, 0, 0, //
    0xFF, 0, 0, 0, //
    0, 0, 0, 0,
];

const AT_RGB565: [u8; 8] = [0x00, 0xF8, 0xE0, 0x07, 0x1F, 0x00, 0, 0];

const AT_BGR233: [u8; 4] = [0x07, 0x38, 0xC0, 0x00];

const AT_BIG_ENDIAN: [u8; 8] = [0xF8, 0x00, 0x07, 0xE0, 0x00, 0x1F, 0, 0];

// A PIXEL_FORMAT as rgb565, but for its big-endian-flag.
const BIG_ENDIAN: [u8; 16] = [16, 16, 1, 1, 0, 0x1F, 0, 0x3F, 0, 0x1F, 11, 5, 0, 0, 0, 0];

// Whether the four pixels of a format are shown.
fn shows_part(alloc: Global, format: Format, data: &[u8]) -> Result<bool, Fail> {
    let answer = done(data.len());
    paints(
        alloc,
        PART,
        Encoding::Raw,
        format,
        data,
        answer,
        &PART_SHOWN,
    )
}

fn shows_each_part(alloc: Global, big_endian: Format) -> Result<bool, Fail> {
    Ok(
        shows_part(alloc, Format::rgb888(), &AT_RGB888)?
            && shows_part(alloc, Format::rgb565(), &AT_RGB565)?
            && shows_part(alloc, Format::bgr233(), &AT_BGR233)?
            && shows_part(alloc, big_endian, &AT_BIG_ENDIAN)?,
    )
}

#[test]
fn raw_pixels_have_the_size_and_byte_order_of_the_format(rt: HostRuntime) -> Result<(), Fail> {
    let good = match Format::read(&BIG_ENDIAN) {
        Ok(big_endian) => shows_each_part(rt.alloc(), big_endian)?,
        Err(_) => false,
    };
    assert!(rt; good);
    Ok(())
}

// Red and green as tiles: raw; a subrectangle of the foreground over the background; and one of its
// own pixel.
const RAW_AT_RGB565: [u8; 5] = [1, 0x00, 0xF8, 0xE0, 0x07];

const RAW_AT_BIG_ENDIAN: [u8; 5] = [1, 0xF8, 0x00, 0x07, 0xE0];

const TILES_AT_RGB565: [[u8; 8]; 2] = [
    [0x0E, 0x00, 0xF8, 0xE0, 0x07, 1, 0x10, 0x00],
    [0x1A, 0x00, 0xF8, 1, 0xE0, 0x07, 0x10, 0x00],
];

const TILES_AT_BIG_ENDIAN: [[u8; 8]; 2] = [
    [0x0E, 0xF8, 0x00, 0x07, 0xE0, 1, 0x10, 0x00],
    [0x1A, 0xF8, 0x00, 1, 0x07, 0xE0, 0x10, 0x00],
];

fn shows_tiles(
    alloc: Global,
    format: Format,
    raw: &[u8],
    tiles: [[u8; 8]; 2],
) -> Result<bool, Fail> {
    for tile in tiles {
        if !are_red_and_green(alloc, format, &tile)? {
            return Ok(false);
        }
    }
    are_red_and_green(alloc, format, raw)
}

fn shows_all_tiles(alloc: Global, big_endian: Format) -> Result<bool, Fail> {
    Ok(
        shows_tiles(alloc, Format::rgb565(), &RAW_AT_RGB565, TILES_AT_RGB565)?
            && shows_tiles(alloc, big_endian, &RAW_AT_BIG_ENDIAN, TILES_AT_BIG_ENDIAN)?,
    )
}

#[test]
fn pixels_of_a_tile_have_the_size_and_byte_order_of_the_format(
    rt: HostRuntime,
) -> Result<(), Fail> {
    let good = match Format::read(&BIG_ENDIAN) {
        Ok(big_endian) => shows_all_tiles(rt.alloc(), big_endian)?,
        Err(_) => false,
    };
    assert!(rt; good);
    Ok(())
}

// Whether a tile of two places shows them.
fn are_red_and_green(alloc: Global, format: Format, tile: &[u8]) -> Result<bool, Fail> {
    let answer = done(tile.len());
    let shown = [RED, GREEN];
    paints(
        alloc,
        row_of(2, BLUE),
        Encoding::Hextile,
        format,
        tile,
        answer,
        &shown,
    )
}
