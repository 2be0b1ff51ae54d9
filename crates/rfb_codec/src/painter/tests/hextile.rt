//! Tiles of Hextile, most of them in a row.

use super::cuts::picture_of;
use super::*;

// Pixels 0x10, 0x20 and 0x30 at bgr233: 2, 4 and 6 sevenths of green. Pixel 0 is black.
const TEN: Colour = Colour {
    r: 0,
    g: 18_724,
    b: 0,
};

const TWENTY: Colour = Colour {
    r: 0,
    g: 37_449,
    b: 0,
};

const THIRTY: Colour = Colour {
    r: 0,
    g: 56_173,
    b: 0,
};

// Three tiles at bgr233: two coloured subrectangles; one of a foreground; one of the same, carried,
// as the background of both is.
pub const THREE: [u8; 18] = [
    0x1A, 0x10, 2, 0x20, 0xE0, 0x00, 0x30, 0xF0, 0x00, //
    0x0C, 0x20, 1, 0xF0, 0x00, //
    0x08, 1, 0xF0, 0x00,
];

// A number of places of each colour in turn.
fn places_of(alloc: Global, runs: &[(u16, Colour)]) -> Result<Vec<Colour>, Fail> {
    let mut row = Vec::new(alloc);
    for (places, colour) in runs {
        row.resize(row.len().saturating_add(usize::from(*places)), *colour)?;
    }
    Ok(row)
}

// All of the data are taken, and a row shows these colours.
fn shows_all(
    rt: &impl Abort,
    alloc: Global,
    format: Format,
    data: &[u8],
    want: &[Colour],
) -> Result<(), Fail> {
    let width = u16::try_from(want.len()).unwrap_or(0);
    let ground = row_of(width, RED);
    let answer = done(data.len());
    let good = paints(alloc, ground, Encoding::Hextile, format, data, answer, want)?;
    assert!(rt; good);
    Ok(())
}

// The same of a number of places of each colour in turn.
fn shows(
    rt: &impl Abort,
    alloc: Global,
    format: Format,
    data: &[u8],
    runs: &[(u16, Colour)],
) -> Result<(), Fail> {
    let want = places_of(alloc, runs)?;
    shows_all(rt, alloc, format, data, want.as_slice())
}

// The same at bgr233.
fn shows_small(
    rt: &impl Abort,
    alloc: Global,
    data: &[u8],
    runs: &[(u16, Colour)],
) -> Result<(), Fail> {
    shows(rt, alloc, Format::bgr233(), data, runs)
}

// The second tile is one place wide, and has the first one's background.
#[test]
fn a_tile_of_its_mask_alone_is_whole(rt: HostRuntime) -> Result<(), Fail> {
    let colour = Colour {
        r: 65_535,
        g: 32_896,
        b: 257,
    };
    let data = [0x02, 0x01, 0x80, 0xFF, 0x00, 0x00];
    shows(&rt, rt.alloc(), Format::rgb888(), &data, &[(17, colour)])
}

// The bytes of a raw tile of sixteen pixels between two of one colour; the third tile has these
// bytes.
fn around_raw(alloc: Global, last: &[u8]) -> Result<Vec<u8>, Fail> {
    let mut data = Vec::new(alloc);
    data.extend_from_slice(&[0x02, 1, 2, 3, 0, 0x01])?;
    for n in 0..16u8 {
        data.extend_from_slice(&[n, 7, 9, 0])?;
    }
    data.extend_from_slice(last)?;
    Ok(data)
}

// What these tiles show.
fn shown_around_raw(alloc: Global) -> Result<Vec<Colour>, Fail> {
    let colour = Colour {
        r: 771,
        g: 514,
        b: 257,
    };
    let mut want = places_of(alloc, &[(16, colour)])?;
    for b in 0..16u8 {
        want.push(Colour {
            r: 2313,
            g: 1799,
            b: u16::from(b) * 257,
        })?;
    }
    want.resize(48, colour)?;
    Ok(want)
}

// After the raw tile comes this one, of the background.
fn shows_around_raw(rt: &impl Abort, alloc: Global, last: &[u8]) -> Result<(), Fail> {
    let data = around_raw(alloc, last)?;
    let want = shown_around_raw(alloc)?;
    shows_all(rt, alloc, Format::rgb888(), &data, &want)
}

#[test]
fn a_background_is_carried_past_a_raw_tile(rt: HostRuntime) -> Result<(), Fail> {
    shows_around_raw(&rt, rt.alloc(), &[0x02, 1, 2, 3, 0])?;
    shows_around_raw(&rt, rt.alloc(), &[0x00])
}

#[test]
fn colours_are_carried_from_tile_to_tile(rt: HostRuntime) -> Result<(), Fail> {
    let runs = [
        (14, TEN),
        (1, TWENTY),
        (1, THIRTY),
        (15, TEN),
        (1, TWENTY),
        (15, TEN),
        (1, TWENTY),
    ];
    shows_small(&rt, rt.alloc(), &THREE, &runs)
}

// The second tile's own pixels are no foreground.
#[test]
fn a_foreground_is_carried_past_a_coloured_tile(rt: HostRuntime) -> Result<(), Fail> {
    let data = [
        0x0E, 0x10, 0x20, 1, 0x00, 0x00, //
        0x18, 1, 0x30, 0x00, 0x00, //
        0x08, 1, 0x00, 0x00,
    ];
    let runs = [
        (1, TWENTY),
        (15, TEN),
        (1, THIRTY),
        (15, TEN),
        (1, TWENTY),
        (15, TEN),
    ];
    shows_small(&rt, rt.alloc(), &data, &runs)
}

#[test]
fn a_foreground_is_carried_past_a_raw_tile(rt: HostRuntime) -> Result<(), Fail> {
    let data = [
        0x06, 0x10, 0x20, //
        0x01, 0x30, 0x30, 0x30, 0x30, 0x30, 0x30, 0x30, 0x30, //
        0x30, 0x30, 0x30, 0x30, 0x30, 0x30, 0x30, 0x30, //
        0x08, 1, 0x00, 0x00,
    ];
    let runs = [(16, TEN), (16, THIRTY), (1, TWENTY), (1, TEN)];
    shows_small(&rt, rt.alloc(), &data, &runs)
}

#[test]
fn a_foreground_is_specified_without_subrectangles(rt: HostRuntime) -> Result<(), Fail> {
    let data = [0x06, 0x10, 0x20, 0x08, 1, 0x00, 0x00];
    shows_small(&rt, rt.alloc(), &data, &[(16, TEN), (1, TWENTY), (1, TEN)])
}

#[test]
fn a_tile_has_the_later_of_two_colours(rt: HostRuntime) -> Result<(), Fail> {
    let data = [0x06, 0x10, 0x20, 0x06, 0x30, 0x00, 0x08, 1, 0x00, 0x00];
    let runs = [(16, TEN), (16, THIRTY), (1, BLACK), (1, THIRTY)];
    shows_small(&rt, rt.alloc(), &data, &runs)
}

#[test]
fn the_last_subrectangle_of_a_tile_wins(rt: HostRuntime) -> Result<(), Fail> {
    let data = [0x1A, 0x10, 2, 0x20, 0x00, 0x20, 0x30, 0x10, 0x00];
    shows_small(
        &rt,
        rt.alloc(),
        &data,
        &[(1, TWENTY), (1, THIRTY), (1, TWENTY), (1, TEN)],
    )
}

// Two places: by a subrectangle, by counts of 0, and by masks whose other bits say nothing.
#[test]
fn bits_without_effect_are_accepted(rt: HostRuntime) -> Result<(), Fail> {
    let two = [TEN, TWENTY].as_slice();
    let one = [TEN, TEN].as_slice();
    for (data, want) in [
        ([0x0E, 0x10, 0x20, 1, 0x10, 0x00].as_slice(), two),
        (&[0x01, 0x10, 0x20], two),
        (&[0xFF, 0x10, 0x20], two),
        (&[0x0E, 0x10, 0x20, 0], one),
        (&[0x1A, 0x10, 0], one),
        (&[0x12, 0x10], one),
        (&[0xE2, 0x10], one),
    ] {
        shows_all(&rt, rt.alloc(), Format::bgr233(), data, want)?;
    }
    Ok(())
}

// Two by two tiles, row by row; but for the first they are one place wide, one high, or both.
const FOUR: [u8; 12] = [
    0x0E, 0x10, 0x00, 1, 0x12, 0x23, 0x02, 0x20, 0x02, 0x30, 0x02, 0xC0,
];

// Whether they are taken in two slices.
fn takes_tiles(picture: &mut Picture<Colour>, first: usize) -> bool {
    let rect = Rect {
        x: 1,
        y: 1,
        w: 17,
        h: 17,
    };
    if !picture.holds(rect) {
        return false;
    }
    let format = Format::bgr233();
    fed_in_two(picture, rect, Encoding::Hextile, format, &FOUR, first) == done(12)
}

fn places_tiles(alloc: Global, first: usize) -> Result<bool, Fail> {
    let mut picture = picture_of(alloc, 19, 19, RED)?;
    let good = takes_tiles(&mut picture, first) && are_placed(&picture);
    drop(picture);
    Ok(good)
}

fn places_tiles_at_every_cut(alloc: Global) -> Result<bool, Fail> {
    for first in 0..=12 {
        if !places_tiles(alloc, first)? {
            return Ok(false);
        }
    }
    Ok(true)
}

#[test]
fn tiles_are_placed_in_their_rectangle(rt: HostRuntime) -> Result<(), Fail> {
    assert!(rt; places_tiles_at_every_cut(rt.alloc())?);
    Ok(())
}

fn are_placed(picture: &Picture<Colour>) -> bool {
    for y in 0..picture.height() {
        for x in 0..picture.width() {
            if picture.at(x, y) != placed(x, y) {
                return false;
            }
        }
    }
    true
}

// The subrectangle lies at column 1 and row 2 of the first tile, three wide and four high.
fn placed(x: u16, y: u16) -> Colour {
    match (x, y) {
        (0 | 18, _) | (_, 0 | 18) => RED,
        (17, 17) => BLUE,
        (17, _) => TWENTY,
        (_, 17) => THIRTY,
        (2..=4, 3..=6) => BLACK,
        _ => TEN,
    }
}
