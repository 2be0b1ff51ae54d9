//! An update of all four encodings in each of three formats, split at every byte: what is shown is
//! what a plain decoder makes of the bytes so far.

use super::plain::{Pixels, SIDE, shown_after};
use super::play::{Told, tells};
use super::*;

// Six rectangles on 18 by 18 places: bytes, and the number of pixels after them.
const UPDATE: &[(&[u8], usize)] = &[
    // Raw of 3 by 2 at (1, 0).
    (b"\0\0\0\x06\0\x01\0\0\0\x03\0\x02\0\0\0\0", 6),
    // Hextile of all: two subrectangles of one foreground, the second over the first; two with
    // pixels of their own; a raw tile; one of the foreground and the background that came first.
    (b"\0\0\0\0\0\x12\0\x12\0\0\0\x05\x0E", 2),
    (b"\x02\x12\x33\x24\x51\x18\x02", 1),
    (b"\x00\x1F", 1),
    (b"\x15\x03\x01", 32),
    // RRE of 10 by 9 at (2, 3): two subrectangles that overlap, and one of no width.
    (
        b"\xE8\x01\x10\x01\0\x02\0\x03\0\x0A\0\x09\0\0\0\x02\0\0\0\x03",
        2,
    ),
    (b"\0\x01\0\x01\0\x06\0\x05", 1),
    (b"\0\x04\0\x03\0\x06\0\x06", 1),
    (b"\0\x0A\0\0\0\0\0\x09", 0),
    // CopyRect of 9 by 9 to (4, 4), from (3, 5).
    (b"\0\x04\0\x04\0\x09\0\x09\0\0\0\x01\0\x03\0\x05", 0),
    // Raw of no width, at the right edge.
    (b"\0\x12\0\0\0\0\0\x12\0\0\0\0", 0),
    // Hextile of the last row but a place: a background, and the same in a tile of one place.
    (b"\0\x01\0\x11\0\x11\0\x01\0\0\0\x05\x02", 1),
    (b"\0", 0),
];

// Appends `count` bytes, each another than the one before it.
fn append_fresh(bytes: &mut Vec<u8>, count: usize) -> Result<(), AllocError> {
    for _ in 0..count {
        let byte = bytes.len().wrapping_mul(37) % 251;
        bytes.push(u8::try_from(byte).unwrap_or_default())?;
    }
    Ok(())
}

// Appends a row of the table, with pixels of `size` bytes.
fn append_row(bytes: &mut Vec<u8>, at: usize, size: usize) -> Result<(), AllocError> {
    let (given, count) = UPDATE.get(at).copied().unwrap_or_default();
    bytes.extend_from_slice(given)?;
    append_fresh(bytes, count.saturating_mul(size))
}

// The update with pixels of `size` bytes, each of other bytes than the one before it.
fn update(alloc: Global, size: usize) -> Result<Vec<u8>, AllocError> {
    let mut bytes = Vec::new(alloc);
    for at in 0..UPDATE.len() {
        append_row(&mut bytes, at, size)?;
    }
    Ok(bytes)
}

const HELLO_18_BY_18: &[u8] = b"RFB 003.003\n\0\0\0\x01\0\x12\0\x12................\0\0\0\0";

// Whether the viewer shows all of these colours, row by row.
fn shows_colours(viewer: &Viewer, wanted: &[Colour]) -> bool {
    let mut same = true;
    let mut y = 0;
    for row in wanted.chunks(SIDE) {
        same &= row_of(viewer, y) == row;
        y = y.saturating_add(1);
    }
    same
}

// An update, and the format that it is in.
#[derive(Clone, Copy)]
struct Case<'a> {
    format: Format,
    pixels: &'a Pixels,
    bytes: &'a [u8],
}

// Whether the bytes between two places are taken, and end the update where they are its last. The
// viewer then has to show what the plain decoder makes of all up to there.
fn shows_slice(
    viewer: &mut Viewer,
    alloc: Global,
    case: &Case<'_>,
    from: usize,
    to: usize,
) -> Result<bool, AllocError> {
    let came = case.bytes.get(..to).unwrap_or_default();
    let slice = came.get(from..).unwrap_or_default();
    let wanted = shown_after(alloc, came, case.pixels)?;
    let told = if to == case.bytes.len() {
        Told::UpdateDone
    } else {
        Told::Nothing
    };
    Ok(tells(viewer, slice, slice.len(), told) && shows_colours(viewer, &wanted))
}

// The same of all slices, the first of such a size and the others of another.
fn shows_slices(
    viewer: &mut Viewer,
    alloc: Global,
    case: &Case<'_>,
    first: usize,
    size: usize,
) -> Result<bool, AllocError> {
    let mut good = shows_slice(viewer, alloc, case, 0, first)?;
    let mut came = first;
    for slice in case
        .bytes
        .get(first..)
        .unwrap_or_default()
        .chunks(size.max(1))
    {
        let before = came;
        came = before.saturating_add(slice.len());
        good &= shows_slice(viewer, alloc, case, before, came)?;
    }
    Ok(good)
}

// The same with a viewer of its own.
fn is_shown(alloc: Global, case: &Case<'_>, first: usize, size: usize) -> Result<bool, AllocError> {
    let mut viewer = ready(alloc, case.format, HELLO_18_BY_18);
    let shown = shows_slices(&mut viewer, alloc, case, first, size);
    drop(viewer);
    shown
}

// Whether it is shown byte by byte, and in slices of some sizes.
fn is_shown_by_sizes(alloc: Global, case: &Case<'_>) -> Result<bool, AllocError> {
    let mut good = true;
    for size in [1, 2, 3, 7, 64] {
        good &= is_shown(alloc, case, 0, size)?;
    }
    Ok(good)
}

// Whether it is shown in two slices, split at each byte.
fn is_shown_by_halves(alloc: Global, case: &Case<'_>) -> Result<bool, AllocError> {
    let mut good = true;
    for first in 0..case.bytes.len() {
        good &= is_shown(alloc, case, first, case.bytes.len())?;
    }
    Ok(good)
}

fn is_shown_at_every_cut(
    alloc: Global,
    format: Format,
    pixels: &Pixels,
) -> Result<bool, AllocError> {
    let bytes = update(alloc, pixels.size)?;
    let case = Case {
        format,
        pixels,
        bytes: &bytes,
    };
    Ok(is_shown_by_sizes(alloc, &case)? && is_shown_by_halves(alloc, &case)?)
}

const RGB888: &Pixels = &Pixels {
    size: 4,
    red: (255, 0x1_0000),
    green: (255, 0x100),
    blue: (255, 1),
};

#[test]
fn pixels_of_32_bits_are_shown_as_they_come(rt: HostRuntime) -> Result<(), AllocError> {
    assert!(rt; is_shown_at_every_cut(rt.alloc(), Format::rgb888(), RGB888)?);
    Ok(())
}

const RGB565: &Pixels = &Pixels {
    size: 2,
    red: (31, 0x800),
    green: (63, 0x20),
    blue: (31, 1),
};

#[test]
fn pixels_of_16_bits_are_shown_as_they_come(rt: HostRuntime) -> Result<(), AllocError> {
    assert!(rt; is_shown_at_every_cut(rt.alloc(), Format::rgb565(), RGB565)?);
    Ok(())
}

const BGR233: &Pixels = &Pixels {
    size: 1,
    red: (7, 1),
    green: (7, 8),
    blue: (3, 0x40),
};

#[test]
fn pixels_of_8_bits_are_shown_as_they_come(rt: HostRuntime) -> Result<(), AllocError> {
    assert!(rt; is_shown_at_every_cut(rt.alloc(), Format::bgr233(), BGR233)?);
    Ok(())
}
