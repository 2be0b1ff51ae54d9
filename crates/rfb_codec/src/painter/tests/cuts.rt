//! Data that come in slices: after each byte the picture shows the whole pieces so far, and the
//! bytes of the piece under way are pending.

use super::hextile::THREE;
use super::*;
use std::alloc::AllocError;

const TEN: Colour = Colour {
    r: 0,
    g: 18_724,
    b: 0,
};

const TWENTY: Colour = Colour {
    r: 0,
    g: 37_449,
    b: 0,
};

const THIRTY: Colour = Colour {
    r: 0,
    g: 56_173,
    b: 0,
};

// No pixel of either format shows it.
const GREY: Colour = Colour { r: 1, g: 2, b: 3 };

// A piece: the number of the bytes up to its end, what it gives a colour, and the mask of a raw
// tile as a piece that shows nothing.
#[derive(Clone, Copy)]
struct Piece {
    end: usize,
    from: u16,
    places: u16,
    colour: Colour,
}

fn shown_at(end: usize, from: u16, places: u16, colour: Colour) -> Piece {
    Piece {
        end,
        from,
        places,
        colour,
    }
}

// Pixels of one byte or of four.
#[derive(Clone, Copy)]
enum Pixels {
    Bgr233,
    Rgb888,
}

fn format_of(pixels: Pixels) -> Format {
    match pixels {
        Pixels::Bgr233 => Format::bgr233(),
        Pixels::Rgb888 => Format::rgb888(),
    }
}

// Data of a rectangle of all of a picture, and what they are made of. Places are counted row by
// row.
#[derive(Clone, Copy)]
struct Scene<'a> {
    encoding: Encoding,
    pixels: Pixels,
    width: u16,
    height: u16,
    data: &'a [u8],
    pieces: &'a [Piece],
}

// Data of a row at bgr233.
fn row_scene<'a>(encoding: Encoding, width: u16, data: &'a [u8], pieces: &'a [Piece]) -> Scene<'a> {
    Scene {
        encoding,
        pixels: Pixels::Bgr233,
        width,
        height: 1,
        data,
        pieces,
    }
}

// Whether a piece gives a place its colour.
fn covers(piece: Piece, place: u32) -> bool {
    match place.checked_sub(u32::from(piece.from)) {
        Some(after) => after < u32::from(piece.places),
        None => false,
    }
}

// The colour of a place after `bytes` bytes: each piece that is whole is laid over those before.
fn colour_after(pieces: &[Piece], place: u32, bytes: usize) -> Colour {
    let mut shown = GREY;
    for piece in pieces.iter() {
        if piece.end <= bytes && covers(*piece, place) {
            shown = piece.colour;
        }
    }
    shown
}

// Whether a picture shows what the first `bytes` bytes of a scene give it.
fn shows_after(picture: &Picture<Colour>, pieces: &[Piece], bytes: usize) -> bool {
    let width = picture.width();
    for y in 0..picture.height() {
        for x in 0..width {
            let place = u32::from(y)
                .wrapping_mul(u32::from(width))
                .wrapping_add(u32::from(x));
            if picture.at(x, y) != colour_after(pieces, place, bytes) {
                return false;
            }
        }
    }
    true
}

// The bytes after the last piece that is whole.
fn pending_after(pieces: &[Piece], bytes: usize) -> usize {
    let mut last = 0;
    for piece in pieces {
        if piece.end <= bytes {
            last = piece.end;
        }
    }
    bytes.saturating_sub(last)
}

/// A picture of one colour.
pub fn picture_of(
    alloc: Global,
    width: u16,
    height: u16,
    colour: Colour,
) -> Result<Picture<Colour>, AllocError> {
    Picture::new(alloc, width, height, colour)
}

/// Whether a painter answers so to bytes. It looks first that the rectangle lies in the picture, so
/// a test need not prove it.
pub fn answers(
    painter: &mut Painter,
    picture: &mut Picture<Colour>,
    bytes: &[u8],
    wanted: Result<Painted, PaintFault>,
) -> bool {
    if !picture.holds(painter.rect()) {
        return false;
    }
    painter.feed(bytes, picture) == wanted
}

/// Whether `wanted` bytes are pending.
pub fn has_pending(painter: &Painter, wanted: usize) -> bool {
    painter.pending() == wanted
}

// A painter of all of a scene.
fn painter_of(scene: Scene<'_>) -> Painter {
    let all = Rect {
        x: 0,
        y: 0,
        w: scene.width,
        h: scene.height,
    };
    Painter::new(all, scene.encoding, format_of(scene.pixels))
}

// Whether a painter takes all of a slice of the data, has pending what it should and shows what it
// should after it, and is done if it is the last.
fn takes(
    painter: &mut Painter,
    picture: &mut Picture<Colour>,
    scene: Scene<'_>,
    from: usize,
    to: usize,
) -> bool {
    let slice = scene.data.get(from..to).unwrap_or_default();
    let used = to.wrapping_sub(from);
    let done = to == scene.data.len();
    answers(painter, picture, slice, Ok(Painted { used, done }))
        && has_pending(painter, pending_after(scene.pieces, to))
        && shows_after(picture, scene.pieces, to)
}

// The same of slices of that size, after a first one.
fn takes_all(
    painter: &mut Painter,
    picture: &mut Picture<Colour>,
    scene: Scene<'_>,
    first: usize,
    size: usize,
) -> bool {
    let length = scene.data.len();
    let mut at = 0usize;
    let mut next = first;
    for _ in 0..100 {
        let end = length.min(at.saturating_add(next));
        let good = takes(painter, picture, scene, at, end);
        if end == length || !good {
            return good;
        }
        at = end;
        next = size;
    }
    false
}

// The same of a new painter.
fn in_slices(alloc: Global, scene: Scene<'_>, first: usize, size: usize) -> Result<bool, Fail> {
    let mut picture = picture_of(alloc, scene.width, scene.height, GREY)?;
    let mut painter = painter_of(scene);
    let good = takes_all(&mut painter, &mut picture, scene, first, size);
    drop(painter);
    drop(picture);
    Ok(good)
}

// The same of two slices, split at each byte.
fn in_two(alloc: Global, scene: Scene<'_>) -> Result<bool, Fail> {
    let length = scene.data.len();
    for cut in 0..length {
        if !in_slices(alloc, scene, cut, length)? {
            return Ok(false);
        }
    }
    Ok(true)
}

// The same of slices of one size.
fn in_many(alloc: Global, scene: Scene<'_>) -> Result<bool, Fail> {
    for size in [1, 2, 3, 5, 7, 16] {
        if !in_slices(alloc, scene, size, size)? {
            return Ok(false);
        }
    }
    Ok(true)
}

fn at_every_cut(rt: &impl Abort, alloc: Global, scene: Scene<'_>) -> Result<(), Fail> {
    let good = in_two(alloc, scene)? && in_many(alloc, scene)?;
    assert!(rt; good);
    Ok(())
}

#[test]
fn raw_shows_each_pixel(rt: HostRuntime) -> Result<(), Fail> {
    let pieces = [
        shown_at(1, 0, 1, RED),
        shown_at(2, 1, 1, GREEN),
        shown_at(3, 2, 1, BLUE),
    ];
    let data = [0x07, 0x38, 0xC0];
    let scene = row_scene(Encoding::Raw, 3, &data, &pieces);
    at_every_cut(&rt, rt.alloc(), scene)
}

#[test]
fn a_source_is_copied_at_its_last_byte(rt: HostRuntime) -> Result<(), Fail> {
    let pieces = [shown_at(4, 0, 3, GREY)];
    let scene = row_scene(Encoding::CopyRect, 3, &COPY, &pieces);
    at_every_cut(&rt, rt.alloc(), scene)
}

#[test]
fn rre_shows_its_background_and_then_each_subrectangle(rt: HostRuntime) -> Result<(), Fail> {
    let pieces = [
        shown_at(5, 0, 3, BLACK),
        shown_at(14, 0, 2, RED),
        shown_at(23, 1, 2, GREEN),
    ];
    let scene = row_scene(Encoding::Rre, 3, &LAST_WINS, &pieces);
    at_every_cut(&rt, rt.alloc(), scene)
}

#[test]
fn a_tile_is_shown_at_its_last_byte(rt: HostRuntime) -> Result<(), Fail> {
    let pieces = [
        shown_at(9, 0, 14, TEN),
        shown_at(9, 14, 1, TWENTY),
        shown_at(9, 15, 1, THIRTY),
        shown_at(14, 16, 15, TEN),
        shown_at(14, 31, 1, TWENTY),
        shown_at(18, 32, 15, TEN),
        shown_at(18, 47, 1, TWENTY),
    ];
    let scene = row_scene(Encoding::Hextile, 48, &THREE, &pieces);
    at_every_cut(&rt, rt.alloc(), scene)
}

// A tile of two colours in sixteen places, and a raw one of two places, whose pixels each show at
// once.
#[test]
fn a_pixel_of_a_raw_tile_is_shown_at_once(rt: HostRuntime) -> Result<(), Fail> {
    let pieces = [
        shown_at(6, 0, 16, TEN),
        shown_at(6, 0, 1, TWENTY),
        shown_at(7, 0, 0, GREY),
        shown_at(8, 16, 1, THIRTY),
        shown_at(9, 17, 1, RED),
    ];
    let data = [0x1A, 0x10, 0x01, 0x20, 0x00, 0x00, 0x01, 0x30, 0x07];
    let scene = row_scene(Encoding::Hextile, 18, &data, &pieces);
    at_every_cut(&rt, rt.alloc(), scene)
}

// Pixels of four bytes: of two rows of Raw, of RRE, and of tiles, where the second is raw.
#[test]
fn raw_shows_each_pixel_of_four_bytes_of_two_rows(rt: HostRuntime) -> Result<(), Fail> {
    let pieces = [
        shown_at(4, 0, 1, RED),
        shown_at(8, 1, 1, GREEN),
        shown_at(12, 2, 1, BLUE),
        shown_at(16, 3, 1, BLACK),
    ];
    let data = [0, 0, 0xFF, 0, 0, 0xFF, 0, 0, 0xFF, 0, 0, 0, 0, 0, 0, 0];
    let scene = Scene {
        encoding: Encoding::Raw,
        pixels: Pixels::Rgb888,
        width: 2,
        height: 2,
        data: &data,
        pieces: &pieces,
    };
    at_every_cut(&rt, rt.alloc(), scene)
}

#[test]
fn rre_shows_parts_of_four_bytes_a_pixel(rt: HostRuntime) -> Result<(), Fail> {
    let pieces = [shown_at(8, 0, 3, BLUE), shown_at(20, 1, 2, RED)];
    let data = [
        0, 0, 0, 1, 0xFF, 0, 0, 0, // U32 number-of-subrectangles, background-pixel-value
        0, 0, 0xFF, 0, 0, 1, 0, 0, 0, 2, 0, 1, // red at x-position 1, width 2, height 1
    ];
    let scene = Scene {
        pixels: Pixels::Rgb888,
        ..row_scene(Encoding::Rre, 3, &data, &pieces)
    };
    at_every_cut(&rt, rt.alloc(), scene)
}

#[test]
fn tiles_of_four_bytes_a_pixel_are_shown(rt: HostRuntime) -> Result<(), Fail> {
    let pieces = [
        shown_at(12, 0, 16, BLUE),
        shown_at(12, 3, 2, GREEN),
        shown_at(13, 0, 0, GREY),
        shown_at(17, 16, 1, RED),
        shown_at(21, 17, 1, BLACK),
    ];
    let data = [
        0x1A, 0xFF, 0, 0, 0, 1, 0, 0xFF, 0, 0, 0x30, 0x10, // one coloured subrectangle
        0x01, 0, 0, 0xFF, 0, 0, 0, 0, 0, // raw
    ];
    let scene = Scene {
        pixels: Pixels::Rgb888,
        ..row_scene(Encoding::Hextile, 18, &data, &pieces)
    };
    at_every_cut(&rt, rt.alloc(), scene)
}
