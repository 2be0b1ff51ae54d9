//! Data that a peer may send and should not.

use super::*;
use std::alloc::AllocError;

// Pixel 0x10 at bgr233.
const TEN: Colour = Colour {
    r: 0,
    g: 18_724,
    b: 0,
};

// Whether RRE data over two red places are answered so. These have the background once its pixel is
// there.
fn answers(alloc: Global, data: &[u8], answer: Result<Painted, PaintFault>) -> Result<bool, Fail> {
    let colour = if data.len() < 5 { RED } else { TEN };
    let shown = [colour, colour];
    let format = Format::bgr233();
    paints(
        alloc,
        row_of(2, RED),
        Encoding::Rre,
        format,
        data,
        answer,
        &shown,
    )
}

// The greatest number of subrectangles, over pixel 16.
#[test]
fn a_count_is_no_fault(rt: HostRuntime) -> Result<(), Fail> {
    assert!(rt; answers(rt.alloc(), &[0xFF, 0xFF, 0xFF, 0xFF, 0x10], more(5))?);
    Ok(())
}

const OUTSIDE: [[u8; 14]; 4] = [
    // Its right edge is at 3, its lower edge at 2, and its right edge at 65,537.
    [0xFF, 0xFF, 0xFF, 0xFF, 0x10, 0x20, 0, 2, 0, 0, 0, 1, 0, 1],
    [0xFF, 0xFF, 0xFF, 0xFF, 0x10, 0x20, 0, 0, 0, 1, 0, 1, 0, 1],
    [
        0xFF, 0xFF, 0xFF, 0xFF, 0x10, 0x20, 0xFF, 0xFF, 0, 0, 0, 2, 0, 1,
    ],
    // No place, past the right edge.
    [0xFF, 0xFF, 0xFF, 0xFF, 0x10, 0x20, 0, 3, 0, 0, 0, 0, 0, 0],
];

// Whether data are waited with up to their last byte, and refused there.
fn is_refused_at_the_end(alloc: Global, data: &[u8; 14]) -> Result<bool, Fail> {
    for n in 0..14 {
        let front = data.get(..n).unwrap_or_default();
        if !answers(alloc, front, more(n))? {
            return Ok(false);
        }
    }
    answers(alloc, data, Err(PaintFault::SubrectOutside))
}

fn are_refused_at_the_end(alloc: Global) -> Result<bool, Fail> {
    for data in OUTSIDE {
        if !is_refused_at_the_end(alloc, &data)? {
            return Ok(false);
        }
    }
    Ok(true)
}

#[test]
fn a_subrectangle_outside_is_reported_at_its_last_byte(rt: HostRuntime) -> Result<(), Fail> {
    assert!(rt; are_refused_at_the_end(rt.alloc())?);
    Ok(())
}

// Whether a source in two slices is refused for all of a picture of two places, which stay as they
// are.
fn refuses(picture: &mut Picture<Colour>, source: &[u8], first: usize) -> bool {
    let all = row_of(2, RED).rect;
    if !picture.holds(all) {
        return false;
    }
    let format = Format::rgb888();
    let answer = fed_in_two(picture, all, Encoding::CopyRect, format, source, first);
    answer == Err(PaintFault::SourceOutside) && has(picture, &[GREEN, BLUE])
}

// A row of two places.
fn green_and_blue(alloc: Global) -> Result<Picture<Colour>, AllocError> {
    let mut picture = Picture::new(alloc, 2, 1, RED)?;
    picture.put_row(0, 0, &[GREEN, BLUE]);
    Ok(picture)
}

fn is_source_refused(alloc: Global, source: &[u8], first: usize) -> Result<bool, Fail> {
    let mut picture = green_and_blue(alloc)?;
    let good = refuses(&mut picture, source, first);
    drop(picture);
    Ok(good)
}

fn are_sources_refused(alloc: Global) -> Result<bool, Fail> {
    for source in [[0, 1, 0, 0], [0, 0, 0, 1], [0xFF, 0xFF, 0, 0]] {
        for first in 0..=4 {
            if !is_source_refused(alloc, &source, first)? {
                return Ok(false);
            }
        }
    }
    Ok(true)
}

#[test]
fn a_source_outside_is_refused(rt: HostRuntime) -> Result<(), Fail> {
    assert!(rt; are_sources_refused(rt.alloc())?);
    Ok(())
}

// Whether a source is refused for a rectangle without places at the corner of two by one.
fn is_corner_refused(alloc: Global, source: &[u8]) -> Result<bool, Fail> {
    let corner = Ground {
        rect: Rect {
            x: 2,
            y: 1,
            w: 0,
            h: 0,
        },
        ..row_of(2, RED)
    };
    let format = Format::rgb888();
    let fault = Err(PaintFault::SourceOutside);
    let shown = [RED, RED];
    paints(
        alloc,
        corner,
        Encoding::CopyRect,
        format,
        source,
        fault,
        &shown,
    )
}

// By its corner, which may be at the edges and not beyond them.
#[test]
fn the_source_of_an_empty_rectangle_is_judged(rt: HostRuntime) -> Result<(), Fail> {
    let column = is_corner_refused(rt.alloc(), &[0, 3, 0, 0])?;
    let row = is_corner_refused(rt.alloc(), &[0, 0, 0, 2])?;
    assert!(rt; column && row);
    Ok(())
}
