//! Pixmaps that are longer than what waits for one write.

use super::devices::{FailingWriter, Writer};
use crate::engine::{Device, Tally, ppm};
use rfb_picture::{Picture, Rect};
use rfb_pixel::Colour;
use std::alloc::{AllocError, Global};

// The colour of a place. Both bytes of a component differ from place to place.
fn colour_at(x: u16, y: u16) -> Colour {
    Colour {
        r: x.wrapping_mul(0x0291).wrapping_add(y),
        g: y.wrapping_mul(0x8E03).wrapping_sub(x),
        b: (x ^ y).wrapping_mul(0x0BF5).wrapping_add(0x1234),
    }
}

const SIDE: u16 = 110;

// A picture of 110 by 110 places, each with its own colour.
fn picture(alloc: Global) -> Result<Picture<Colour>, AllocError> {
    let mut picture = Picture::new(alloc, SIDE, SIDE, colour_at(0, 0))?;
    for y in 0..SIDE {
        for x in 0..SIDE {
            let place = Rect { x, y, w: 1, h: 1 };
            if picture.holds(place) {
                picture.fill(place, colour_at(x, y));
            }
        }
    }
    Ok(picture)
}

// Its pixmap: 17 bytes, and 72,600.
fn expected(alloc: Global) -> Result<Vec<u8>, AllocError> {
    let mut bytes = b"P6\n110 110\n65535\n".to_vec(alloc)?;
    for y in 0..SIDE {
        for x in 0..SIDE {
            let colour = colour_at(x, y);
            for component in [colour.r, colour.g, colour.b] {
                bytes.push((component / 256) as u8)?;
                bytes.push((component % 256) as u8)?;
            }
        }
    }
    Ok(bytes)
}

// Whether all of a pixmap is written, by writes of at most `most` bytes.
fn is_whole(alloc: Global, picture: &Picture<Colour>, pixmap: &[u8], most: usize) -> bool {
    let mut sink = Tally::new(Writer {
        bytes: Vec::new(alloc),
        most,
    });
    let answer = ppm(picture, &mut sink);
    answer == Ok(()) && sink.into_inner().bytes.as_slice() == pixmap
}

#[test]
fn a_pixmap_is_whole_whatever_writes_take(rt: HostRuntime) -> Result<(), AllocError> {
    let picture = picture(rt.alloc())?;
    let pixmap = expected(rt.alloc())?;
    for most in [1, 5, 127, 8192, 65_535, 65_536, 72_617] {
        let whole = is_whole(rt.alloc(), &picture, &pixmap, most);
        assert!(rt; whole, "writes of {most}");
    }
    Ok(())
}

// Whether a beginning of a pixmap is written where `calls` writes of one byte do not fail, and the
// next one does.
fn has_beginning(alloc: Global, picture: &Picture<Colour>, pixmap: &[u8], calls: usize) -> bool {
    let mut sink = FailingWriter {
        written: Vec::new(alloc),
        calls,
        failures: 0,
    };
    let answer = ppm(picture, &mut sink);
    answer == Err(Device)
        && sink.failures == 1
        && sink.written.as_slice() == &pixmap[..calls.min(pixmap.len())]
}

#[test]
fn a_pixmap_that_cannot_be_written_has_its_beginning(rt: HostRuntime) -> Result<(), AllocError> {
    let picture = picture(rt.alloc())?;
    let pixmap = expected(rt.alloc())?;
    for calls in [0, 1, 17, 65_535, 65_536, 72_616] {
        let beginning = has_beginning(rt.alloc(), &picture, &pixmap, calls);
        assert!(rt; beginning, "after {calls} writes");
    }
    Ok(())
}
