//! A block at each of its calls.

use super::*;
use crate::codec::tests::block_of;
use std::alloc::AllocError;
use std::result::Result;

// Whether it has that size and those pixels.
fn has(block: &Block, width: u16, height: u16, pixels: &[u32]) -> bool {
    block.width() == width && block.height() == height && block.pixels() == pixels
}

#[test]
fn a_block_has_the_size_and_the_pixels_that_it_was_made_with(rt: HostRuntime) {
    let pixels = [7, 8, 9, 10, 11, 12];
    let made = match block_of(3, 2, &pixels) {
        Some(block) => has(&block, 3, 2, &pixels),
        None => false,
    };
    assert!(rt; made);
}

// Whether a block of a rectangle of the picture has its size and these pixels.
fn packs(block: &mut Block, picture: &Picture<Colour>, rect: Rect, wanted: &[u32]) -> bool {
    if !picture.holds(rect) || rect.w < 1 || 64 < rect.w || rect.h < 1 || 64 < rect.h {
        return false;
    }
    block.pack(&Format::rgb888(), picture, rect);
    has(block, rect.w, rect.h, wanted)
}

// All of a picture of three by two, and the last two places of its second row.
const WHOLE: Rect = Rect {
    x: 0,
    y: 0,
    w: 3,
    h: 2,
};

const PART: Rect = Rect {
    x: 1,
    y: 1,
    w: 2,
    h: 1,
};

// The pixels at rgb888 of two colours, whose red is the least for its field and whose blue is the
// greatest.
const OLD: u32 = 0x01_0203;

const OLD_COLOUR: Colour = Colour {
    r: 129,
    g: 514,
    b: 899,
};

const NEW: u32 = 0x04_0506;

const NEW_COLOUR: Colour = Colour {
    r: 900,
    g: 1285,
    b: 1670,
};

fn is_packed_again_and_again(picture: &Picture<Colour>) -> bool {
    let mut block = Block::single(7);
    has(&block, 1, 1, &[7])
        && packs(&mut block, picture, WHOLE, &[OLD, OLD, OLD, OLD, OLD, NEW])
        && block.height() == 2
        && block.row(1) == [OLD, OLD, NEW].as_slice()
        && packs(&mut block, picture, PART, &[OLD, NEW])
        && block.width() == 2
        && block.height() == 1
        && block.at(1, 0) == NEW
}

#[test]
fn a_block_is_packed_again_and_again(rt: HostRuntime) -> Result<(), AllocError> {
    let mut picture = Picture::new(rt.alloc(), 3, 2, OLD_COLOUR)?;
    picture.put_row(2, 1, &[NEW_COLOUR]);
    assert!(rt; is_packed_again_and_again(&picture));
    Ok(())
}
