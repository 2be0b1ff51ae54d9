//! Masks and subrectangles that a peer may send and should not, and each mask in turn.

use super::*;

// Whether tiles of a row so wide, which was red, are answered so, and its last places are then of
// these colours.
fn answers(
    alloc: Global,
    width: u16,
    data: &[u8],
    answer: Result<Painted, PaintFault>,
    last: &[Colour],
) -> Result<bool, Fail> {
    let ground = row_of(width, RED);
    let format = Format::bgr233();
    paints_last(alloc, ground, Encoding::Hextile, format, data, answer, last)
}

// Whether they are refused. The last place, which belongs to the last tile, stays as it is.
fn refuses(alloc: Global, width: u16, data: &[u8], fault: PaintFault) -> Result<bool, Fail> {
    answers(alloc, width, data, Err(fault), &[RED])
}

// Whether all that the data begin with is waited with.
fn waits(alloc: Global, width: u16, data: &[u8]) -> Result<bool, Fail> {
    for n in 0..data.len() {
        let front = data.get(..n).unwrap_or_default();
        if !answers(alloc, width, front, more(n), &[RED])? {
            return Ok(false);
        }
    }
    Ok(true)
}

fn masks_are_refused(alloc: Global) -> Result<bool, Fail> {
    for (width, data, fault) in [
        (2, [0x00].as_slice(), PaintFault::NoBackground),
        (2, &[0x08], PaintFault::NoBackground),
        (2, &[0x1C], PaintFault::NoBackground),
        (17, &[0x02, 0x10, 0x1C], PaintFault::BothColourBits),
        (17, &[0x02, 0x10, 0x14], PaintFault::BothColourBits),
        (17, &[0x02, 0x10, 0x08], PaintFault::NoForeground),
        // Whatever the count after it says.
        (2, &[0x0A, 0x10, 0], PaintFault::NoForeground),
    ] {
        if !refuses(alloc, width, data, fault)? {
            return Ok(false);
        }
    }
    Ok(true)
}

#[test]
fn a_mask_is_refused_at_its_byte(rt: HostRuntime) -> Result<(), Fail> {
    assert!(rt; masks_are_refused(rt.alloc())?);
    Ok(())
}

// Whether data of seventeen places by one are waited with up to their last byte, and refused there.
fn is_refused_at_the_end(alloc: Global, data: &[u8]) -> Result<bool, Fail> {
    Ok(waits(alloc, 17, data)? && refuses(alloc, 17, data, PaintFault::SubrectOutside)?)
}

// The second tile is one place by one: a subrectangle of its own pixel, one of the foreground, and
// one before another.
fn are_refused_at_the_end(alloc: Global, place: u8, size: u8) -> Result<bool, Fail> {
    let one = [0x02, 0x10, 0x18, 1, 0x20, place, size];
    let plain = [0x02, 0x10, 0x0C, 0x20, 1, place, size];
    let two = [0x02, 0x10, 0x18, 2, 0x20, place, size, 0x20, 0x00, 0x00];
    Ok(
        is_refused_at_the_end(alloc, &one)?
            && is_refused_at_the_end(alloc, &plain)?
            && is_refused_at_the_end(alloc, &two)?,
    )
}

fn each_is_refused_at_the_end(alloc: Global) -> Result<bool, Fail> {
    for (x_and_y, size) in [
        (0x00, 0x10),
        (0x10, 0x00),
        (0x00, 0x01),
        (0x01, 0x00),
        (0xFF, 0xFF),
    ] {
        if !are_refused_at_the_end(alloc, x_and_y, size)? {
            return Ok(false);
        }
    }
    // It leaves the first tile, and not the rectangle.
    is_refused_at_the_end(alloc, &[0x1A, 0x10, 1, 0x20, 0xF0, 0x10])
}

#[test]
fn a_subrectangle_that_leaves_its_tile_is_refused_at_the_last_byte(
    rt: HostRuntime,
) -> Result<(), Fail> {
    assert!(rt; each_is_refused_at_the_end(rt.alloc())?);
    Ok(())
}

// Which colours the tiles before one specified: pixel 0x08 as the background and 0x18 as the
// foreground.
#[derive(Clone, Copy)]
struct Known {
    background: bool,
    foreground: bool,
}

const NEITHER: Known = Known {
    background: false,
    foreground: false,
};

const BACKGROUND: Known = Known {
    background: true,
    foreground: false,
};

const BOTH: Known = Known {
    background: true,
    foreground: true,
};

const RAW_TILE: [u8; 17] = [1, 0, 0, 0, 0, 0, 0, 0, 0, 0, 0, 0, 0, 0, 0, 0, 0];

// A first tile or a second one, each two places wide.
#[test]
fn each_mask_has_its_fault_or_its_length(rt: HostRuntime) -> Result<(), Fail> {
    for mask in 0..=u8::MAX {
        judged(&rt, rt.alloc(), &[], NEITHER, mask)?;
        judged(&rt, rt.alloc(), &RAW_TILE, NEITHER, mask)?;
        judged(&rt, rt.alloc(), &[0x02, 0x08], BACKGROUND, mask)?;
        judged(&rt, rt.alloc(), &[0x12, 0x08], BACKGROUND, mask)?;
        judged(&rt, rt.alloc(), &[0x06, 0x08, 0x18], BOTH, mask)?;
    }
    Ok(())
}

fn has(mask: u8, bit: u8) -> bool {
    mask & bit == bit
}

// The first of the faults that a mask has.
fn fault(mask: u8, known: Known) -> Option<PaintFault> {
    if has(mask, 1) {
        return None;
    }
    let background = known.background || has(mask, 2);
    let foreground = known.foreground || has(mask, 4);
    if !background {
        Some(PaintFault::NoBackground)
    } else if has(mask, 20) {
        Some(PaintFault::BothColourBits)
    } else if has(mask, 8) && !has(mask, 16) && !foreground {
        Some(PaintFault::NoForeground)
    } else {
        None
    }
}

// What such a mask asks for: pixels 0x10 and 0x20 where it is raw; else 0x10 as the background,
// 0x20 as the foreground, and one subrectangle at the second place, with pixel 0x30 if it has its
// own.
fn asked_for(mask: u8) -> Bytes {
    if has(mask, 1) {
        return joined(b"\x10\x20", b"");
    }
    let colours = match (has(mask, 2), has(mask, 4)) {
        (false, false) => b"".as_slice(),
        (true, false) => b"\x10",
        (false, true) => b"\x20",
        (true, true) => b"\x10\x20",
    };
    let part = match (has(mask, 8), has(mask, 16)) {
        (false, _) => b"".as_slice(),
        (true, false) => b"\x01\x10\x00",
        (true, true) => b"\x01\x30\x10\x00",
    };
    joined(colours, part)
}

// More bytes than a tile before another and that have.
type Bytes = ArrayVec<u8, 32>;

// The bytes of both, as far as there is room.
fn joined(front: &[u8], back: &[u8]) -> Bytes {
    let mut bytes = ArrayVec::new();
    let _front = bytes.try_extend_from_slice(front);
    let _back = bytes.try_extend_from_slice(back);
    bytes
}

// Whether the tile is refused at its mask; or waited with up to its last byte, and what follows is
// left.
fn is_judged(alloc: Global, front: &[u8], known: Known, mask: u8) -> Result<bool, Fail> {
    let width = if front.is_empty() { 2 } else { 18 };
    let begun = joined(front, &[mask]);
    match fault(mask, known) {
        Some(fault) => refuses(alloc, width, begun.as_slice(), fault),
        None => is_taken(alloc, width, begun.as_slice(), mask),
    }
}

// Whether a tile with that mask is waited with up to its last byte, and what follows is left.
fn is_taken(alloc: Global, width: u16, begun: &[u8], mask: u8) -> Result<bool, Fail> {
    let tile = joined(begun, asked_for(mask).as_slice());
    let data = joined(tile.as_slice(), &[0xFF]);
    let (tile, data) = (tile.as_slice(), data.as_slice());
    let answer = done(tile.len());
    Ok(waits(alloc, width, tile)? && answers(alloc, width, data, answer, &colours_after(mask))?)
}

fn judged(
    rt: &impl Abort,
    alloc: Global,
    front: &[u8],
    known: Known,
    mask: u8,
) -> Result<(), Fail> {
    let good = is_judged(alloc, front, known, mask)?;
    assert!(rt; good, "mask {mask}");
    Ok(())
}

// The colours of the two places.
fn colours_after(mask: u8) -> [Colour; 2] {
    let format = Format::bgr233();
    let [first, second] = pixels_after(mask);
    [format.unpack(first), format.unpack(second)]
}

// The pixels of the two places.
fn pixels_after(mask: u8) -> [u32; 2] {
    if has(mask, 1) {
        return [0x10, 0x20];
    }
    let background = if has(mask, 2) { 0x10 } else { 0x08 };
    let foreground = if has(mask, 4) { 0x20 } else { 0x18 };
    if !has(mask, 8) {
        [background, background]
    } else if has(mask, 16) {
        [background, 0x30]
    } else {
        [background, foreground]
    }
}
