//! A million subrectangles: how few bytes are kept does not depend on what a server sends.

use super::cuts::{answers, has_pending, picture_of};
use super::*;

// Pixels 0x10 and 0x20 at bgr233.
const TEN: Colour = Colour {
    r: 0,
    g: 18_724,
    b: 0,
};

const TWENTY: Colour = Colour {
    r: 0,
    g: 37_449,
    b: 0,
};

// The greatest number of subrectangles, and background 0x10.
const HEAD: [u8; 5] = [0xFF, 0xFF, 0xFF, 0xFF, 0x10];

// One place of 0x20 at x-position 3.
const PART: [u8; 9] = [0x20, 0, 3, 0, 0, 0, 1, 0, 1];

// Whether bytes are taken, and as many as are wanted are pending then.
fn takes(
    painter: &mut Painter,
    picture: &mut Picture<Colour>,
    bytes: &[u8],
    pending: usize,
) -> bool {
    answers(painter, picture, bytes, more(bytes.len())) && has_pending(painter, pending)
}

// Whether a million of them are taken, each split at another byte.
fn are_taken(painter: &mut Painter, picture: &mut Picture<Colour>) -> bool {
    let mut taken = true;
    for n in 0..1_000_000usize {
        let (begun, ended) = PART.split_at(n % 9);
        taken &= takes(painter, picture, begun, n % 9) && takes(painter, picture, ended, 0);
    }
    taken
}

// Seventeen places by one.
const ROW: Rect = Rect {
    x: 0,
    y: 0,
    w: 17,
    h: 1,
};

// The background comes with the head, and is shown at once.
fn are_shown(painter: &mut Painter, picture: &mut Picture<Colour>) -> bool {
    let mut shown = [TEN; 17];
    let begun = takes(painter, picture, &HEAD, 0) && has(picture, &shown);
    shown[3] = TWENTY;
    begun && are_taken(painter, picture) && has(picture, &shown)
}

fn keeps_few_bytes(alloc: Global) -> Result<bool, Fail> {
    let mut picture = picture_of(alloc, 17, 1, BLUE)?;
    let mut painter = Painter::new(ROW, Encoding::Rre, Format::bgr233());
    let good = are_shown(&mut painter, &mut picture);
    drop(painter);
    drop(picture);
    Ok(good)
}

#[test]
fn a_million_subrectangles_keep_at_most_eight_bytes(rt: HostRuntime) -> Result<(), Fail> {
    assert!(rt; keeps_few_bytes(rt.alloc())?);
    Ok(())
}
