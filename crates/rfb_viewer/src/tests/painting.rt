//! Updates that are shown piece by piece, in the format that is in force.

use super::play::{Step, Told, are_right, plays_at_bgr233, plays_at_rgb888, tells};
use super::*;

// A place of Raw at rgb888 but for its last byte, and one at bgr233.
const ONE_PLACE_FRONT: &[u8] = b"\0\0\0\x01\0\0\0\0\0\x01\0\x01\0\0\0\0\x01\x80\xFF";

const ONE_SMALL: &[u8] = b"\0\0\0\x01\0\0\0\0\0\x01\0\x01\0\0\0\0\x27";

const ORANGE: Colour = Colour {
    r: 65_535,
    g: 32_896,
    b: 257,
};

const BYTE_BY_BYTE: &[Step<'static>] = &[
    Step::Still(ONE_PLACE_FRONT, &[BLACK]),
    Step::Feed(b"\0", 1, Told::UpdateDone),
    Step::Shows(&[ORANGE]),
];

#[test]
fn an_update_comes_byte_by_byte(rt: HostRuntime) {
    assert!(rt; plays_at_rgb888(rt.alloc(), HELLO_1_BY_1, BYTE_BY_BYTE));
}

const SEEN: Colour = Colour {
    r: 65_535,
    g: 37_449,
    b: 0,
};

const SMALL: &[Step<'static>] = &[
    Step::Feed(ONE_SMALL, 17, Told::UpdateDone),
    Step::Shows(&[SEEN]),
];

#[test]
fn an_update_is_read_in_the_format_of_the_viewer(rt: HostRuntime) {
    assert!(rt; plays_at_bgr233(rt.alloc(), HELLO_1_BY_1, SMALL));
}

// One update of one rectangle, all of a row of 17 places at bgr233, in Hextile and in RRE.
const TILES: &[u8] = b"\0\0\0\x01\0\0\0\0\0\x11\0\x01\0\0\0\x05";

const SUBRECTS: &[u8] = b"\0\0\0\x01\0\0\0\0\0\x11\0\x01\0\0\0\x02";

const ALL_BLACK: &[Colour] = &[BLACK; 17];

const FIRST_TILE: &[Colour] = &[
    TWENTY, TEN, TEN, TEN, TEN, TEN, TEN, TEN, TEN, TEN, TEN, TEN, TEN, TEN, TEN, TEN, BLACK,
];

const BOTH_TILES: &[Colour] = &[
    TWENTY, TEN, TEN, TEN, TEN, TEN, TEN, TEN, TEN, TEN, TEN, TEN, TEN, TEN, TEN, TEN, TEN,
];

// Each byte of the first tile is pending up to its last, and the next tile has its background.
const TILE_BY_TILE: &[Step<'static>] = &[
    Step::Feed(TILES, 16, Told::Nothing),
    Step::Still(b"\x1A", ALL_BLACK),
    Step::Pending(1),
    Step::Still(b"\x10", ALL_BLACK),
    Step::Pending(2),
    Step::Still(b"\x01", ALL_BLACK),
    Step::Pending(3),
    Step::Still(b"\x20", ALL_BLACK),
    Step::Pending(4),
    Step::Still(b"\0", ALL_BLACK),
    Step::Pending(5),
    Step::Still(b"\0", FIRST_TILE),
    Step::Pending(0),
    Step::Feed(b"\0\x02", 1, Told::UpdateDone),
    Step::Shows(BOTH_TILES),
];

#[test]
fn a_tile_is_shown_at_its_last_byte(rt: HostRuntime) {
    assert!(rt; plays_at_bgr233(rt.alloc(), HELLO_17_BY_1, TILE_BY_TILE));
}

// Subrectangles of one place at x-position 3, again and again.
fn subrects(alloc: Global, count: usize) -> Result<Vec<u8>, AllocError> {
    let mut parts = Vec::new(alloc);
    for _ in 0..count {
        parts.extend_from_slice(&[0x20, 0, 3, 0, 0, 0, 1, 0, 1])?;
    }
    Ok(parts)
}

// Whether such a slice of 4,000 bytes is taken, and the bytes after its last whole subrectangle are
// pending.
fn takes_slice(viewer: &mut Viewer, parts: &[u8], before: usize) -> bool {
    let come = before % 9;
    let slice = parts.get(come..come + 4_000).unwrap_or_default();
    tells(viewer, slice, 4_000, Told::Nothing) && viewer.pending() == (come + 4_000) % 9
}

fn takes_a_million(viewer: &mut Viewer, parts: &[u8]) -> bool {
    let mut good = true;
    for n in 0..2_250usize {
        good &= takes_slice(viewer, parts, n.wrapping_mul(4_000));
    }
    good
}

// A background, which is shown at once, and what is shown after the subrectangles.
const BACKGROUND: &[Step<'static>] = &[
    Step::Feed(SUBRECTS, 16, Told::Nothing),
    Step::Feed(b"\xFF\xFF\xFF\xFF\x10", 5, Told::Nothing),
    Step::Shows(&[TEN; 17]),
    Step::Pending(0),
];

const PAINTED: &[Colour] = &[
    TEN, TEN, TEN, TWENTY, TEN, TEN, TEN, TEN, TEN, TEN, TEN, TEN, TEN, TEN, TEN, TEN, TEN,
];

// Whether they are painted, after that background.
fn paints_a_million(alloc: Global, parts: &[u8]) -> bool {
    let mut viewer = ready(alloc, Format::bgr233(), HELLO_17_BY_1);
    are_right(&mut viewer, BACKGROUND)
        && takes_a_million(&mut viewer, parts)
        && are_right(&mut viewer, &[Step::Shows(PAINTED)])
}

// The first million of the greatest count of subrectangles. Slices of 4,000 bytes split them at
// each of their nine bytes.
#[test]
fn a_million_subrectangles_are_taken_as_they_come(rt: HostRuntime) -> Result<(), AllocError> {
    let parts = subrects(rt.alloc(), 450)?;
    assert!(rt; paints_a_million(rt.alloc(), &parts));
    Ok(())
}
