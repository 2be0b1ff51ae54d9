//! What a hostile server sends after the handshake: the fault, its byte, and the pieces shown
//! before it.

use super::play::{Step, Told, plays_at_bgr233};
use super::*;
use crate::ViewerFault;

// The head of an update, after which the heads and data of its rectangles come.
const ONE: &[u8] = b"\0\0\0\x01";

const TWO: &[u8] = b"\0\0\0\x02";

// The heads of rectangles of all of 2 by 1 places.
const RAW_HEAD: &[u8] = b"\0\0\0\0\0\x02\0\x01\0\0\0\0";

const COPY_HEAD: &[u8] = b"\0\0\0\0\0\x02\0\x01\0\0\0\x01";

const RRE_HEAD: &[u8] = b"\0\0\0\0\0\x02\0\x01\0\0\0\x02";

const HEXTILE_HEAD: &[u8] = b"\0\0\0\0\0\x02\0\x01\0\0\0\x05";

// Slices that end in a fault, the fault, and the colour of both places before it.
pub const FAULTS: &[([&[u8]; 3], ViewerFault, Colour)] = &[
    // A subrectangle that is one place too wide; one whose sum of 16 bits wraps.
    (
        [
            ONE,
            RRE_HEAD,
            b"\xFF\xFF\xFF\xFF\x10\x20\0\x02\0\0\0\x01\0\x01",
        ],
        ViewerFault::SubrectOutside,
        TEN,
    ),
    (
        [ONE, RRE_HEAD, b"\0\0\0\x01\x10\x20\xFF\xFF\0\0\0\x02\0\x01"],
        ViewerFault::SubrectOutside,
        TEN,
    ),
    // Rectangles that leave the screen, and an encoding that is not known, which is judged first.
    (
        [ONE, &[], b"\0\x01\0\0\0\x02\0\x01\0\0\0\0"],
        ViewerFault::RectOutside,
        BLACK,
    ),
    (
        [ONE, &[], b"\0\0\0\x02\0\0\0\0\0\0\0\0"],
        ViewerFault::RectOutside,
        BLACK,
    ),
    (
        [ONE, &[], b"\0\x01\0\0\0\x02\0\x01\0\0\0\x10"],
        ViewerFault::UnknownEncoding(16),
        BLACK,
    ),
    (
        [ONE, &[], b"\0\0\0\0\0\x02\0\x01\xFF\xFF\xFF\x21"],
        ViewerFault::UnknownEncoding(-223),
        BLACK,
    ),
    (
        [ONE, COPY_HEAD, b"\0\x01\0\0"],
        ViewerFault::SourceOutside,
        BLACK,
    ),
    // Masks of a first tile without a background.
    ([ONE, HEXTILE_HEAD, b"\0"], ViewerFault::NoBackground, BLACK),
    (
        [ONE, HEXTILE_HEAD, b"\x08"],
        ViewerFault::NoBackground,
        BLACK,
    ),
    (
        [ONE, HEXTILE_HEAD, b"\x1C"],
        ViewerFault::NoBackground,
        BLACK,
    ),
    (
        [ONE, HEXTILE_HEAD, b"\x16"],
        ViewerFault::BothColourBits,
        BLACK,
    ),
    (
        [ONE, HEXTILE_HEAD, b"\x0A"],
        ViewerFault::NoForeground,
        BLACK,
    ),
    // A subrectangle that leaves its tile.
    (
        [ONE, HEXTILE_HEAD, b"\x0E\x10\x20\x01\x10\x10"],
        ViewerFault::SubrectOutside,
        BLACK,
    ),
];

// Whether slices are taken one after another but for the last byte, and that one ends in this fault
// for good, after which both places have this colour.
fn fails(alloc: Global, slices: [&[u8]; 3], wanted: ViewerFault, shown: Colour) -> bool {
    let [first, second, last] = slices;
    let row = [shown, shown];
    let steps = [
        Step::Feed(first, first.len(), Told::Nothing),
        Step::Feed(second, second.len(), Told::Nothing),
        Step::Break(last, wanted),
        Step::Shows(row.as_slice()),
    ];
    plays_at_bgr233(alloc, HELLO_2_BY_1, steps.as_slice())
}

// The number of the first row of the table that goes wrong, if one does.
fn first_wrong_fault(alloc: Global) -> Option<usize> {
    for at in 0..FAULTS.len() {
        let (slices, wanted, shown) = FAULTS[at];
        if !fails(alloc, slices, wanted, shown) {
            return Some(at);
        }
    }
    None
}

#[test]
fn a_fault_is_reported_at_the_last_byte_of_its_piece(rt: HostRuntime) {
    assert_eq!(rt; first_wrong_fault(rt.alloc()), None);
}

const TWO_COLOURS: &[Step<'static>] = &[
    Step::Feed(ONE, 4, Told::Nothing),
    Step::Feed(HEXTILE_HEAD, 12, Told::Nothing),
    Step::Feed(b"\x0E\x10\x20\x01\x10\0\x02", 6, Told::UpdateDone),
    Step::Shows(&[TEN, TWENTY]),
];

#[test]
fn a_tile_of_two_colours_is_taken(rt: HostRuntime) {
    assert!(rt; plays_at_bgr233(rt.alloc(), HELLO_2_BY_1, TWO_COLOURS));
}

// Colours of tiles do not go from a rectangle to the next one.
const NEXT_RECTANGLE: &[Step<'static>] = &[
    Step::Feed(TWO, 4, Told::Nothing),
    Step::Feed(HEXTILE_HEAD, 12, Told::Nothing),
    Step::Feed(b"\x06\x10\x20", 3, Told::Nothing),
    Step::Shows(&[TEN, TEN]),
    Step::Feed(HEXTILE_HEAD, 12, Told::Nothing),
    Step::Break(b"\0", ViewerFault::NoBackground),
    Step::Shows(&[TEN, TEN]),
];

#[test]
fn a_background_ends_with_its_rectangle(rt: HostRuntime) {
    assert!(rt; plays_at_bgr233(rt.alloc(), HELLO_2_BY_1, NEXT_RECTANGLE));
}

// The head of a rectangle of two tiles.
const TILES_HEAD: &[u8] = b"\0\0\0\0\0\x11\0\x01\0\0\0\x05";

// What is shown once the first tile came, of a background of 10.
const FIRST_TILE: &[Colour] = &[
    TEN, TEN, TEN, TEN, TEN, TEN, TEN, TEN, TEN, TEN, TEN, TEN, TEN, TEN, TEN, TEN, BLACK,
];

// Masks of the second of two tiles, after a background of 10.
const MASKS: &[(&[u8], ViewerFault)] = &[
    (b"\x02\x10\x1C", ViewerFault::BothColourBits),
    (b"\x02\x10\x14", ViewerFault::BothColourBits),
    (b"\x02\x10\x08", ViewerFault::NoForeground),
];

// Whether a mask fails so.
fn is_mask_judged(alloc: Global, data: &[u8], wanted: ViewerFault) -> bool {
    let steps = [
        Step::Feed(ONE, 4, Told::Nothing),
        Step::Feed(TILES_HEAD, 12, Told::Nothing),
        Step::Break(data, wanted),
        Step::Shows(FIRST_TILE),
    ];
    plays_at_bgr233(alloc, HELLO_17_BY_1, steps.as_slice())
}

#[test]
fn a_mask_is_judged_before_what_follows_it(rt: HostRuntime) {
    for (data, wanted) in MASKS {
        assert!(rt; is_mask_judged(rt.alloc(), data, *wanted));
    }
}

// The first rectangle stays when the second is refused, and of that one the pixels before the
// fault.
const SECOND_REFUSED: &[Step<'static>] = &[
    Step::Feed(TWO, 4, Told::Nothing),
    Step::Feed(RAW_HEAD, 12, Told::Nothing),
    Step::Feed(b"\x10\x20", 2, Told::Nothing),
    Step::Break(b"\0\0\0\0\0\x03\0\x01\0\0\0\0", ViewerFault::RectOutside),
    Step::Shows(&[TEN, TWENTY]),
];

#[test]
fn what_came_before_a_fault_stays(rt: HostRuntime) {
    assert!(rt; plays_at_bgr233(rt.alloc(), HELLO_2_BY_1, SECOND_REFUSED));
}
