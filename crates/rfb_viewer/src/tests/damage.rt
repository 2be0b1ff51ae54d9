//! What changed of a picture of 8 by 6 places. The rectangles that hold others were drawn by hand.

use super::play::{Step, Told, plays_at_bgr233};
use super::*;
use crate::ViewerFault;
use rfb_picture::Rect;

const ALL: Rect = Rect {
    x: 0,
    y: 0,
    w: 8,
    h: 6,
};

// An update of two rectangles in Raw: column 2 of rows 1 and 2, and columns 5 and 6 of row 0.
const TWO: &[u8] = b"\0\0\0\x02\
    \0\x02\0\x01\0\x01\0\x02\0\0\0\0\x10\x20\
    \0\x05\0\0\0\x02\0\x01\0\0\0\0\x10\x20";

// They lie in columns 2 to 6 of rows 0 to 2.
const BOTH: Rect = Rect {
    x: 2,
    y: 0,
    w: 5,
    h: 3,
};

const ONE_AFTER_ANOTHER: &[Step<'static>] = &[
    Step::Changed(Some(ALL)),
    Step::Changed(None),
    Step::Feed(TWO, 32, Told::UpdateDone),
    Step::Changed(Some(BOTH)),
    Step::Changed(None),
];

#[test]
fn damage_is_the_least_rectangle_that_holds_both_until_it_is_asked(rt: HostRuntime) {
    assert!(rt; plays_at_bgr233(rt.alloc(), HELLO_8_BY_6, ONE_AFTER_ANOTHER));
}

// An update of 3 by 2 places from (1, 2) on, up to the last byte of its head but one; that byte and
// two of its six pixels; and the others.
const FRONT: &[u8] = b"\0\0\0\x01\0\x01\0\x02\0\x03\0\x02\0\0\0";

const MIDDLE: &[u8] = b"\0\x10\x20";

const BACK: &[u8] = b"\x10\x20\x10\x20";

const SIX: Rect = Rect {
    x: 1,
    y: 2,
    w: 3,
    h: 2,
};

const CUT: &[Step<'static>] = &[
    Step::Changed(Some(ALL)),
    Step::Feed(FRONT, 15, Told::Nothing),
    Step::Changed(None),
    Step::Feed(MIDDLE, 3, Told::Nothing),
    Step::Changed(Some(SIX)),
    Step::Changed(Some(SIX)),
    Step::Feed(BACK, 4, Told::UpdateDone),
    Step::Changed(Some(SIX)),
    Step::Changed(None),
];

#[test]
fn a_rectangle_counts_from_its_head_on_and_as_long_as_it_is_under_way(rt: HostRuntime) {
    assert!(rt; plays_at_bgr233(rt.alloc(), HELLO_8_BY_6, CUT));
}

// A place at (0, 0), and no places at (7, 5).
const PLACE_AND_NONE: &[u8] = b"\0\0\0\x02\
    \0\0\0\0\0\x01\0\x01\0\0\0\0\x10\
    \0\x07\0\x05\0\0\0\x01\0\0\0\0";

const ONE: Rect = Rect {
    x: 0,
    y: 0,
    w: 1,
    h: 1,
};

const EMPTY: &[Step<'static>] = &[
    Step::Changed(Some(ALL)),
    Step::Feed(PLACE_AND_NONE, 29, Told::UpdateDone),
    Step::Changed(Some(ONE)),
];

#[test]
fn a_rectangle_without_a_place_adds_nothing(rt: HostRuntime) {
    assert!(rt; plays_at_bgr233(rt.alloc(), HELLO_8_BY_6, EMPTY));
}

// RRE for 2 by 2 places from (1, 1) on, with a subrectangle of three columns.
const TOO_WIDE: &[u8] = b"\0\0\0\x01\0\x01\0\x01\0\x02\0\x02\0\0\0\x02\0\0\0\x01\x10\
    \x20\0\0\0\0\0\x03\0\x01";

const FOUR: Rect = Rect {
    x: 1,
    y: 1,
    w: 2,
    h: 2,
};

const FAULT: &[Step<'static>] = &[
    Step::Changed(Some(ALL)),
    Step::Fail(TOO_WIDE, ViewerFault::SubrectOutside),
    Step::Changed(Some(FOUR)),
    Step::Changed(None),
];

#[test]
fn a_rectangle_at_fault_counts_too(rt: HostRuntime) {
    assert!(rt; plays_at_bgr233(rt.alloc(), HELLO_8_BY_6, FAULT));
}
