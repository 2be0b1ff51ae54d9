//! The copies within a picture of 8 by 6 places.

use super::play::{Step, Told, are_right, plays_at_bgr233};
use super::*;
use crate::{Move, ViewerFault};
use rfb_picture::Rect;

// An update of one CopyRect, RFC 6143 section 7.7.2: 3 by 2 places from (2, 1) on get what those
// from (4, 3) on have. The same without the last byte of the source.
const COPY: &[u8] = b"\0\0\0\x01\0\x02\0\x01\0\x03\0\x02\0\0\0\x01\0\x04\0\x03";

const COPY_FRONT: &[u8] = b"\0\0\0\x01\0\x02\0\x01\0\x03\0\x02\0\0\0\x01\0\x04\0";

const TOLD: Move = Move {
    to: Rect {
        x: 2,
        y: 1,
        w: 3,
        h: 2,
    },
    sx: 4,
    sy: 3,
};

// An update of two rectangles: a place of Raw, and the place at (1, 0) from (7, 5).
const RAW_AND_COPY: &[u8] = b"\0\0\0\x02\
    \0\0\0\0\0\x01\0\x01\0\0\0\0\x10\
    \0\x01\0\0\0\x01\0\x01\0\0\0\x01\0\x07\0\x05";

const ONE_PLACE: Move = Move {
    to: Rect {
        x: 1,
        y: 0,
        w: 1,
        h: 1,
    },
    sx: 7,
    sy: 5,
};

const COPIES: &[Step<'static>] = &[
    Step::Moved(&[]),
    Step::Feed(COPY_FRONT, 19, Told::Nothing),
    Step::Moved(&[]),
    Step::Feed(b"\x03", 1, Told::UpdateDone),
    Step::Feed(RAW_AND_COPY, 33, Told::UpdateDone),
    Step::Moved(&[TOLD, ONE_PLACE]),
    Step::Moved(&[]),
];

#[test]
fn copies_are_told_once_in_their_order(rt: HostRuntime) {
    assert!(rt; plays_at_bgr233(rt.alloc(), HELLO_8_BY_6, COPIES));
}

// A source that leaves the screen by a column.
const OUTSIDE: &[u8] = b"\0\0\0\x01\0\x02\0\x01\0\x03\0\x02\0\0\0\x01\0\x06\0\x03";

const AT_FAULT: &[Step<'static>] = &[
    Step::Feed(COPY, 20, Told::UpdateDone),
    Step::Fail(OUTSIDE, ViewerFault::SourceOutside),
    Step::Moved(&[TOLD]),
    Step::Moved(&[]),
];

#[test]
fn a_copy_at_fault_is_not_told(rt: HostRuntime) {
    assert!(rt; plays_at_bgr233(rt.alloc(), HELLO_8_BY_6, AT_FAULT));
}

// Whether the first of seventeen copies is dropped, and none else.
fn keeps_sixteen(alloc: Global) -> bool {
    let mut viewer = ready(alloc, Format::bgr233(), HELLO_8_BY_6);
    let mut good = are_right(
        &mut viewer,
        &[Step::Feed(RAW_AND_COPY, 33, Told::UpdateDone)],
    );
    for _ in 0..16 {
        good &= are_right(&mut viewer, &[Step::Feed(COPY, 20, Told::UpdateDone)]);
    }
    good && are_right(&mut viewer, &[Step::Moved(&[TOLD; 16])])
}

#[test]
fn the_oldest_of_seventeen_copies_is_dropped(rt: HostRuntime) {
    assert!(rt; keeps_sixteen(rt.alloc()));
}
