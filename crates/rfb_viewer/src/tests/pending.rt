//! How many bytes are pending after each byte, and where no message has begun.

use super::play::{Step, are_right, plays_at_bgr233};
use super::*;

// What is pending in a version, and in a ServerInit whose name has two bytes.
const VERSION: &[usize] = &[1, 2, 3, 4, 5, 6, 7, 8, 9, 10, 11, 0];

const INIT: &[usize] = &[
    1, 2, 3, 4, 5, 6, 7, 8, 9, 10, 11, 12, 13, 14, 15, 16, 17, 18, 19, 20, 21, 22, 23, 0, 0, 0,
];

const HANDSHAKE: &[Step<'static>] = &[
    Step::Keep(b"RFB 003.008\n", VERSION),
    Step::Keep(b"\x02\x02\x01\0\0\0\0", &[0, 0, 0, 1, 2, 3, 0]),
    Step::Keep(b"\0\x11\0\x01................\0\0\0\x02ab", INIT),
    Step::Between(true),
];

fn keeps_a_handshake(alloc: Global) -> bool {
    let mut viewer = viewer(alloc, Format::bgr233(), Version::V38);
    are_right(&mut viewer, HANDSHAKE)
}

#[test]
fn a_handshake_keeps_what_stands_after_its_last_whole_piece(rt: HostRuntime) {
    assert!(rt; keeps_a_handshake(rt.alloc()));
}

// A bell, a text of two bytes, a colour map of one colour, and an update of no rectangles.
const MESSAGES: &[Step<'static>] = &[
    Step::Keep(
        b"\x02\x03\0\0\0\0\0\0\x02ab",
        &[0, 1, 2, 3, 4, 5, 6, 7, 0, 0, 0],
    ),
    Step::Keep(
        b"\x01\0\0\0\0\x01\0\0\0\0\0\0",
        &[1, 2, 3, 4, 5, 0, 1, 2, 3, 4, 5, 0],
    ),
    Step::Keep(b"\0\0\0\0", &[1, 2, 3, 0]),
    Step::Between(true),
];

#[test]
fn a_message_keeps_its_head_and_nothing_of_what_follows(rt: HostRuntime) {
    assert!(rt; plays_at_bgr233(rt.alloc(), HELLO_17_BY_1, MESSAGES));
}

// What is pending in the head of an update and of its first rectangle, and of another one.
const HEADS: &[usize] = &[1, 2, 3, 0, 1, 2, 3, 4, 5, 6, 7, 8, 9, 10, 11, 0];

const HEAD: &[usize] = &[1, 2, 3, 4, 5, 6, 7, 8, 9, 10, 11, 0];

// A tile of six bytes, which keeps up to five; a head of RRE, and a subrectangle.
const RECTANGLES: &[Step<'static>] = &[
    Step::Keep(b"\0\0\0\x02\0\0\0\0\0\x11\0\x01\0\0\0\x05", HEADS),
    Step::Keep(b"\x1A\x10\x01\x20\0\0", &[1, 2, 3, 4, 5, 0]),
    Step::Between(false),
    Step::Keep(b"\0", &[0]),
    Step::Keep(b"\0\0\0\0\0\x11\0\x01\0\0\0\x02", HEAD),
    Step::Keep(b"\xFF\xFF\xFF\xFF\x10", &[1, 2, 3, 4, 0]),
    Step::Keep(b"\x20\0\0\0\0\0\x01\0\x01", &[1, 2, 3, 4, 5, 6, 7, 8, 0]),
    Step::Between(false),
];

#[test]
fn a_rectangle_keeps_one_piece(rt: HostRuntime) {
    assert!(rt; plays_at_bgr233(rt.alloc(), HELLO_17_BY_1, RECTANGLES));
}
