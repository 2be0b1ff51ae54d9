//! Hints that become CopyRect rectangles, byte by byte, RFC 6143 section 7.7.2.

use super::scene::{Step, first_wrong, first_wrong_of, ready};
use crate::Server;
use std::alloc::Global;

// SetEncodings with CopyRect alone, and with Raw alone.
const COPY_RECT: &[u8] = b"\x02\0\0\x01\0\0\0\x01";

const RAW: &[u8] = b"\x02\0\0\x01\0\0\0\0";

// Requests: all four places whole, the first two whole, all four if they changed.
const ALL: &[u8] = b"\x03\0\0\0\0\0\0\x04\0\x01";

const FIRST_TWO: &[u8] = b"\x03\0\0\0\0\0\0\x02\0\x01";

const CHANGED: &[u8] = b"\x03\x01\0\0\0\0\0\x04\0\x01";

const ONE_TO_FOUR: &[u8] =
    b"\0\0\0\x01\0\0\0\0\0\x04\0\x01\0\0\0\0\0\0\x01\0\0\0\x02\0\0\0\x03\0\0\0\x04\0";

const ONE_AND_TWO: &[u8] = b"\0\0\0\x01\0\0\0\0\0\x02\0\x01\0\0\0\0\0\0\x01\0\0\0\x02\0";

// The viewer has 1, 2, 3, 4 in those of its four places that it asked for, and asks what changes:
// all four, the first two, and all four of a viewer that takes Raw alone.
pub(super) const ALL_KNOWN: &[Step<'static>] = &[
    Step::Feed(COPY_RECT),
    Step::Draw(0, 1),
    Step::Draw(1, 2),
    Step::Draw(2, 3),
    Step::Draw(3, 4),
    Step::Feed(ALL),
    Step::Sends(ONE_TO_FOUR),
    Step::Feed(CHANGED),
];

const TWO_KNOWN: &[Step<'static>] = &[
    Step::Feed(COPY_RECT),
    Step::Draw(0, 1),
    Step::Draw(1, 2),
    Step::Draw(2, 3),
    Step::Draw(3, 4),
    Step::Feed(FIRST_TWO),
    Step::Sends(ONE_AND_TWO),
    Step::Feed(CHANGED),
];

const ALL_KNOWN_BY_RAW: &[Step<'static>] = &[
    Step::Feed(RAW),
    Step::Draw(0, 1),
    Step::Draw(1, 2),
    Step::Draw(2, 3),
    Step::Draw(3, 4),
    Step::Feed(ALL),
    Step::Sends(ONE_TO_FOUR),
    Step::Feed(CHANGED),
];

// Whether the steps are right of a server of one row of four places, after the first ones.
pub(super) fn are_right(alloc: Global, first: &[Step], steps: &[Step]) -> bool {
    match ready(alloc, 4, 1) {
        Ok(server) => are_right_then_drop(server, alloc, first, steps),
        Err(_) => false,
    }
}

fn are_right_then_drop(server: Server, alloc: Global, first: &[Step], steps: &[Step]) -> bool {
    let mut server = server;
    let known = first_wrong(&mut server, alloc, first) == None;
    let right = known && first_wrong(&mut server, alloc, steps) == None;
    drop(server);
    right
}

// ---- one hint

// Place 0 copied from place 2, and no other rectangle.
pub(super) const PLACE_0_FROM_2: &[u8] = b"\0\0\0\x01\0\0\0\0\0\x01\0\x01\0\0\0\x01\0\x02\0\0";

const COPIED: &[Step<'static>] = &[
    Step::Draw(0, 3),
    Step::Hint(0, 1, 2),
    Step::Sends(PLACE_0_FROM_2),
];

#[test]
fn a_hint_is_sent_as_copy_rect(rt: HostRuntime) {
    assert!(rt; are_right(rt.alloc(), ALL_KNOWN, COPIED));
}

// Places 0 and 1 copied from 2 and 3, then place 1 in Raw.
const TWO_COPIED_ONE_SENT: &[u8] =
    b"\0\0\0\x02\0\0\0\0\0\x02\0\x01\0\0\0\x01\0\x02\0\0\0\x01\0\0\0\x01\0\x01\0\0\0\0\0\0\x06\0";

const LEFT_WRONG: &[Step<'static>] = &[
    Step::Draw(0, 3),
    Step::Draw(1, 6),
    Step::Hint(0, 2, 2),
    Step::Sends(TWO_COPIED_ONE_SENT),
];

#[test]
fn what_a_copy_leaves_wrong_is_sent_after_it(rt: HostRuntime) {
    assert!(rt; are_right(rt.alloc(), ALL_KNOWN, LEFT_WRONG));
}

// ---- hints that are not used

// Places 0 and 1 in Raw: 5 and 6.
const TWO_SENT: &[u8] = b"\0\0\0\x01\0\0\0\0\0\x02\0\x01\0\0\0\0\0\0\x05\0\0\0\x06\0";

const GAINS_NONE: &[Step<'static>] = &[
    Step::Draw(0, 5),
    Step::Draw(1, 6),
    Step::Hint(0, 2, 2),
    Step::Sends(TWO_SENT),
];

#[test]
fn a_copy_that_gains_no_place_is_not_sent(rt: HostRuntime) {
    assert!(rt; are_right(rt.alloc(), ALL_KNOWN, GAINS_NONE));
}

// All four places in Raw: 3, 6, 3, 4.
const FOUR_SENT: &[u8] =
    b"\0\0\0\x01\0\0\0\0\0\x04\0\x01\0\0\0\0\0\0\x03\0\0\0\x06\0\0\0\x03\0\0\0\x04\0";

const NEVER_SENT: &[Step<'static>] = &[
    Step::Draw(0, 3),
    Step::Draw(1, 6),
    Step::Hint(0, 2, 2),
    Step::Sends(FOUR_SENT),
];

#[test]
fn what_was_never_sent_is_not_copied(rt: HostRuntime) {
    assert!(rt; are_right(rt.alloc(), TWO_KNOWN, NEVER_SENT));
}

// Place 0 in Raw: 3.
pub(super) const PLACE_0_SENT: &[u8] = b"\0\0\0\x01\0\0\0\0\0\x01\0\x01\0\0\0\0\0\0\x03\0";

const NOT_LISTED: &[Step<'static>] = &[
    Step::Draw(0, 3),
    Step::Hint(0, 1, 2),
    Step::Sends(PLACE_0_SENT),
];

#[test]
fn a_viewer_that_listed_no_copy_rect_gets_none(rt: HostRuntime) {
    assert!(rt; are_right(rt.alloc(), ALL_KNOWN_BY_RAW, NOT_LISTED));
}

// All four places in Raw: 3, 2, 3, 4.
const ALL_SENT: &[u8] =
    b"\0\0\0\x01\0\0\0\0\0\x04\0\x01\0\0\0\0\0\0\x03\0\0\0\x02\0\0\0\x03\0\0\0\x04\0";

const ASKED_WHOLE: &[Step<'static>] = &[
    Step::Draw(0, 3),
    Step::Hint(0, 1, 2),
    Step::Feed(ALL),
    Step::Sends(ALL_SENT),
];

#[test]
fn a_whole_request_is_not_answered_by_a_copy(rt: HostRuntime) {
    assert!(rt; are_right(rt.alloc(), ALL_KNOWN, ASKED_WHOLE));
}

// ---- how long they stay

// Place 3 in Raw: 5.
const PLACE_3_SENT: &[u8] = b"\0\0\0\x01\0\x03\0\0\0\x01\0\x01\0\0\0\0\0\0\x05\0";

// The hint comes while nothing is asked.
const NOT_DUE: &[Step<'static>] = &[
    Step::Quiet,
    Step::Draw(3, 5),
    Step::Sends(PLACE_3_SENT),
    Step::Draw(0, 3),
    Step::Hint(0, 1, 2),
    Step::Quiet,
    Step::Feed(CHANGED),
    Step::Sends(PLACE_0_FROM_2),
];

#[test]
fn a_hint_stays_while_no_update_is_due(rt: HostRuntime) {
    assert!(rt; are_right(rt.alloc(), ALL_KNOWN, NOT_DUE));
}

// Place 0 in Raw: 1.
const PLACE_0_AS_BEFORE: &[u8] = b"\0\0\0\x01\0\0\0\0\0\x01\0\x01\0\0\0\0\0\0\x01\0";

// Place 0 becomes 3, 1 and 3 again, each time asked; the hint comes once.
const GONE: &[Step<'static>] = &[
    Step::Draw(0, 3),
    Step::Hint(0, 1, 2),
    Step::Sends(PLACE_0_FROM_2),
    Step::Draw(0, 1),
    Step::Feed(CHANGED),
    Step::Sends(PLACE_0_AS_BEFORE),
    Step::Draw(0, 3),
    Step::Feed(CHANGED),
    Step::Sends(PLACE_0_SENT),
];

#[test]
fn a_hint_is_gone_with_its_update(rt: HostRuntime) {
    assert!(rt; are_right(rt.alloc(), ALL_KNOWN, GONE));
}

// ---- two cells

// Requests for places 0 to 4 and 61 to 65 whole, and for the latter if they changed.
const FIRST_FIVE: &[u8] = b"\x03\0\0\0\0\0\0\x05\0\x01";

const LAST_FIVE: &[u8] = b"\x03\0\0\x3D\0\0\0\x05\0\x01";

const LAST_FIVE_CHANGED: &[u8] = b"\x03\x01\0\x3D\0\0\0\x05\0\x01";

const ONE_TO_FIVE: &[u8] =
    b"\0\0\0\x01\0\0\0\0\0\x05\0\x01\0\0\0\0\0\0\x01\0\0\0\x02\0\0\0\x03\0\0\0\x04\0\0\0\x05\0";

// Places 61 to 63 in Raw: 11, 12, 13; and 64 and 65: 14, 15.
const TWO_CELLS: &[u8] =
    b"\0\0\0\x02\0\x3D\0\0\0\x03\0\x01\0\0\0\0\0\0\x0B\0\0\0\x0C\0\0\0\x0D\0\0\x40\0\0\0\x02\0\x01\0\0\0\0\0\0\x0E\0\0\0\x0F\0";

// Places 61 to 65 copied from 0, then 64 and 65 in Raw, as they were.
const SECOND_CELL_AS_BEFORE: &[u8] =
    b"\0\0\0\x02\0\x3D\0\0\0\x05\0\x01\0\0\0\x01\0\0\0\0\0\x40\0\0\0\x02\0\x01\0\0\0\0\0\0\x0E\0\0\0\x0F\0";

// Of the second cell nothing is drawn, and the copy changes all that it has: it wins three places
// and loses these two.
const INTO_THE_SECOND_CELL: &[Step<'static>] = &[
    Step::Feed(COPY_RECT),
    Step::Draw(0, 1),
    Step::Draw(1, 2),
    Step::Draw(2, 3),
    Step::Draw(3, 4),
    Step::Draw(4, 5),
    Step::Draw(61, 11),
    Step::Draw(62, 12),
    Step::Draw(63, 13),
    Step::Draw(64, 14),
    Step::Draw(65, 15),
    Step::Feed(FIRST_FIVE),
    Step::Sends(ONE_TO_FIVE),
    Step::Feed(LAST_FIVE),
    Step::Sends(TWO_CELLS),
    Step::Draw(61, 1),
    Step::Draw(62, 2),
    Step::Draw(63, 3),
    Step::Hint(61, 5, 0),
    Step::Feed(LAST_FIVE_CHANGED),
    Step::Sends(SECOND_CELL_AS_BEFORE),
];

#[test]
fn a_copy_may_reach_into_a_cell_where_nothing_was_drawn(rt: HostRuntime) {
    assert_eq!(rt;
        first_wrong_of(rt.alloc(), 66, 1, INTO_THE_SECOND_CELL),
        None
    );
}
