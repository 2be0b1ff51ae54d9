//! Copies on the screen and their hints, with drawings before, between and after: RFC 6143 sections
//! 7.6.1, 7.7.1 and 7.7.2. All is worked out from what the viewer has; nothing rests on what the
//! session remembers of a copy.

use super::places::BLACK;
use super::scene::{Step, first_wrong, ready};
use crate::Server;
use rfb_picture::Rect;
use std::alloc::Global;

// SetEncodings with CopyRect alone.
const COPY_RECT: &[u8] = b"\x02\0\0\x01\0\0\0\x01";

// Requests: all eight rows whole; all, the fifth, and the last, if they changed.
const ALL: &[u8] = b"\x03\0\0\0\0\0\0\x01\0\x08";

const CHANGED: &[u8] = b"\x03\x01\0\0\0\0\0\x01\0\x08";

const ROW_4: &[u8] = b"\x03\x01\0\0\0\x04\0\x01\0\x01";

const ROW_7: &[u8] = b"\x03\x01\0\0\0\x07\0\x01\0\x01";

const ONE_TO_EIGHT: &[u8] =
    b"\0\0\0\x01\0\0\0\0\0\x01\0\x08\0\0\0\0\0\0\x01\0\0\0\x02\0\0\0\x03\0\0\0\x04\0\0\0\x05\0\0\0\x06\0\0\0\x07\0\0\0\x08\0";

// The viewer has 1 to 8 in its eight rows of one place.
const KNOWN: &[Step<'static>] = &[
    Step::Feed(COPY_RECT),
    Step::DrawRow(0, 1),
    Step::DrawRow(1, 2),
    Step::DrawRow(2, 3),
    Step::DrawRow(3, 4),
    Step::DrawRow(4, 5),
    Step::DrawRow(5, 6),
    Step::DrawRow(6, 7),
    Step::DrawRow(7, 8),
    Step::Feed(ALL),
    Step::Sends(ONE_TO_EIGHT),
];

// Whether the steps are right of a server of one column of eight places, after those.
fn are_right(alloc: Global, steps: &[Step]) -> bool {
    match ready(alloc, 1, 8) {
        Ok(server) => are_right_then_drop(server, alloc, steps),
        Err(_) => false,
    }
}

fn are_right_then_drop(server: Server, alloc: Global, steps: &[Step]) -> bool {
    let mut server = server;
    let known = first_wrong(&mut server, alloc, KNOWN) == None;
    let right = known && first_wrong(&mut server, alloc, steps) == None;
    drop(server);
    right
}

// ---- the viewer copies what it has, whatever the screen shows there

// Rows 0 to 2 copied from 5, then rows 5 to 7 in Raw: 9, 10, 11.
const SOURCE_SENT: &[u8] =
    b"\0\0\0\x02\0\0\0\0\0\x01\0\x03\0\0\0\x01\0\0\0\x05\0\0\0\x05\0\x01\0\x03\0\0\0\0\0\0\x09\0\0\0\x0A\0\0\0\x0B\0";

const DRAWN_ON_AFTERWARDS: &[Step<'static>] = &[
    Step::CopyRows(0, 3, 5),
    Step::DrawRow(5, 9),
    Step::DrawRow(6, 10),
    Step::DrawRow(7, 11),
    Step::HintRows(0, 3, 5),
    Step::Feed(CHANGED),
    Step::Sends(SOURCE_SENT),
];

// Rows 0 to 2 copied from 5, which are 6, 7, 8; then rows 1 to 6 in Raw, as 1 and 6 are wrong: 9, 8,
// 4, 5, 6, 9.
const NEW_SOURCE_SENT: &[u8] =
    b"\0\0\0\x02\0\0\0\0\0\x01\0\x03\0\0\0\x01\0\0\0\x05\0\0\0\x01\0\x01\0\x06\0\0\0\0\0\0\x09\0\0\0\x08\0\0\0\x04\0\0\0\x05\0\0\0\x06\0\0\0\x09\0";

const DRAWN_ON_BEFORE: &[Step<'static>] = &[
    Step::DrawRow(6, 9),
    Step::CopyRows(0, 3, 5),
    Step::HintRows(0, 3, 5),
    Step::Feed(CHANGED),
    Step::Sends(NEW_SOURCE_SENT),
];

// Rows 0 to 5 copied from 2, which are 3 to 8; then rows 2 to 7 in Raw, as 2, 6 and 7 are wrong: 12,
// 6, 7, 8, 9, 10.
const TWO_ROWS_UP: &[u8] =
    b"\0\0\0\x02\0\0\0\0\0\x01\0\x06\0\0\0\x01\0\0\0\x02\0\0\0\x02\0\x01\0\x06\0\0\0\0\0\0\x0C\0\0\0\x06\0\0\0\x07\0\0\0\x08\0\0\0\x09\0\0\0\x0A\0";

// The second scroll reads what the first wrote, and what was drawn on that: by one row no place is
// right then, by two rows five.
const SCROLLED_TWICE: &[Step<'static>] = &[
    Step::CopyRows(0, 7, 1),
    Step::DrawRow(7, 9),
    Step::DrawRow(3, 12),
    Step::CopyRows(0, 7, 1),
    Step::DrawRow(7, 10),
    Step::HintRows(0, 7, 1),
    Step::HintRows(0, 6, 2),
    Step::Feed(CHANGED),
    Step::Sends(TWO_ROWS_UP),
];

#[test]
fn a_copy_is_judged_by_what_the_viewer_has(rt: HostRuntime) {
    assert!(rt; are_right(rt.alloc(), DRAWN_ON_AFTERWARDS));
    assert!(rt; are_right(rt.alloc(), DRAWN_ON_BEFORE));
    assert!(rt; are_right(rt.alloc(), SCROLLED_TWICE));
}

// ---- what the viewer has at a source changes

// Row 7 copied from 3, then rows 0 to 2 from 5, which are 6, 7, 4; then row 2 in Raw: 8.
const SOURCE_COPIED_OVER: &[u8] =
    b"\0\0\0\x03\0\0\0\x07\0\x01\0\x01\0\0\0\x01\0\0\0\x03\0\0\0\0\0\x01\0\x03\0\0\0\x01\0\0\0\x05\0\0\0\x02\0\x01\0\x01\0\0\0\0\0\0\x08\0";

const COPIED_OVER: &[Step<'static>] = &[
    Step::CopyRows(0, 3, 5),
    Step::DrawRow(7, 4),
    Step::HintRows(7, 1, 3),
    Step::HintRows(0, 3, 5),
    Step::Feed(CHANGED),
    Step::Sends(SOURCE_COPIED_OVER),
];

// Row 7 in Raw: 9.
const ROW_7_SENT: &[u8] = b"\0\0\0\x01\0\0\0\x07\0\x01\0\x01\0\0\0\0\0\0\x09\0";

// Rows 0 to 2 copied from 5, which are 6, 7, 9; then row 2 in Raw: 8.
const SOURCE_SENT_BEFORE: &[u8] =
    b"\0\0\0\x02\0\0\0\0\0\x01\0\x03\0\0\0\x01\0\0\0\x05\0\0\0\x02\0\x01\0\x01\0\0\0\0\0\0\x08\0";

const SENT_IN_PART: &[Step<'static>] = &[
    Step::CopyRows(0, 3, 5),
    Step::Feed(ROW_4),
    Step::Quiet,
    Step::DrawRow(7, 9),
    Step::Feed(ROW_7),
    Step::Sends(ROW_7_SENT),
    Step::HintRows(0, 3, 5),
    Step::Feed(CHANGED),
    Step::Sends(SOURCE_SENT_BEFORE),
];

#[test]
fn a_source_that_the_viewer_got_anew_leaves_its_copy_wrong(rt: HostRuntime) {
    assert!(rt; are_right(rt.alloc(), COPIED_OVER));
    assert!(rt; are_right(rt.alloc(), SENT_IN_PART));
}

// ---- what is drawn over a copy

// Rows 0 to 3 in Raw: 5, 2, 3, 8.
const ROWS_0_TO_3_SENT: &[u8] =
    b"\0\0\0\x01\0\0\0\0\0\x01\0\x04\0\0\0\0\0\0\x05\0\0\0\x02\0\0\0\x03\0\0\0\x08\0";

// The copy would leave rows 0 and 3 right, and rows 1 and 2 wrong, which are right.
const AS_MANY_LOST: &[Step<'static>] = &[
    Step::CopyRows(0, 4, 4),
    Step::DrawRow(1, 2),
    Step::DrawRow(2, 3),
    Step::HintRows(0, 4, 4),
    Step::Feed(CHANGED),
    Step::Sends(ROWS_0_TO_3_SENT),
];

const ROWS_1_AND_2: Rect = Rect {
    x: 0,
    y: 1,
    w: 1,
    h: 2,
};

// Rows 0 to 4 copied from 3, then rows 1 and 2 in Raw: 2, 3.
const THREE_WON: &[u8] =
    b"\0\0\0\x02\0\0\0\0\0\x01\0\x05\0\0\0\x01\0\0\0\x03\0\0\0\x01\0\x01\0\x02\0\0\0\0\0\0\x02\0\0\0\x03\0";

// Rows 1 and 2 are lost, each once though drawn on twice, and three rows are won.
const FEWER_LOST: &[Step<'static>] = &[
    Step::CopyRows(0, 5, 3),
    Step::Fill(ROWS_1_AND_2, BLACK),
    Step::DrawRow(2, 3),
    Step::DrawRow(1, 2),
    Step::HintRows(0, 5, 3),
    Step::Feed(CHANGED),
    Step::Sends(THREE_WON),
];

// Row 0 in Raw: 5.
const ROW_0_SENT: &[u8] = b"\0\0\0\x01\0\0\0\0\0\x01\0\x01\0\0\0\0\0\0\x05\0";

// Rows 0 to 3 copied from 4, then row 3 in Raw: 9.
const TWO_WON: &[u8] =
    b"\0\0\0\x02\0\0\0\0\0\x01\0\x04\0\0\0\x01\0\0\0\x04\0\0\0\x03\0\x01\0\x01\0\0\0\0\0\0\x09\0";

// The copy finds row 0 right, and rows that are drawn as it leaves them: these are what it gains.
const DRAWN_AS_COPIED: &[Step<'static>] = &[
    Step::DrawRow(0, 5),
    Step::Feed(CHANGED),
    Step::Sends(ROW_0_SENT),
    Step::CopyRows(0, 4, 4),
    Step::DrawRow(1, 6),
    Step::DrawRow(2, 7),
    Step::DrawRow(3, 9),
    Step::HintRows(0, 4, 4),
    Step::Feed(CHANGED),
    Step::Sends(TWO_WON),
];

// Rows 0 to 2 copied from 5, then row 1 in Raw: 4.
const ROW_1_SENT: &[u8] =
    b"\0\0\0\x02\0\0\0\0\0\x01\0\x03\0\0\0\x01\0\0\0\x05\0\0\0\x01\0\x01\0\x01\0\0\0\0\0\0\x04\0";

// Another copy draws over it too.
const COPIED_UPON: &[Step<'static>] = &[
    Step::CopyRows(0, 3, 5),
    Step::CopyRows(1, 1, 3),
    Step::HintRows(0, 3, 5),
    Step::Feed(CHANGED),
    Step::Sends(ROW_1_SENT),
];

#[test]
fn what_is_drawn_over_a_copy_is_lost_or_gained_once(rt: HostRuntime) {
    assert!(rt; are_right(rt.alloc(), AS_MANY_LOST));
    assert!(rt; are_right(rt.alloc(), FEWER_LOST));
    assert!(rt; are_right(rt.alloc(), DRAWN_AS_COPIED));
    assert!(rt; are_right(rt.alloc(), COPIED_UPON));
}

// ---- a hint that is of no use, and one after it

// Row 2 in Raw: 1.
const ROW_2_SENT: &[u8] = b"\0\0\0\x01\0\0\0\x02\0\x01\0\x01\0\0\0\0\0\0\x01\0";

// Rows 0 to 3 copied from 4, then row 0 in Raw: 1.
const ROW_0_SENT_AGAIN: &[u8] =
    b"\0\0\0\x02\0\0\0\0\0\x01\0\x04\0\0\0\x01\0\0\0\x04\0\0\0\0\0\x01\0\x01\0\0\0\0\0\0\x01\0";

// Row 0 is right as it is, so it gains nothing from row 2; then the copy of four rows spoils it.
const RIGHT_THEN_COPIED_OVER: &[Step<'static>] = &[
    Step::DrawRow(2, 1),
    Step::Feed(CHANGED),
    Step::Sends(ROW_2_SENT),
    Step::CopyRows(0, 1, 2),
    Step::DrawRow(1, 6),
    Step::DrawRow(2, 7),
    Step::DrawRow(3, 8),
    Step::HintRows(0, 1, 2),
    Step::HintRows(0, 4, 4),
    Step::Feed(CHANGED),
    Step::Sends(ROW_0_SENT_AGAIN),
];

#[test]
fn what_a_hint_in_vain_found_right_is_sent_after_a_copy_over_it(rt: HostRuntime) {
    assert!(rt; are_right(rt.alloc(), RIGHT_THEN_COPIED_OVER));
}

// ---- over its own source, and onto itself

// Rows 0 to 6 copied from 1, then row 7 in Raw: 9; then rows 1 to 7 from 0, and row 0 in Raw: 1.
const UP: &[u8] =
    b"\0\0\0\x02\0\0\0\0\0\x01\0\x07\0\0\0\x01\0\0\0\x01\0\0\0\x07\0\x01\0\x01\0\0\0\0\0\0\x09\0";

const DOWN: &[u8] =
    b"\0\0\0\x02\0\0\0\x01\0\x01\0\x07\0\0\0\x01\0\0\0\0\0\0\0\0\0\x01\0\x01\0\0\0\0\0\0\x01\0";

const BOTH_WAYS: &[Step<'static>] = &[
    Step::CopyRows(0, 7, 1),
    Step::DrawRow(7, 9),
    Step::HintRows(0, 7, 1),
    Step::Feed(CHANGED),
    Step::Sends(UP),
    Step::CopyRows(1, 7, 0),
    Step::DrawRow(0, 1),
    Step::HintRows(1, 7, 0),
    Step::Feed(CHANGED),
    Step::Sends(DOWN),
    Step::Feed(CHANGED),
    Step::Quiet,
];

// Rows 0 to 2 copied from 5, and no other rectangle.
const THREE_ROWS: &[u8] = b"\0\0\0\x01\0\0\0\0\0\x01\0\x03\0\0\0\x01\0\0\0\x05";

// A copy onto itself changes nothing, nor does one of no row.
const ONTO_ITSELF: &[Step<'static>] = &[
    Step::CopyRows(0, 3, 5),
    Step::CopyRows(1, 1, 1),
    Step::CopyRows(2, 0, 5),
    Step::HintRows(0, 3, 5),
    Step::HintRows(1, 1, 1),
    Step::Feed(CHANGED),
    Step::Sends(THREE_ROWS),
];

#[test]
fn a_copy_may_lie_over_its_own_source(rt: HostRuntime) {
    assert!(rt; are_right(rt.alloc(), BOTH_WAYS));
    assert!(rt; are_right(rt.alloc(), ONTO_ITSELF));
}
