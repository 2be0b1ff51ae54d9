//! Several hints before one update, RFC 6143 section 7.7.2.

use super::hints::{ALL_KNOWN, PLACE_0_FROM_2, PLACE_0_SENT, are_right};
use super::scene::Step;
use rfb_picture::Rect;

// Place 0 copied from 2, then place 1 from place 0.
const ONE_FROM_THE_OTHER: &[u8] =
    b"\0\0\0\x02\0\0\0\0\0\x01\0\x01\0\0\0\x01\0\x02\0\0\0\x01\0\0\0\x01\0\x01\0\0\0\x01\0\0\0\0";

const TWO_COPIES: &[Step<'static>] = &[
    Step::Draw(0, 3),
    Step::Draw(1, 3),
    Step::Hint(0, 1, 2),
    Step::Hint(1, 1, 0),
    Step::Sends(ONE_FROM_THE_OTHER),
];

#[test]
fn a_copy_may_take_what_an_older_one_brought(rt: HostRuntime) {
    assert!(rt; are_right(rt.alloc(), ALL_KNOWN, TWO_COPIES));
}

// Of no use twice, as place 0 is not what place 1 becomes; and of use once it is.
const USEFUL_LATER: &[Step<'static>] = &[
    Step::Draw(0, 3),
    Step::Draw(1, 3),
    Step::Hint(1, 1, 0),
    Step::Hint(1, 1, 0),
    Step::Hint(0, 1, 2),
    Step::Hint(1, 1, 0),
    Step::Sends(ONE_FROM_THE_OTHER),
];

#[test]
fn a_hint_in_vain_may_be_of_use_after_a_copy(rt: HostRuntime) {
    assert!(rt; are_right(rt.alloc(), ALL_KNOWN, USEFUL_LATER));
}

// Fifteen hints that gain nothing.
const HINTS_IN_VAIN: Step<'static> = Step::Hints(15, LAST_PLACE, 3, 0);

const LAST_PLACE: Rect = Rect {
    x: 3,
    y: 0,
    w: 1,
    h: 1,
};

const SIXTEEN: &[Step<'static>] = &[
    Step::Draw(0, 3),
    Step::Hint(0, 1, 2),
    HINTS_IN_VAIN,
    Step::Sends(PLACE_0_FROM_2),
];

#[test]
fn sixteen_hints_are_kept(rt: HostRuntime) {
    assert!(rt; are_right(rt.alloc(), ALL_KNOWN, SIXTEEN));
}

const SEVENTEEN: &[Step<'static>] = &[
    Step::Draw(0, 3),
    Step::Hint(0, 1, 2),
    HINTS_IN_VAIN,
    Step::Hint(3, 1, 3),
    Step::Sends(PLACE_0_SENT),
];

#[test]
fn the_oldest_of_seventeen_hints_is_dropped(rt: HostRuntime) {
    assert!(rt; are_right(rt.alloc(), ALL_KNOWN, SEVENTEEN));
}
