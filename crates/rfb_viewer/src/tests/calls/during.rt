//! Calls inside updates, and inside other messages.

use super::ONE;
use crate::CallFault;
use crate::tests::play::{Call, Step, Told, plays_at_rgb888};
use crate::tests::*;

// A place of Raw at rgb888: its first eight bytes, those up to the last one, and that one; and a
// place at bgr233.
const FRONT: &[u8] = b"\0\0\0\x01\0\0\0\0";

const MIDDLE: &[u8] = b"\0\x01\0\x01\0\0\0\0\x01\x80\xFF";

const LAST: &[u8] = b"\0";

const ONE_SMALL: &[u8] = b"\0\0\0\x01\0\0\0\0\0\x01\0\x01\0\0\0\0\x27";

const SEEN: Colour = Colour {
    r: 65_535,
    g: 37_449,
    b: 0,
};

// A request and a format are refused after each byte of the update, up to its last. Then a format
// is set, the next request sent, and its update read in that format.
const BETWEEN: &[Step<'static>] = &[
    Step::Send(Call::Request(false, ONE), b"\x03\0\0\0\0\0\0\x01\0\x01"),
    Step::Ask(ONE, Some(CallFault::Busy)),
    Step::SetFormat(Some(CallFault::Busy)),
    Step::Busy(FRONT, ONE),
    Step::Busy(MIDDLE, ONE),
    Step::Feed(LAST, 1, Told::UpdateDone),
    Step::Send(
        Call::SetBgr233,
        b"\0\0\0\0\x08\x08\0\x01\0\x07\0\x07\0\x03\0\x03\x06\0\0\0",
    ),
    Step::Send(Call::Request(true, ONE), b"\x03\x01\0\0\0\0\0\x01\0\x01"),
    Step::Feed(ONE_SMALL, 17, Told::UpdateDone),
    Step::Shows(&[SEEN]),
];

#[test]
fn a_format_is_set_between_an_update_and_the_next_request(rt: HostRuntime) {
    assert!(rt; plays_at_rgb888(rt.alloc(), HELLO_1_BY_1, BETWEEN));
}

// Inside an update that nobody asked for no format is set. A request is sent, and answered by its
// end: none is sent after it, and the next one after the last byte.
const ANSWERED: &[Step<'static>] = &[
    Step::Inside(FRONT, Some(CallFault::Busy)),
    Step::Send(Call::Key(true, 1), b"\x04\x01\0\0\0\0\0\x01"),
    Step::Ask(ONE, None),
    Step::Ask(ONE, Some(CallFault::Busy)),
    Step::Feed(MIDDLE, 11, Told::Nothing),
    Step::Ask(ONE, Some(CallFault::Busy)),
    Step::Feed(LAST, 1, Told::UpdateDone),
    Step::Ask(ONE, None),
];

#[test]
fn an_update_that_nobody_asked_for_answers_a_request(rt: HostRuntime) {
    assert!(rt; plays_at_rgb888(rt.alloc(), HELLO_1_BY_1, ANSWERED));
}

// Inside a text and inside colours a format may be set.
const IN_TEXT: &[Step<'static>] = &[Step::Inside(b"\x03\0\0\0\0\0\0\x02A", None)];

const IN_COLOURS: &[Step<'static>] = &[Step::Inside(b"\x01\0\0\0\0\x01\0\0\0", None)];

#[test]
fn a_format_is_set_inside_other_messages(rt: HostRuntime) {
    assert!(rt; plays_at_rgb888(rt.alloc(), HELLO_1_BY_1, IN_TEXT));
    assert!(rt; plays_at_rgb888(rt.alloc(), HELLO_1_BY_1, IN_COLOURS));
}
