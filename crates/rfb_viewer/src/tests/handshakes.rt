//! The handshake of each version: what is answered, and the event at its end.

use super::play::{Step, Told, are_right, first_wrong_greeting, greets};
use super::*;
use crate::ViewerFault;

// What a server of a screen of 2 by 1 with the name `t` sends in ServerInit, its format rgb888.
const INIT: &[u8] = b"\0\x02\0\x01\x20\x18\0\x01\0\xFF\0\xFF\0\xFF\x10\x08\0\0\0\0\0\0\0\x01t";

// Parts of that: up to the last byte but two, up to the length of the name, and from the screen's
// size to the last byte but two.
const INIT_FRONT: &[u8] = b"\0\x02\0\x01\x20\x18\0\x01\0\xFF\0\xFF\0\xFF\x10\x08\0\0\0\0\0\0\0";

const INIT_SCREEN: &[u8] = b"\0\x02\0\x01\x20\x18\0\x01\0\xFF\0\xFF\0\xFF\x10\x08\0\0\0\0";

const INIT_AFTER_SIZE: &[u8] = b"\x20\x18\0\x01\0\xFF\0\xFF\0\xFF\x10\x08\0\0\0\0\0\0\0";

// A server's version, and what is answered: the same.
const V33: Step<'static> = Step::Feed(b"RFB 003.003\n", 12, Told::Reply(b"RFB 003.003\n"));

const V37: Step<'static> = Step::Feed(b"RFB 003.007\n", 12, Told::Reply(b"RFB 003.007\n"));

const V38: Step<'static> = Step::Feed(b"RFB 003.008\n", 12, Told::Reply(b"RFB 003.008\n"));

// The choice of no security by a server of 3.3, and by a viewer of 3.8; all of ServerInit.
const NONE_BY_SERVER: Step<'static> = Step::Feed(b"\0\0\0\x01", 4, Told::Reply(b"\x01"));

const NONE_BY_VIEWER: Step<'static> = Step::Feed(b"\x01\x01", 2, Told::Reply(b"\x01"));

const IS_READY: Step<'static> = Step::Feed(INIT, 25, Told::Ready(2, 1, b"t", 1));

const STEP_BY_STEP: &[Step<'static>] = &[
    V38,
    NONE_BY_VIEWER,
    Step::Feed(b"\0\0\0\0", 4, Told::Reply(b"\x01")),
    Step::Blank(true),
    Step::Feed(INIT_FRONT, 23, Told::Nothing),
    Step::Blank(true),
    Step::Feed(b"\x01", 1, Told::Nothing),
    Step::Shows(&[BLACK, BLACK]),
    Step::Feed(b"t", 1, Told::Ready(2, 1, b"t", 1)),
    Step::Shows(&[BLACK, BLACK]),
];

#[test]
fn a_server_of_3_8_is_answered_step_by_step(rt: HostRuntime) {
    assert!(rt; greets(rt.alloc(), Version::V38, STEP_BY_STEP));
}

const WITHOUT_RESULT: &[Step<'static>] = &[
    V37,
    Step::Feed(b"\x01\x01", 2, Told::Reply(b"\x01\x01")),
    IS_READY,
];

#[test]
fn a_server_of_3_7_sends_no_result(rt: HostRuntime) {
    assert!(rt; greets(rt.alloc(), Version::V38, WITHOUT_RESULT));
}

// Servers whose word is taken; the second one's version is none, and answered with 3.3.
const WORDS: &[&[Step<'static>]] = &[
    &[V33, NONE_BY_SERVER, IS_READY],
    &[
        Step::Feed(b"RFB 003.889\n", 12, Told::Reply(b"RFB 003.003\n")),
        NONE_BY_SERVER,
        IS_READY,
    ],
];

#[test]
fn a_server_of_3_3_sends_a_word(rt: HostRuntime) {
    assert_eq!(rt; first_wrong_greeting(rt.alloc(), WORDS), None);
}

// A server of 3.8 that is answered with 3.3.
const LIMITED: &[Step<'static>] = &[
    Step::Feed(b"RFB 003.008\n", 12, Told::Reply(b"RFB 003.003\n")),
    NONE_BY_SERVER,
    IS_READY,
];

#[test]
fn a_viewer_keeps_to_its_limit(rt: HostRuntime) {
    assert!(rt; greets(rt.alloc(), Version::V33, LIMITED));
}

// A name's length and bytes, and what is kept of it.
const NAMES: &[&[Step<'static>]] = &[
    &[
        V33,
        NONE_BY_SERVER,
        Step::Feed(INIT_SCREEN, 20, Told::Nothing),
        Step::Feed(b"\0\0\0\0", 4, Told::Ready(2, 1, b"", 0)),
    ],
    &[
        V33,
        NONE_BY_SERVER,
        Step::Feed(INIT_SCREEN, 20, Told::Nothing),
        Step::Feed(b"\0\0\0\x05ABCDE", 9, Told::Ready(2, 1, b"ABCD", 5)),
    ],
];

#[test]
fn a_name_of_no_bytes_and_one_past_the_limit(rt: HostRuntime) {
    assert_eq!(rt; first_wrong_greeting(rt.alloc(), NAMES), None);
}

// ServerInit after the size of the screen: taken up to its last byte but one, and refused there.
const TAKEN: Step<'static> = Step::Feed(INIT_AFTER_SIZE, 19, Told::Nothing);

const TOO_LARGE: Step<'static> = Step::Fail(b"\x01", ViewerFault::ScreenTooLarge);

const EMPTY: Step<'static> = Step::Fail(b"\x01", ViewerFault::ScreenEmpty);

const BLANK: Step<'static> = Step::Blank(true);

// After a width and a height, all of a row.
const SCREENS: &[&[Step<'static>]] = &[
    &[
        V33,
        NONE_BY_SERVER,
        Step::Feed(b"\xFF\xFF\xFF\xFF", 4, Told::Nothing),
        TAKEN,
        TOO_LARGE,
        BLANK,
    ],
    &[
        V33,
        NONE_BY_SERVER,
        Step::Feed(b"\0\x19\0\x29", 4, Told::Nothing),
        TAKEN,
        TOO_LARGE,
        BLANK,
    ],
    &[
        V33,
        NONE_BY_SERVER,
        Step::Feed(b"\0\0\0\x01", 4, Told::Nothing),
        TAKEN,
        EMPTY,
        BLANK,
    ],
    &[
        V33,
        NONE_BY_SERVER,
        Step::Feed(b"\xFF\xFF\0\0", 4, Told::Nothing),
        TAKEN,
        EMPTY,
        BLANK,
    ],
    &[
        V33,
        NONE_BY_SERVER,
        Step::Feed(b"\0\x20\0\x20", 4, Told::Nothing),
        TAKEN,
        Step::Feed(b"\x01", 1, Told::Nothing),
        Step::Blank(false),
    ],
];

#[test]
fn a_screen_is_judged_at_its_last_byte_before_the_name(rt: HostRuntime) {
    assert_eq!(rt; first_wrong_greeting(rt.alloc(), SCREENS), None);
}

// Whether a screen of the most places that ServerInit can have is refused, where 4,096 by 4,096 are
// admitted.
fn is_too_large(alloc: Global) -> bool {
    let (format, limit) = (Format::rgb888(), Version::V38);
    let mut viewer = Viewer::new(alloc, format, ArrayVec::new(), limit, true, 16_777_216, 4);
    are_right(&mut viewer, SCREENS[0])
}

#[test]
fn the_largest_screen_is_refused_before_it_takes_memory(rt: HostRuntime) {
    assert!(rt; is_too_large(rt.alloc()));
}

// No reason is kept before the last byte of a refusal.
const NO_REASON: Step<'static> = Step::Reason(b"");

// A server's version and its security that refuses: the fault, and what is kept of the reason.
const REFUSALS: &[&[Step<'static>]] = &[
    &[
        V38,
        Step::Feed(b"\x01", 1, Told::Nothing),
        NO_REASON,
        Step::Break(b"\x02", ViewerFault::NoneNotOffered),
        NO_REASON,
    ],
    &[
        V33,
        Step::Feed(b"\0\0\0", 3, Told::Nothing),
        NO_REASON,
        Step::Break(b"\x02", ViewerFault::NoneNotOffered),
        NO_REASON,
    ],
    &[
        V33,
        Step::Feed(b"\0\0\0", 3, Told::Nothing),
        NO_REASON,
        Step::Break(b"\x03", ViewerFault::BadSecurityWord),
        NO_REASON,
    ],
    &[
        V33,
        Step::Feed(b"\0\0\0\0\0\0\0\x02N", 9, Told::Nothing),
        NO_REASON,
        Step::Break(b"o", ViewerFault::Refused(2)),
        Step::Reason(b"No"),
    ],
    &[
        V38,
        Step::Feed(b"\0\0\0\0", 4, Told::Nothing),
        NO_REASON,
        Step::Break(b"\0", ViewerFault::Refused(0)),
        NO_REASON,
    ],
    &[
        V37,
        Step::Feed(b"\0\0\0\0\x05Neve", 9, Told::Nothing),
        NO_REASON,
        Step::Break(b"r", ViewerFault::Refused(5)),
        Step::Reason(b"Neve"),
    ],
];

#[test]
fn a_server_without_none_and_one_that_refuses(rt: HostRuntime) {
    assert_eq!(rt; first_wrong_greeting(rt.alloc(), REFUSALS), None);
}

// A result that is no success, its fault, and what is kept of the reason.
const FAILURES: &[&[Step<'static>]] = &[
    &[
        V38,
        NONE_BY_VIEWER,
        Step::Feed(b"\0\0\0\x01\0\0\0\x02N", 9, Told::Nothing),
        NO_REASON,
        Step::Break(b"o", ViewerFault::SecurityFailed(2)),
        Step::Reason(b"No"),
    ],
    &[
        V38,
        NONE_BY_VIEWER,
        Step::Feed(b"\0\0\0\x07\0\0\0", 7, Told::Nothing),
        NO_REASON,
        Step::Break(b"\0", ViewerFault::SecurityFailed(0)),
        NO_REASON,
    ],
];

#[test]
fn a_failed_result_has_a_reason(rt: HostRuntime) {
    assert_eq!(rt; first_wrong_greeting(rt.alloc(), FAILURES), None);
}

// Eleven bytes that are taken, and the twelfth, which is refused.
const NO_VERSIONS: &[&[Step<'static>]] = &[
    &[
        Step::Feed(b"RFB 3.8\n...", 11, Told::Nothing),
        Step::Fail(b".", ViewerFault::BadVersion),
        BLANK,
    ],
    &[
        Step::Feed(b"RFB 003.00x", 11, Told::Nothing),
        Step::Fail(b"\n", ViewerFault::BadVersion),
        BLANK,
    ],
    &[
        Step::Feed(b"RFB 003.008", 11, Told::Nothing),
        Step::Fail(b"\0", ViewerFault::BadVersion),
        BLANK,
    ],
];

#[test]
fn a_text_that_is_no_version_is_refused_at_its_last_byte(rt: HostRuntime) {
    assert_eq!(rt; first_wrong_greeting(rt.alloc(), NO_VERSIONS), None);
}
