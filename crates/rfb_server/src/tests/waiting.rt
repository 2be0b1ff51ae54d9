//! When a viewer waits for an update, and what becomes of a change that someone else draws.

use super::places::{BLACK, LAST, SECOND, VIOLET, WHOLE};
use super::shared::{Step, Who, first_wrong};
use crate::Notice;
use rfb_picture::{Picture, Rect};
use std::alloc::AllocError;

// The handshake of 3.3, RFC 6143 sections 7.1.1 and 7.3.1.
const VERSION: &[u8] = b"RFB 003.003\n";

const SHARED: &[u8] = b"\x01";

// Requests, section 7.5.3: for all of the screen, whole and incremental, and for none of it.
const ASKS_WHOLE: &[u8] = b"\x03\0\0\0\0\0\0\x03\0\x02";

const ASKS: &[u8] = b"\x03\x01\0\0\0\0\0\x03\0\x02";

const ASKS_NOTHING: &[u8] = b"\x03\0\0\0\0\0\0\0\0\x02";

// A message of no type that a client may send, section 7.5.
const NO_MESSAGE: &[u8] = b"\x01";

// Updates in Raw at rgb888, blue first, sections 7.6.1 and 7.7.1: six black places; the second
// place, violet.
const SIX_BLACK: &[u8] =
    b"\0\0\0\x01\0\0\0\0\0\x03\0\x02\0\0\0\0\0\0\0\0\0\0\0\0\0\0\0\0\0\0\0\0\0\0\0\0\0\0\0\0";

const SECOND_IN_VIOLET: &[u8] = b"\0\0\0\x01\0\x01\0\0\0\x01\0\x01\0\0\0\0\xF0\x11\x32\0";

const WAITS: &[Step<'static>] = &[
    Step::Waits(Who::First, false),
    Step::Feed(Who::First, VERSION),
    Step::Waits(Who::First, false),
    Step::Feed(Who::First, SHARED),
    Step::Waits(Who::First, false),
    Step::Feed(Who::First, ASKS_WHOLE),
    Step::Waits(Who::First, true),
    Step::Waits(Who::Second, false),
    Step::Sends(Who::First, SIX_BLACK),
    Step::Waits(Who::First, false),
];

#[test]
fn a_viewer_waits_from_its_request_to_its_update(rt: HostRuntime) {
    assert_eq!(rt; first_wrong(rt.alloc(), WAITS), None);
}

const DOES_NOT_WAIT: &[Step<'static>] = &[
    Step::Feed(Who::First, VERSION),
    Step::Feed(Who::First, SHARED),
    Step::Feed(Who::First, ASKS_NOTHING),
    Step::Waits(Who::First, false),
    Step::Feed(Who::First, ASKS),
    Step::Waits(Who::First, true),
    Step::Fails(Who::First, NO_MESSAGE),
    Step::Waits(Who::First, false),
];

#[test]
fn a_viewer_that_asked_for_no_place_or_has_failed_does_not_wait(rt: HostRuntime) {
    assert_eq!(rt; first_wrong(rt.alloc(), DOES_NOT_WAIT), None);
}

const CHANGES: &[Step<'static>] = &[
    Step::Feed(Who::First, VERSION),
    Step::Feed(Who::First, SHARED),
    Step::Feed(Who::First, ASKS_WHOLE),
    Step::Sends(Who::First, SIX_BLACK),
    Step::Feed(Who::First, ASKS),
    Step::Change(SECOND, VIOLET),
    Step::Waits(Who::First, true),
    Step::Sends(Who::First, SECOND_IN_VIOLET),
    Step::Waits(Who::First, false),
];

#[test]
fn what_someone_else_changes_is_sent(rt: HostRuntime) {
    assert_eq!(rt; first_wrong(rt.alloc(), CHANGES), None);
}

// The last place, and one beyond the right edge.
const BEYOND: Rect = Rect {
    x: 2,
    y: 1,
    w: 2,
    h: 1,
};

#[test]
fn a_change_or_a_hint_that_leaves_the_screen_is_refused(rt: HostRuntime) -> Result<(), AllocError> {
    let screen = Picture::new(rt.alloc(), 3, 2, BLACK)?;
    assert!(rt; Notice::changed(&screen, WHOLE).is_ok());
    assert!(rt; Notice::changed(&screen, BEYOND).is_err());
    assert!(rt; Notice::hint(&screen, LAST, 0, 1).is_ok());
    assert!(rt; Notice::hint(&screen, LAST, 3, 1).is_err());
    assert!(rt; Notice::hint(&screen, BEYOND, 0, 0).is_err());
    Ok(())
}
