//! Two viewers of one screen that have and ask for the same: an update for the one is the other's.

use super::places::{GREEN, LAST, ORANGE, SECOND, VIOLET, WHOLE};
use super::shared::{Step, Who, are_right_after};

// SetPixelFormat of rgb888 with the red first, section 7.5.1: 32 bits, depth 24, little-endian, true
// colour, maxima of 255, shifts 0, 8 and 16.
const RED_FIRST: &[u8] = b"\0\0\0\0\x20\x18\0\x01\0\xFF\0\xFF\0\xFF\0\x08\x10\0\0\0";

// SetEncodings with Hextile alone, section 7.5.2.
const HEXTILE: &[u8] = b"\x02\0\0\x01\0\0\0\x05";

// Requests for all of the screen, section 7.5.3, and for its first row.
const ASKS_WHOLE: &[u8] = b"\x03\0\0\0\0\0\0\x03\0\x02";

const ASKS: &[u8] = b"\x03\x01\0\0\0\0\0\x03\0\x02";

const ASKS_A_ROW: &[u8] = b"\x03\0\0\0\0\0\0\x03\0\x01";

// All places in Raw at rgb888, blue first: five green ones, and the last orange.
const SIX_PLACES: &[u8] =
    b"\0\0\0\x01\0\0\0\0\0\x03\0\x02\0\0\0\0\x64\xC8\x10\0\x64\xC8\x10\0\x64\xC8\x10\0\x64\xC8\x10\0\x64\xC8\x10\0\x08\x80\xFF\0";

// The second place in Raw, violet, and the last one.
const VIOLET_SECOND: &[u8] = b"\0\0\0\x01\0\x01\0\0\0\x01\0\x01\0\0\0\0\xF0\x11\x32\0";

const VIOLET_LAST: &[u8] = b"\0\0\0\x01\0\x02\0\x01\0\x01\0\x01\0\0\0\0\xF0\x11\x32\0";

const ENTER: &[Step<'static>] = &[
    Step::Feed(Who::First, b"RFB 003.003\n"),
    Step::Feed(Who::First, b"\x01"),
    Step::AreTwins(false),
    Step::Feed(Who::Second, b"RFB 003.003\n"),
    Step::Feed(Who::Second, b"\x01"),
    Step::Draw(WHOLE, GREEN),
    Step::Draw(LAST, ORANGE),
    Step::AreTwins(false),
    Step::Feed(Who::First, ASKS_WHOLE),
    Step::AreTwins(false),
];

// What the second knows after its twin's update is what it was sent: an update of its own is of what
// was drawn since. In another format it is not known what it has.
const TWINS: &[Step<'static>] = &[
    Step::Feed(Who::Second, ASKS_WHOLE),
    Step::Stands(Who::Second, true, None),
    Step::AreTwins(true),
    Step::SendsBoth(SIX_PLACES),
    Step::Stands(Who::First, false, Some(0x10_C864)),
    Step::Stands(Who::Second, false, Some(0x10_C864)),
    Step::AreTwins(false),
    Step::Draw(SECOND, VIOLET),
    Step::Feed(Who::Second, ASKS),
    Step::Feed(Who::First, ASKS),
    Step::AreTwins(true),
    Step::SendsBoth(VIOLET_SECOND),
    Step::Waits(Who::Second, false),
    Step::Draw(LAST, VIOLET),
    Step::Feed(Who::Second, ASKS),
    Step::Sends(Who::Second, VIOLET_LAST),
    Step::Feed(Who::Second, ASKS),
    Step::Feed(Who::First, ASKS),
    Step::AreTwins(false),
    Step::Sends(Who::First, VIOLET_LAST),
    Step::Stands(Who::Second, true, Some(0x10_C864)),
    Step::Feed(Who::Second, RED_FIRST),
    Step::Stands(Who::Second, true, None),
];

// One that asks for all of the screen beside another, which differs.
const OTHER_FORMAT: &[Step<'static>] = &[
    Step::Feed(Who::Second, RED_FIRST),
    Step::Feed(Who::Second, ASKS_WHOLE),
    Step::AreTwins(false),
];

const OTHER_ENCODING: &[Step<'static>] = &[
    Step::Feed(Who::Second, HEXTILE),
    Step::Feed(Who::Second, ASKS_WHOLE),
    Step::AreTwins(false),
];

const ASKS_FOR_CHANGES: &[Step<'static>] = &[
    Step::Feed(Who::Second, ASKS),
    Step::AreTwins(false),
    Step::Feed(Who::Second, ASKS_WHOLE),
    Step::AreTwins(true),
];

const ASKS_FOR_LESS: &[Step<'static>] = &[
    Step::Feed(Who::Second, ASKS_A_ROW),
    Step::AreTwins(false),
    Step::Feed(Who::Second, ASKS_WHOLE),
    Step::AreTwins(true),
];

const AMID_A_MESSAGE: &[Step<'static>] = &[
    Step::Feed(Who::Second, ASKS_WHOLE),
    Step::AreTwins(true),
    Step::Feed(Who::First, b"\x05\0\0"),
    Step::AreTwins(false),
    Step::Feed(Who::First, b"\x02\0\x01"),
    Step::AreTwins(true),
];

const FAILED: &[Step<'static>] = &[
    Step::Feed(Who::Second, ASKS_WHOLE),
    Step::AreTwins(true),
    Step::Fails(Who::Second, b"\x63"),
    Step::AreTwins(false),
];

#[test]
fn an_update_for_one_of_two_twins_is_the_others(rt: HostRuntime) {
    assert!(rt; are_right_after(rt.alloc(), ENTER, TWINS));
}

#[test]
fn who_differs_in_anything_is_no_twin(rt: HostRuntime) {
    assert!(rt; are_right_after(rt.alloc(), ENTER, OTHER_FORMAT));
    assert!(rt; are_right_after(rt.alloc(), ENTER, OTHER_ENCODING));
    assert!(rt; are_right_after(rt.alloc(), ENTER, ASKS_FOR_CHANGES));
    assert!(rt; are_right_after(rt.alloc(), ENTER, ASKS_FOR_LESS));
    assert!(rt; are_right_after(rt.alloc(), ENTER, AMID_A_MESSAGE));
    assert!(rt; are_right_after(rt.alloc(), ENTER, FAILED));
}
