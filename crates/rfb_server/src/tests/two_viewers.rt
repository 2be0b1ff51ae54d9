//! Two viewers of one screen: each is sent what it lacks, in its own format and encoding.

use super::places::{GREEN, LAST, ORANGE, SECOND, VIOLET, WHOLE};
use super::shared::{Step, Who, first_wrong};

// SetPixelFormat of rgb565: 16 bits, depth 16, little-endian, true colour, maxima 31, 63 and 31,
// shifts 11, 5 and 0.
const RGB565: &[u8] = b"\0\0\0\0\x10\x10\0\x01\0\x1F\0\x3F\0\x1F\x0B\x05\0\0\0\0";

// SetEncodings with Hextile alone.
const HEXTILE: &[u8] = b"\x02\0\0\x01\0\0\0\x05";

// Requests for all of the screen.
const ASKS_WHOLE: &[u8] = b"\x03\0\0\0\0\0\0\x03\0\x02";

const ASKS: &[u8] = b"\x03\x01\0\0\0\0\0\x03\0\x02";

// All places in Raw at rgb888, blue first: five green ones, and the last orange.
const SIX_PLACES: &[u8] =
    b"\0\0\0\x01\0\0\0\0\0\x03\0\x02\0\0\0\0\x64\xC8\x10\0\x64\xC8\x10\0\x64\xC8\x10\0\x64\xC8\x10\0\x64\xC8\x10\0\x08\x80\xFF\0";

// The same in Hextile at rgb565, least byte first. The mask of the one tile says that a background,
// a foreground and subrectangles follow. The background is green, 2 * 2048 + 49 * 32 + 12. The
// foreground is orange, 31 * 2048 + 32 * 32 + 1. One subrectangle of one place is at column 2 of
// row 1.
const ONE_TILE: &[u8] = b"\0\0\0\x01\0\0\0\0\0\x03\0\x02\0\0\0\x05\x0E\x2C\x16\x01\xFC\x01\x21\0";

// The second place in Raw, violet: at rgb565 6 * 2048 + 4 * 32 + 29.
const VIOLET_AT_RGB565: &[u8] = b"\0\0\0\x01\0\x01\0\0\0\x01\0\x01\0\0\0\0\x9D\x30";

const VIOLET_AT_RGB888: &[u8] = b"\0\0\0\x01\0\x01\0\0\0\x01\0\x01\0\0\0\0\xF0\x11\x32\0";

const TWO_VIEWERS: &[Step<'static>] = &[
    Step::Feed(Who::First, b"RFB 003.003\n"),
    Step::Feed(Who::First, b"\x01"),
    Step::Feed(Who::Second, b"RFB 003.003\n"),
    Step::Feed(Who::Second, b"\x01"),
    Step::Feed(Who::Second, RGB565),
    Step::Feed(Who::Second, HEXTILE),
    Step::Draw(WHOLE, GREEN),
    Step::Draw(LAST, ORANGE),
    Step::Feed(Who::First, ASKS_WHOLE),
    Step::Feed(Who::Second, ASKS_WHOLE),
    Step::Stands(Who::First, true, None),
    Step::Sends(Who::First, SIX_PLACES),
    Step::Stands(Who::First, false, Some(0x10_C864)),
    Step::Stands(Who::Second, true, None),
    Step::Sends(Who::Second, ONE_TILE),
    Step::Stands(Who::First, false, Some(0x10_C864)),
    Step::Stands(Who::Second, false, Some(0x162C)),
    Step::Draw(SECOND, VIOLET),
    Step::Feed(Who::Second, ASKS),
    Step::Feed(Who::First, ASKS),
    Step::Sends(Who::Second, VIOLET_AT_RGB565),
    Step::Stands(Who::First, true, Some(0x10_C864)),
    Step::Sends(Who::First, VIOLET_AT_RGB888),
];

#[test]
fn two_viewers_of_one_screen_are_each_sent_what_they_lack(rt: HostRuntime) {
    assert_eq!(rt; first_wrong(rt.alloc(), TWO_VIEWERS), None);
}
