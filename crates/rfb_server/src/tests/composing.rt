//! What is composed for a client, byte by byte, RFC 6143 sections 7.6.1 and 7.7.

use super::scene::{Step, first_wrong_of};
use rfb_picture::Rect;
use rfb_pixel::Colour;

// Its red is the least that is sent as FF at rgb888, its blue the greatest that is sent as 01.
const ORANGE: Colour = Colour {
    r: 65_407,
    g: 32_896,
    b: 385,
};

// Another colour of the same pixel.
const NEAR_ORANGE: Colour = Colour {
    r: 65_535,
    g: 32_768,
    b: 129,
};

const WHITE: Colour = Colour {
    r: 65_535,
    g: 65_535,
    b: 65_535,
};

// The first place of the one row.
const PLACE: Rect = Rect {
    x: 0,
    y: 0,
    w: 1,
    h: 1,
};

// Requests for all of a row of 1 and of 4 places.
const WHOLE_1: &[u8] = b"\x03\0\0\0\0\0\0\x01\0\x01";

const INCREMENTAL_1: &[u8] = b"\x03\x01\0\0\0\0\0\x01\0\x01";

const WHOLE_4: &[u8] = b"\x03\0\0\0\0\0\0\x04\0\x01";

const INCREMENTAL_4: &[u8] = b"\x03\x01\0\0\0\0\0\x04\0\x01";

// A request for a row of any length, which the screen's edge cuts.
const WHOLE_ROW: &[u8] = b"\x03\0\0\0\0\0\xFF\xFF\0\x01";

// One place in Raw at rgb888, orange.
const ONE_PLACE: &[u8] = b"\0\0\0\x01\0\0\0\0\0\x01\0\x01\0\0\0\0\x01\x80\xFF\0";

// A whole request is answered though nothing changed, an incremental one is not; nor is it where a
// colour changed and its pixel did not.
const ONCE: &[Step<'static>] = &[
    Step::Fill(PLACE, ORANGE),
    Step::Quiet,
    Step::Feed(WHOLE_1),
    Step::Sends(ONE_PLACE),
    Step::Quiet,
    Step::Feed(WHOLE_1),
    Step::Sends(ONE_PLACE),
    Step::Feed(INCREMENTAL_1),
    Step::Quiet,
    Step::Fill(PLACE, NEAR_ORANGE),
    Step::Quiet,
];

#[test]
fn an_update_answers_a_request_once(rt: HostRuntime) {
    assert_eq!(rt; first_wrong_of(rt.alloc(), 1, 1, ONCE), None);
}

// SetPixelFormat of eight bits: 7, 7, 3 at 0, 3, 6.
const EIGHT_BITS: &[u8] = b"\0\0\0\0\x08\x08\0\x01\0\x07\0\x07\0\x03\0\x03\x06\0\0\0";

// The same place in that format.
const ONE_PLACE_IN_EIGHT_BITS: &[u8] = b"\0\0\0\x01\0\0\0\0\0\x01\0\x01\0\0\0\0\x27";

const SENT_AGAIN: &[Step<'static>] = &[
    Step::Fill(PLACE, ORANGE),
    Step::Feed(WHOLE_1),
    Step::Sends(ONE_PLACE),
    Step::Feed(EIGHT_BITS),
    Step::Feed(INCREMENTAL_1),
    Step::Sends(ONE_PLACE_IN_EIGHT_BITS),
];

#[test]
fn after_another_format_all_is_sent_again(rt: HostRuntime) {
    assert_eq!(rt; first_wrong_of(rt.alloc(), 1, 1, SENT_AGAIN), None);
}

// Four black places, and then those that changed.
const FOUR_PLACES: &[u8] =
    b"\0\0\0\x01\0\0\0\0\0\x04\0\x01\0\0\0\0\0\0\0\0\0\0\0\0\0\0\0\0\0\0\0\0";

const THREE_PLACES: &[u8] =
    b"\0\0\0\x01\0\x01\0\0\0\x03\0\x01\0\0\0\0\xFF\xFF\xFF\0\0\0\0\0\xFF\xFF\xFF\0";

const CHANGED: &[Step<'static>] = &[
    Step::Feed(WHOLE_4),
    Step::Sends(FOUR_PLACES),
    Step::Fill(Rect { x: 1, ..PLACE }, WHITE),
    Step::Fill(Rect { x: 3, ..PLACE }, WHITE),
    Step::Feed(INCREMENTAL_4),
    Step::Sends(THREE_PLACES),
];

#[test]
fn a_rectangle_reaches_no_further_than_what_changed(rt: HostRuntime) {
    assert_eq!(rt; first_wrong_of(rt.alloc(), 4, 1, CHANGED), None);
}

// SetEncodings with RRE alone, and with Hextile alone.
const RRE: &[u8] = b"\x02\0\0\x01\0\0\0\x02";

const HEXTILE: &[u8] = b"\x02\0\0\x01\0\0\0\x05";

// RRE of four places would take 20 bytes, and Raw takes 16.
const FOUR_IN_RAW: &[u8] =
    b"\0\0\0\x01\0\0\0\0\0\x04\0\x01\0\0\0\0\0\0\0\0\0\0\0\0\0\0\0\0\xFF\xFF\xFF\0";

const EIGHT_IN_RRE: &[u8] =
    b"\0\0\0\x01\0\0\0\0\0\x08\0\x01\0\0\0\x02\0\0\0\x01\0\0\0\0\xFF\xFF\xFF\0\0\x07\0\0\0\x01\0\x01";

const SEVENTEEN_IN_HEXTILE: &[u8] = b"\0\0\0\x01\0\0\0\0\0\x11\0\x01\0\0\0\x05\x02\x01\x80\xFF\0\0";

const FOUR_PLACES_AT_RRE: &[Step<'static>] = &[
    Step::Feed(RRE),
    Step::Fill(Rect { x: 3, ..PLACE }, WHITE),
    Step::Feed(WHOLE_ROW),
    Step::Sends(FOUR_IN_RAW),
];

#[test]
fn four_places_are_sent_in_raw_where_rre_is_no_shorter(rt: HostRuntime) {
    assert_eq!(rt; first_wrong_of(rt.alloc(), 4, 1, FOUR_PLACES_AT_RRE), None);
}

const EIGHT_PLACES_AT_RRE: &[Step<'static>] = &[
    Step::Feed(RRE),
    Step::Fill(Rect { x: 7, ..PLACE }, WHITE),
    Step::Feed(WHOLE_ROW),
    Step::Sends(EIGHT_IN_RRE),
];

#[test]
fn eight_places_are_sent_in_rre_where_it_is_shorter(rt: HostRuntime) {
    assert_eq!(rt; first_wrong_of(rt.alloc(), 8, 1, EIGHT_PLACES_AT_RRE), None);
}

const TWO_TILES: &[Step<'static>] = &[
    Step::Feed(HEXTILE),
    Step::Fill(Rect { w: 17, ..PLACE }, ORANGE),
    Step::Feed(WHOLE_ROW),
    Step::Sends(SEVENTEEN_IN_HEXTILE),
];

#[test]
fn two_tiles_of_one_colour_are_sent_in_hextile(rt: HostRuntime) {
    assert_eq!(rt; first_wrong_of(rt.alloc(), 17, 1, TWO_TILES), None);
}
