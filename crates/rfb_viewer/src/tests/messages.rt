//! Messages after the handshake: the event of each, and at which byte.

use super::play::{Step, Told, plays_at_rgb888, tells};
use super::*;
use crate::ViewerFault;

// Whether a viewer of 2 by 1 places goes through these steps.
fn plays_2_by_1(alloc: Global, steps: &[Step<'_>]) -> bool {
    plays_at_rgb888(alloc, HELLO_2_BY_1, steps)
}

// A bell after a text of five bytes, where four are kept; and the text but its last byte.
const TEXT: &[u8] = b"\x03\0\0\0\0\0\0\x05ABCDE\x02";

const TEXT_FRONT: &[u8] = b"\x03\0\0\0\0\0\0\x05ABCD";

const TEXTS: &[Step<'static>] = &[
    Step::Feed(TEXT, 13, Told::Text(b"ABCD", 5)),
    Step::Feed(b"\x02", 1, Told::Bell),
    Step::Feed(TEXT_FRONT, 12, Told::Nothing),
    Step::Feed(b"\x02\x02", 1, Told::Text(b"ABCD", 5)),
    Step::Feed(b"\x02\x02", 1, Told::Bell),
    Step::Feed(b"\x03\0\0\0\0\0\0\0\x02", 8, Told::Text(b"", 0)),
    Step::Feed(b"\x03\xFF\xFF\xFF\0\0\0\x01A\x02", 9, Told::Text(b"A", 1)),
];

#[test]
fn a_text_is_kept_up_to_the_limit_and_told_at_its_last_byte(rt: HostRuntime) {
    assert!(rt; plays_2_by_1(rt.alloc(), TEXTS));
}

// Two colours from the third on.
const TWO_COLOURS: &[u8] =
    b"\x01\0\0\x02\0\x02\x01\x02\x03\x04\x05\x06\x07\x08\x09\x0A\x0B\x0C\x02";

// Those two; none; and one in parts.
const COLOURS: &[Step<'static>] = &[
    Step::Feed(TWO_COLOURS, 18, Told::ColourMapSkipped),
    Step::Feed(b"\x02", 1, Told::Bell),
    Step::Feed(b"\x01\xFF\xFF\xFF\0\0\x02", 6, Told::ColourMapSkipped),
    Step::Feed(b"\x01\0\0\0\0\x01\0\0\0\0\0", 11, Told::Nothing),
    Step::Feed(b"\0\x02", 1, Told::ColourMapSkipped),
];

#[test]
fn colours_are_skipped_to_the_last_one(rt: HostRuntime) {
    assert!(rt; plays_2_by_1(rt.alloc(), COLOURS));
}

// Whether as many colours as a message can have, of six bytes each, are skipped in slices of 4,096
// bytes.
fn skips_slices(viewer: &mut Viewer) -> bool {
    let slice = [7; 4_096];
    let mut good = true;
    for _ in 0..95 {
        good &= tells(viewer, &slice, 4_096, Told::Nothing);
    }
    good && tells(viewer, &slice, 4_090, Told::ColourMapSkipped)
}

fn skips_the_longest(alloc: Global) -> bool {
    let mut viewer = ready(alloc, Format::rgb888(), HELLO_2_BY_1);
    tells(&mut viewer, b"\x01\0\0\0\xFF\xFF", 6, Told::Nothing) && skips_slices(&mut viewer)
}

// A colour map of the greatest count of colours.
#[test]
fn the_longest_colour_map_is_skipped_slice_by_slice(rt: HostRuntime) {
    assert!(rt; skips_the_longest(rt.alloc()));
}

const OF_NO_RECTANGLES: &[Step<'static>] = &[
    Step::Feed(b"\0\xFF\0\0\0", 4, Told::UpdateDone),
    Step::Feed(b"\0\0\0\0", 4, Told::UpdateDone),
    Step::Shows(&[BLACK, BLACK]),
];

#[test]
fn an_update_of_no_rectangles_is_done_at_its_head(rt: HostRuntime) {
    assert!(rt; plays_2_by_1(rt.alloc(), OF_NO_RECTANGLES));
}

const TWO_IN_RAW: &[u8] = b"\0\0\0\x02\0\x02\0\x01\0\0\0\0\0\0\0\0\0\0\0\0\0\0\0\x01\0\0\0\0\x02";

const ONE_COPIED: &[u8] = b"\0\0\0\x01\0\x02\0\0\0\0\0\x01\0\0\0\x01\0\0\0\0\x02";

// Rectangles of no place have no data in Raw, a source in CopyRect.
const OF_NO_PLACE: &[Step<'static>] = &[
    Step::Feed(TWO_IN_RAW, 28, Told::UpdateDone),
    Step::Feed(ONE_COPIED, 20, Told::UpdateDone),
    Step::Feed(b"\x02", 1, Told::Bell),
];

#[test]
fn a_rectangle_of_no_place_is_done_with_its_head(rt: HostRuntime) {
    assert!(rt; plays_2_by_1(rt.alloc(), OF_NO_PLACE));
}

// Whether this type of a message is refused after a bell, whatever follows.
fn is_unknown(alloc: Global, kind: u8) -> bool {
    let fault = ViewerFault::UnknownMessage(kind);
    let steps = [
        Step::Feed(&[2, kind], 1, Told::Bell),
        Step::Fail(&[kind, 2], fault),
        Step::Fail(b"\x02\x02", fault),
        Step::Fail(b"", fault),
        Step::Shows(&[BLACK, BLACK]),
    ];
    plays_2_by_1(alloc, steps.as_slice())
}

#[test]
fn an_unknown_type_is_refused_at_once_and_for_good(rt: HostRuntime) {
    for kind in [4, 5, 0xFF] {
        assert!(rt; is_unknown(rt.alloc(), kind));
    }
}
