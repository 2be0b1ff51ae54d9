//! Heads of client messages byte for byte, and what is asked for where bytes are missing.

use super::*;

const RGB888: [u8; 16] = [
    0x20, 0x18, 0, 1, 0, 0xFF, 0, 0xFF, 0, 0xFF, 0x10, 0x08, 0, 0, 0, 0,
];

// SetPixelFormat: type, padding, and PIXEL_FORMAT.
const SET_RGB888: [u8; 20] = [
    0, 0, 0, 0, 0x20, 0x18, 0, 1, 0, 0xFF, 0, 0xFF, 0, 0xFF, 0x10, 0x08, 0, 0, 0, 0,
];

// SetEncodings: type, padding, number-of-encodings.
const SET_TWO_ENCODINGS: [u8; 4] = [2, 0, 0, 2];

// FramebufferUpdateRequest: type, incremental, x-position, y-position, width, height.
const REQUEST_OF_TWO_PLACES: [u8; 10] = [3, 1, 0, 0, 0, 0, 0, 2, 0, 1];

// KeyEvent: type, down-flag, padding, key.
const RETURN_RELEASED: [u8; 8] = [4, 0, 0, 0, 0, 0, 0xFF, 0x0D];

// PointerEvent: type, button-mask, x-position, y-position.
const LEFT_BUTTON_AT_258_772: [u8; 6] = [5, 1, 1, 2, 3, 4];

// ClientCutText: type, padding, length.
const TEXT_OF_FIVE_BYTES: [u8; 8] = [6, 0, 0, 0, 0, 0, 0, 5];

// Each head, as the tables of section 7.5 lay it out.
fn heads() -> [(ClientHead, &'static [u8]); 6] {
    [
        (ClientHead::SetPixelFormat(RGB888), &SET_RGB888),
        (ClientHead::SetEncodings(2), &SET_TWO_ENCODINGS),
        (
            ClientHead::Request {
                incremental: true,
                rect: Rect {
                    x: 0,
                    y: 0,
                    w: 2,
                    h: 1,
                },
            },
            &REQUEST_OF_TWO_PLACES,
        ),
        (
            ClientHead::Key {
                down: false,
                key: 0xFF0D,
            },
            &RETURN_RELEASED,
        ),
        (
            ClientHead::Pointer {
                buttons: 1,
                x: 258,
                y: 772,
            },
            &LEFT_BUTTON_AT_258_772,
        ),
        (ClientHead::CutText(5), &TEXT_OF_FIVE_BYTES),
    ]
}

#[test]
fn a_head_has_the_bytes_of_its_table(rt: HostRuntime) {
    for (head, bytes) in heads() {
        assert_eq!(rt; head.spell().as_slice(), bytes);
        assert_eq!(rt; ClientHead::read(bytes), Read::Got(head, bytes.len()));
    }
}

#[test]
fn each_front_of_a_head_asks_for_the_rest_of_it(rt: HostRuntime) {
    for (_, bytes) in heads() {
        for n in 1..bytes.len() {
            assert_eq!(rt; ClientHead::read(&bytes[..n]), Read::More(bytes.len() - n));
        }
    }
}

#[test]
fn a_type_is_asked_for_and_judged_by_itself(rt: HostRuntime) {
    assert_eq!(rt; ClientHead::read(&[]), Read::More(1));
    assert_eq!(rt; ClientHead::read(&[3]), Read::More(9));
    assert_eq!(rt; ClientHead::read(&[3, 1]), Read::More(8));
    assert_eq!(rt;
        ClientHead::read(&[1]),
        Read::Bad(WireFault::UnknownMessage(1))
    );
    assert_eq!(rt;
        ClientHead::read(&[7, 0]),
        Read::Bad(WireFault::UnknownMessage(7))
    );
}
