//! Heads of rectangles on a screen of 2 by 1 places.

use super::*;

// x-position, y-position, width, height, encoding-type.
const RIGHT_PLACE: [u8; 12] = [0, 1, 0, 0, 0, 1, 0, 1, 0, 0, 0, 5];

#[test]
fn a_head_has_the_bytes_of_its_table(rt: HostRuntime) {
    let head = RectHead {
        rect: Rect {
            x: 1,
            y: 0,
            w: 1,
            h: 1,
        },
        encoding: Encoding::Hextile,
    };
    assert_eq!(rt; head.spell().as_slice(), RIGHT_PLACE.as_slice());
    assert_eq!(rt; RectHead::read(&RIGHT_PLACE, 2, 1), Read::Got(head, 12));
}

#[test]
fn each_front_of_a_head_asks_for_the_rest_of_it(rt: HostRuntime) {
    for n in 0..RIGHT_PLACE.len() {
        assert_eq!(rt; RectHead::read(&RIGHT_PLACE[..n], 2, 1), Read::More(12 - n));
    }
}

#[test]
fn the_encoding_is_judged_before_the_place(rt: HostRuntime) {
    for (number, fault) in [
        ([0, 0, 0, 0x10], WireFault::UnknownEncoding(16)),
        ([0xFF, 0xFF, 0xFF, 0x21], WireFault::UnknownEncoding(-223)),
        ([0, 0, 0, 0], WireFault::RectOutside),
    ] {
        let mut bytes = [0, 1, 0, 0, 0, 2, 0, 1, 0, 0, 0, 0];
        bytes[8..].copy_from_slice(&number);
        assert_eq!(rt; RectHead::read(&bytes, 2, 1), Read::Bad(fault));
    }
}

#[test]
fn an_empty_rectangle_may_stand_at_the_edge_but_not_beyond(rt: HostRuntime) {
    let mut bytes = [0, 2, 0, 1, 0, 0, 0, 0, 0, 0, 0, 0];
    let head = RectHead {
        rect: Rect {
            x: 2,
            y: 1,
            w: 0,
            h: 0,
        },
        encoding: Encoding::Raw,
    };
    assert_eq!(rt; RectHead::read(&bytes, 2, 1), Read::Got(head, 12));
    bytes[1] = 3;
    assert_eq!(rt;
        RectHead::read(&bytes, 2, 1),
        Read::Bad(WireFault::RectOutside)
    );
}

#[test]
fn an_encoding_has_its_number(rt: HostRuntime) {
    for (encoding, number) in [
        (Encoding::Raw, 0),
        (Encoding::CopyRect, 1),
        (Encoding::Rre, 2),
        (Encoding::Hextile, 5),
    ] {
        assert_eq!(rt; encoding.number(), number);
        assert_eq!(rt; Encoding::try_from(number), Ok(encoding));
    }
    assert_eq!(rt; Encoding::try_from(3), Err(WireFault::UnknownEncoding(3)));
}
