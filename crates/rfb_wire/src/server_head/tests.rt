//! Heads of server messages byte for byte, and what is asked for where bytes are missing.

use super::*;

// FramebufferUpdate: type, padding, number-of-rectangles.
const UPDATE_OF_ONE_RECTANGLE: [u8; 4] = [0, 0, 0, 1];

// SetColorMapEntries: type, padding, first-colour, number-of-colours.
const TWO_COLOURS_FROM_258: [u8; 6] = [1, 0, 1, 2, 0, 2];

// ServerCutText: type, padding, length.
const TEXT_OF_FIVE_BYTES: [u8; 8] = [3, 0, 0, 0, 0, 0, 0, 5];

// Each head, as the tables of section 7.6 lay it out.
fn heads() -> [(ServerHead, &'static [u8]); 4] {
    [
        (ServerHead::Update(1), &UPDATE_OF_ONE_RECTANGLE),
        (
            ServerHead::ColourMap {
                first: 258,
                count: 2,
            },
            &TWO_COLOURS_FROM_258,
        ),
        (ServerHead::Bell, &[2]),
        (ServerHead::CutText(5), &TEXT_OF_FIVE_BYTES),
    ]
}

#[test]
fn a_head_has_the_bytes_of_its_table(rt: HostRuntime) {
    for (head, bytes) in heads() {
        assert_eq!(rt; head.spell().as_slice(), bytes);
        assert_eq!(rt; ServerHead::read(bytes), Read::Got(head, bytes.len()));
    }
}

#[test]
fn each_front_of_a_head_asks_for_the_rest_of_it(rt: HostRuntime) {
    for (_, bytes) in heads() {
        for n in 1..bytes.len() {
            assert_eq!(rt; ServerHead::read(&bytes[..n]), Read::More(bytes.len() - n));
        }
    }
}

#[test]
fn a_type_is_asked_for_and_judged_by_itself(rt: HostRuntime) {
    assert_eq!(rt; ServerHead::read(&[]), Read::More(1));
    assert_eq!(rt;
        ServerHead::read(&[4]),
        Read::Bad(WireFault::UnknownMessage(4))
    );
    assert_eq!(rt; ServerHead::read(&[2, 2]), Read::Got(ServerHead::Bell, 1));
}
