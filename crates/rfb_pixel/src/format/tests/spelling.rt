//! PIXEL_FORMATs byte by byte, as the table of RFC 6143 section 7.4 has them.

use super::*;

const RGB888: [u8; 16] = [
    0x20, 0x18, 0, 1, 0x00, 0xFF, 0x00, 0xFF, 0x00, 0xFF, 0x10, 0x08, 0x00, 0, 0, 0,
];

const RGB565: [u8; 16] = [
    0x10, 0x10, 0, 1, 0x00, 0x1F, 0x00, 0x3F, 0x00, 0x1F, 0x0B, 0x05, 0x00, 0, 0, 0,
];

const BGR233: [u8; 16] = [
    0x08, 0x08, 0, 1, 0x00, 0x07, 0x00, 0x07, 0x00, 0x03, 0x00, 0x03, 0x06, 0, 0, 0,
];

const RGB101010: [u8; 16] = [
    0x20, 0x1E, 0, 1, 0x03, 0xFF, 0x03, 0xFF, 0x03, 0xFF, 0x14, 0x0A, 0x00, 0, 0, 0,
];

// The rgb565 bytes with some of them changed, each given by its place.
fn changed(changes: &[(usize, u8)]) -> [u8; 16] {
    let mut bytes = RGB565;
    for (place, byte) in changes {
        if let Some(old) = bytes.get_mut(*place) {
            *old = *byte;
        }
    }
    bytes
}

#[test]
fn the_formats_with_a_name_have_their_bytes(rt: HostRuntime) {
    for (format, bytes) in [
        (Format::rgb888(), RGB888),
        (Format::rgb565(), RGB565),
        (Format::bgr233(), BGR233),
        (Format::rgb101010(), RGB101010),
    ] {
        assert_eq!(rt; Format::read(&bytes), Ok(format));
        assert_eq!(rt; format.write(), bytes);
    }
}

#[test]
fn the_check_that_fails_is_reported(rt: HostRuntime) {
    for (place, byte, fault) in [
        (0, 0x18, FormatFault::BadBits),
        (1, 0x11, FormatFault::DepthTooLarge),
        (3, 0x00, FormatFault::NotTrueColour),
        (5, 0x1E, FormatFault::BadMax),
        (5, 0x00, FormatFault::BadMax),
        (10, 0x0C, FormatFault::ShiftTooLarge),
        (11, 0x04, FormatFault::FieldsOverlap),
    ] {
        let bytes = changed(&[(place, byte)]);
        assert_eq!(rt; Format::read(&bytes), Err(fault), "byte {place} is {byte}");
    }
}

#[test]
fn an_earlier_check_hides_a_later_one(rt: HostRuntime) {
    for (changes, fault) in [
        ([(0, 0x18), (3, 0x00)], FormatFault::BadBits),
        ([(1, 0x11), (3, 0x00)], FormatFault::DepthTooLarge),
        ([(3, 0x00), (5, 0x00)], FormatFault::NotTrueColour),
        ([(10, 0x0C), (9, 0x1E)], FormatFault::BadMax),
        ([(11, 0x04), (12, 0x0C)], FormatFault::ShiftTooLarge),
    ] {
        assert_eq!(rt; Format::read(&changed(&changes)), Err(fault));
    }
}

#[test]
fn what_no_check_names_is_taken(rt: HostRuntime) {
    let padded = changed(&[(13, 1), (14, 2), (15, 0xFF)]);
    assert_eq!(rt; Format::read(&padded), Ok(Format::rgb565()), "padding");
    let flag_of_two = changed(&[(3, 2)]);
    assert_eq!(rt;
        Format::read(&flag_of_two),
        Ok(Format::rgb565()),
        "true-colour-flag of 2"
    );
    let no_depth = changed(&[(1, 0)]);
    assert_eq!(rt;
        Format::read(&no_depth),
        Ok(Format {
            depth: 0,
            ..Format::rgb565()
        }),
        "depth 0"
    );
    let big_endian = changed(&[(2, 0x80)]);
    assert_eq!(rt;
        Format::read(&big_endian),
        Ok(Format {
            big_endian: true,
            ..Format::rgb565()
        }),
        "big-endian-flag of 128"
    );
}

#[test]
fn the_narrowest_and_the_widest_field_are_read(rt: HostRuntime) {
    // 32 bits: 16 of red at the bottom, one of green above them, one of blue at the top.
    let bytes = [
        0x20, 0x12, 1, 1, 0xFF, 0xFF, 0x00, 0x01, 0x00, 0x01, 0, 16, 31, 0, 0, 0,
    ];
    let format = Format {
        bits_per_pixel: 32,
        depth: 18,
        big_endian: true,
        red: Channel {
            width: 16,
            shift: 0,
        },
        green: Channel {
            width: 1,
            shift: 16,
        },
        blue: Channel {
            width: 1,
            shift: 31,
        },
    };
    assert_eq!(rt; Format::read(&bytes), Ok(format));
    assert_eq!(rt; format.write(), bytes);
    assert_eq!(rt;
        format.pack(Colour {
            r: 0x1234,
            g: 32_767,
            b: 32_768
        }),
        0x8000_1234
    );
}
