//! Pixels and bytes of formats that viewers ask for, worked out by hand.

use super::*;

const ORANGE: Colour = Colour {
    r: 65_535,
    g: 32_896,
    b: 257,
};

#[test]
fn a_colour_has_the_pixel_of_its_format(rt: HostRuntime) {
    assert_eq!(rt; Colour::of_bytes(255, 128, 1), ORANGE);
    assert_eq!(rt; Format::rgb888().pack(ORANGE), 0x00FF_8001);
    assert_eq!(rt; Format::rgb565().pack(ORANGE), 0xFC00);
    assert_eq!(rt; Format::bgr233().pack(ORANGE), 0x27);
    assert_eq!(rt; Format::rgb101010().pack(ORANGE), 0x3FF8_0804);
}

#[test]
fn a_pixel_shows_the_nearest_colour(rt: HostRuntime) {
    for (format, pixel, seen) in [
        (Format::rgb888(), 0xAAFF_8001, (65_535, 32_896, 257)),
        (Format::rgb565(), 0xFC00, (65_535, 33_288, 0)),
        (Format::bgr233(), 0x27, (65_535, 37_449, 0)),
        (Format::rgb101010(), 0xFFF8_0804, (65_535, 32_928, 256)),
    ] {
        let colour = format.unpack(pixel);
        assert_eq!(rt; (colour.r, colour.g, colour.b), seen, "pixel {pixel}");
    }
}

#[test]
fn a_component_between_two_bytes_is_seen_as_the_nearer(rt: HostRuntime) {
    let format = Format::rgb888();
    let colour = Colour {
        r: 65_406,
        g: 128,
        b: 33_026,
    };
    let pixel = format.pack(colour);
    assert_eq!(rt; pixel, 0x00FE_0081);
    let seen = format.unpack(pixel);
    assert_eq!(rt; (seen.r, seen.g, seen.b), (65_278, 0, 33_153));
}

#[test]
fn a_pixel_of_rgb101010_has_its_lowest_byte_first(rt: HostRuntime) {
    let format = Format::rgb101010();
    let mut bytes = [0; 4];
    format.put(format.pack(ORANGE), &mut bytes);
    assert_eq!(rt; bytes, [0x04, 0x08, 0xF8, 0x3F]);
}

#[test]
fn a_pixel_of_rgb888_has_its_lowest_byte_first(rt: HostRuntime) {
    let format = Format::rgb888();
    let mut bytes = [0; 4];
    assert_eq!(rt; format.size(), 4);
    format.put(0x00FF_8001, &mut bytes);
    assert_eq!(rt; bytes, [0x01, 0x80, 0xFF, 0x00]);
    assert_eq!(rt; format.take(&bytes), 0x00FF_8001);
}

#[test]
fn a_row_of_colours_is_packed_in_order(rt: HostRuntime) {
    let colours = [
        Colour {
            r: 65_535,
            g: 0,
            b: 0,
        },
        ORANGE,
        Colour {
            r: 0,
            g: 0,
            b: 65_535,
        },
    ];
    let mut pixels = [9; 3];
    Format::rgb888().pack_row(&colours, &mut pixels);
    assert_eq!(rt; pixels, [0x00FF_0000, 0x00FF_8001, 0x0000_00FF]);
    Format::rgb565().pack_row(&colours, &mut pixels);
    assert_eq!(rt; pixels, [0xF800, 0xFC00, 0x001F]);
    Format::bgr233().pack_row(&colours, &mut pixels);
    assert_eq!(rt; pixels, [0x07, 0x27, 0xC0]);
    Format::rgb101010().pack_row(&colours, &mut pixels);
    assert_eq!(rt; pixels, [0x3FF0_0000, 0x3FF8_0804, 0x0000_03FF]);
    Format::rgb888().pack_row(&[], &mut pixels[..0]);
    assert_eq!(rt; pixels[0], 0x3FF0_0000, "a row of no colours");
}

mod rows;
mod spelling;
