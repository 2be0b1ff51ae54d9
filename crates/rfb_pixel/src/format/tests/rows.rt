//! Rows of each length, beside their pixels one by one.

ghost use Rattle.std.specs.Prelude.{◌≤◌, length};

use super::*;

const LONGEST: usize = 200;

// Colours whose components are all of their own.
fn colours() -> [Colour; LONGEST] {
    let mut colours = [Colour { r: 0, g: 0, b: 0 }; LONGEST];
    let mut value: u16 = 1;
    for colour in colours.iter_mut() {
        let r = value.wrapping_mul(25_173).wrapping_add(13_849);
        let g = r.wrapping_mul(25_173).wrapping_add(13_849);
        value = g.wrapping_mul(25_173).wrapping_add(13_849);
        *colour = Colour { r, g, b: value };
    }
    colours
}

// Whether each colour of a row has its own pixel.
fn packs_each(format: Format, colours: &[Colour]) -> bool
    requires { length colours.now ≤ 200 }
{
    let mut pixels = [7; LONGEST];
    let row = &mut pixels[..colours.len()];
    format.pack_row(colours, row);
    for i in 0..colours.len() {
        if row[i] != format.pack(colours[i]) {
            return false;
        }
    }
    true
}

// Whether each pixel of a row of `len` shows its own colour.
fn unpacks_each(format: Format, bytes: &[u8; 4 * LONGEST], len: usize) -> bool
    requires { len ≤ 200 }
{
    let mut colours = [Colour { r: 7, g: 7, b: 7 }; LONGEST];
    let size = format.size();
    format.unpack_row(&bytes[..len * size], &mut colours[..len]);
    for i in 0..len {
        if colours[i] != format.unpack(format.take(&bytes[i * size..i * size + size])) {
            return false;
        }
    }
    true
}

const FORMATS: usize = 4;

fn formats() -> [Format; FORMATS] {
    [
        Format::rgb888(),
        Format::rgb565(),
        Format::bgr233(),
        Format::rgb101010(),
    ]
}

#[test]
fn rows_of_each_length_have_the_pixels_of_their_colours(rt: HostRuntime) {
    let colours = colours();
    for format in formats() {
        for len in 0..=LONGEST {
            let packed = packs_each(format, &colours[..len]);
            assert!(rt; packed, "{len} colours");
        }
    }
}

#[test]
fn rows_of_each_length_show_the_colours_of_their_pixels(rt: HostRuntime) {
    let mut bytes = [0; 4 * LONGEST];
    let mut value: u8 = 1;
    for byte in bytes.iter_mut() {
        value = value.wrapping_mul(141).wrapping_add(97);
        *byte = value;
    }
    for format in formats() {
        for len in 0..=LONGEST {
            let shown = unpacks_each(format, &bytes, len);
            assert!(rt; shown, "{len} pixels");
        }
    }
}

// Whether sixteen pixels of rgb888, blue first, show the colours of their bytes.
fn shows_sixteen() -> bool {
    let mut bytes = [0u8; 64];
    let mut value: u8 = 11;
    for byte in bytes.iter_mut() {
        value = value.wrapping_add(37);
        *byte = value;
    }
    let mut colours = [Colour { r: 7, g: 7, b: 7 }; 16];
    Format::unpack_sixteen(&bytes, &mut colours);
    for k in 0..16 {
        let colour = colours[k];
        if colour.b != wide(bytes[4 * k])
            || colour.g != wide(bytes[4 * k + 1])
            || colour.r != wide(bytes[4 * k + 2])
        {
            return false;
        }
    }
    true
}

fn wide(byte: u8) -> u16 {
    u16::from(byte) * 257
}

#[test]
fn sixteen_pixels_show_the_colours_of_their_bytes(rt: HostRuntime) {
    assert!(rt; shows_sixteen());
}
