//! Colours, with their components in formats, and places of a screen of three by two.

use rfb_picture::Rect;
use rfb_pixel::Colour;

pub(super) const BLACK: Colour = Colour { r: 0, g: 0, b: 0 };

// At rgb888 10, C8 and 64; at rgb565 2, 49 and 12.
pub(super) const GREEN: Colour = Colour {
    r: 4_112,
    g: 51_400,
    b: 25_700,
};

// At rgb888 FF, 80 and 08; at rgb565 31, 32 and 1.
pub(super) const ORANGE: Colour = Colour {
    r: 65_535,
    g: 32_896,
    b: 2_056,
};

// At rgb888 32, 11 and F0; at rgb565 6, 4 and 29.
pub(super) const VIOLET: Colour = Colour {
    r: 12_850,
    g: 4_369,
    b: 61_680,
};

// A screen of three by two places, and two of its places.
pub(super) const WHOLE: Rect = Rect {
    x: 0,
    y: 0,
    w: 3,
    h: 2,
};

pub(super) const LAST: Rect = Rect {
    x: 2,
    y: 1,
    w: 1,
    h: 1,
};

pub(super) const SECOND: Rect = Rect {
    x: 1,
    y: 0,
    w: 1,
    h: 1,
};
