//! A subrectangle, RFC 6143 section 7.7.3.

use rfb_picture::Rect;

/// Places of one pixel. `rect` is in places of the rectangle that it is a part of, and `pixel` is a
/// pixel value of the format in force.
#[derive(Clone, Copy, Debug, PartialEq, Eq)]
pub struct Subrect {
    pub pixel: u32,
    pub rect: Rect,
}

impl Default for Subrect {
    // One without a place, which fills what a fixed list has not used yet.
    fn default() -> Subrect {
        Subrect {
            pixel: 0,
            rect: Rect {
                x: 0,
                y: 0,
                w: 0,
                h: 0,
            },
        }
    }
}
