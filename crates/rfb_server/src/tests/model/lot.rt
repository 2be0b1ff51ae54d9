//! Numbers drawn by lot, the same for the same seed.

use rfb_picture::Rect;
use rfb_pixel::Colour;

/// What is drawn next.
#[derive(Drop)]
pub(super) struct Lot {
    state: u64,
}

impl Lot {
    pub(super) fn new(seed: u64) -> Lot {
        Lot { state: seed }
    }

    /// A number up to `most`.
    pub(super) fn up_to(&mut self, most: u16) -> u16 {
        let factor = 6_364_136_223_846_793_005u64;
        self.state = self
            .state
            .wrapping_mul(factor)
            .wrapping_add(1_442_695_040_888_963_407);
        ((self.state >> 33) % (u64::from(most) + 1)) as u16
    }

    /// One time in `times`.
    pub(super) fn once_in(&mut self, times: u16) -> bool {
        self.up_to(times.saturating_sub(1)) == 0
    }

    /// A rectangle on a screen of that size, now and then an empty one, and now and then all.
    pub(super) fn rect(&mut self, width: u16, height: u16) -> Rect {
        if self.once_in(6) {
            return Rect {
                x: 0,
                y: 0,
                w: width,
                h: height,
            };
        }
        let x = self.up_to(width);
        let y = self.up_to(height);
        let w = self.up_to(width.saturating_sub(x));
        let h = self.up_to(height.saturating_sub(y));
        Rect { x, y, w, h }
    }

    /// A colour, mostly one of four; the last two are the same pixel in each format.
    pub(super) fn colour(&mut self) -> Colour {
        match self.up_to(7) {
            0 => Colour {
                r: self.up_to(65_535),
                g: self.up_to(65_535),
                b: self.up_to(65_535),
            },
            1..=3 => Colour {
                r: 65_535,
                g: 32_896,
                b: 257,
            },
            4..=5 => Colour {
                r: 0,
                g: 10_280,
                b: 65_535,
            },
            6 => Colour { r: 32, g: 0, b: 32 },
            _ => Colour { r: 0, g: 0, b: 0 },
        }
    }
}
