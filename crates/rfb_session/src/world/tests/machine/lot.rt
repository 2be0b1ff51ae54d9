//! Events drawn by lot, the same for the same seed.

ghost use Rattle.std.specs.Prelude.{◌≤◌};

use super::{encodings_of, format_of};
use crate::event::Event;
use rfb_picture::Rect;
use rfb_pixel::Colour;
use std::alloc::{AllocError, Global};

/// What is drawn next.
#[derive(Drop)]
pub(crate) struct Lot {
    state: u64,
}

impl Lot {
    pub(crate) fn new(seed: u64) -> Lot {
        Lot { state: seed }
    }

    /// A number up to `most`.
    pub(crate) fn up_to(&mut self, most: u16) -> u16
        ensures { result ≤ most }
    {
        self.state = self
            .state
            .wrapping_mul(6_364_136_223_846_793_005)
            .wrapping_add(1_442_695_040_888_963_407);
        ((self.state >> 33) % (u64::from(most) + 1)) as u16
    }

    /// An event at a screen of that size.
    pub(crate) fn event(
        &mut self,
        alloc: Global,
        width: u16,
        height: u16,
    ) -> Result<Event, AllocError> {
        let rect = self.rect(width, height);
        match self.up_to(31) {
            0..=7 => Ok(Event::ToServer(self.count())),
            8..=15 => Ok(Event::ToViewer(self.count())),
            16..=20 => Ok(Event::Request(self.up_to(2) > 0, rect)),
            21..=23 => Ok(Event::Compose),
            24..=26 => Ok(self.drawing(rect)),
            27 => self.row(alloc, rect),
            28 => self.text(alloc),
            _ => Ok(self.call()),
        }
    }

    // Most of all the screen, or a part of it; some leave it by one place.
    fn rect(&mut self, width: u16, height: u16) -> Rect {
        if self.up_to(3) == 0 {
            return Rect {
                x: 0,
                y: 0,
                w: width,
                h: height,
            };
        }
        let x = self.up_to(width);
        let y = self.up_to(height);
        let past = u16::from(self.up_to(7) == 0);
        let w = self.up_to(width.saturating_sub(x)).saturating_add(past);
        let h = self.up_to(height.saturating_sub(y));
        Rect { x, y, w, h }
    }

    // A colour, mostly one of four. The last two are the same pixel in each format.
    fn colour(&mut self) -> Colour {
        match self.up_to(7) {
            0 => Colour {
                r: self.up_to(65_535),
                g: self.up_to(65_535),
                b: self.up_to(65_535),
            },
            1..=3 => super::ORANGE,
            4..=5 => Colour {
                r: 0,
                g: 10_280,
                b: 65_535,
            },
            6 => Colour { r: 32, g: 0, b: 32 },
            _ => super::BLACK,
        }
    }

    // How many bytes are delivered: few, or all.
    fn count(&mut self) -> u32 {
        match self.up_to(3) {
            0 => u32::from(self.up_to(3)),
            1 => u32::from(self.up_to(30)),
            _ => super::ALL,
        }
    }

    fn byte(&mut self) -> u8 {
        self.up_to(255) as u8
    }

    fn drawing(&mut self, rect: Rect) -> Event {
        let (x, y) = (self.up_to(4), self.up_to(2));
        match self.up_to(3) {
            0 => Event::Copy(rect, x, y),
            1 => Event::Hint(rect, x, y),
            _ => Event::Fill(rect, self.colour()),
        }
    }

    fn row(&mut self, alloc: Global, rect: Rect) -> Result<Event, AllocError> {
        let mut row = Vec::new(alloc);
        for _ in 0..rect.w {
            row.push(self.colour())?;
        }
        Ok(Event::Put(rect.x, rect.y, row))
    }

    fn text(&mut self, alloc: Global) -> Result<Event, AllocError> {
        let mut text = Vec::new(alloc);
        text.resize(usize::from(self.up_to(40)), b'A')?;
        Ok(Event::CutText(text))
    }

    fn call(&mut self) -> Event {
        match self.up_to(3) {
            0 => Event::SetFormat(format_of(self.up_to(2))),
            1 => Event::SetEncodings(encodings_of(self.up_to(27))),
            2 => Event::Key(self.up_to(1) == 0, 97),
            _ => Event::Pointer(self.byte(), self.up_to(9), 3),
        }
    }
}
