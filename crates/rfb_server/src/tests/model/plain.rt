//! A plain model of what a server knows of its viewer, place by place.

use rfb_picture::{Picture, Rect};
use rfb_pixel::{Colour, Format};
use rfb_wire::Encoding;
use std::alloc::{AllocError, Global};

/// The pixel that the viewer has at a place, where it is known; and whether the place is asked for.
#[derive(Clone, Copy)]
pub(super) struct Place {
    pub(super) known: Option<u32>,
    pub(super) asked: bool,
    pub(super) whole: bool,
}

const FRESH: Place = Place {
    known: None,
    asked: false,
    whole: false,
};

/// All places, row by row; the format; the encoding of pixels, and whether CopyRect is listed.
#[derive(Drop)]
pub(super) struct Plain {
    pub(super) width: u16,
    pub(super) height: u16,
    pub(super) places: Vec<Place>,
    pub(super) format: Format,
    pub(super) encoding: Encoding,
    pub(super) copies: bool,
}

impl Plain {
    pub(super) fn new(alloc: Global, width: u16, height: u16) -> Result<Plain, AllocError> {
        let mut places = Vec::new(alloc);
        places.resize(usize::from(width) * usize::from(height), FRESH)?;
        Ok(Plain {
            width,
            height,
            places,
            format: Format::rgb888(),
            encoding: Encoding::Raw,
            copies: false,
        })
    }

    fn index(&self, x: u16, y: u16) -> usize {
        usize::from(y) * usize::from(self.width) + usize::from(x)
    }

    /// The place at column `x` of row `y`.
    pub(super) fn at(&self, x: u16, y: u16) -> Place {
        self.places.get(self.index(x, y)).copied().unwrap_or(FRESH)
    }

    pub(super) fn set(&mut self, x: u16, y: u16, place: Place) {
        let index = self.index(x, y);
        if let Some(here) = self.places.get_mut(index) {
            *here = place;
        }
    }

    fn ask_at(&mut self, x: u16, y: u16, whole: bool) {
        if x < self.width && y < self.height {
            let mut place = self.at(x, y);
            place.asked = true;
            place.whole = place.whole || whole;
            self.set(x, y, place);
        }
    }

    /// A request: every place of the rectangle that the screen has is asked for.
    pub(super) fn ask(&mut self, rect: Rect, whole: bool) {
        for y in rect.y..rect.y.saturating_add(rect.h) {
            for x in rect.x..rect.x.saturating_add(rect.w) {
                self.ask_at(x, y, whole);
            }
        }
    }

    /// After an update nothing is asked for.
    pub(super) fn ask_nothing(&mut self) {
        for place in self.places.iter_mut() {
            place.asked = false;
            place.whole = false;
        }
    }

    /// Another format: nothing is known any more.
    pub(super) fn set_format(&mut self, format: Format) {
        self.format = format;
        for place in self.places.iter_mut() {
            place.known = None;
        }
    }

    /// The pixel that the viewer is to have at a place of the screen.
    pub(super) fn wanted(&self, screen: &Picture<Colour>, x: u16, y: u16) -> Option<u32> {
        if x < screen.width() && y < screen.height() {
            Some(self.format.pack(screen.at(x, y)))
        } else {
            None
        }
    }

    /// Whether the place needs sending: it is asked, and it is whole, unknown, or another pixel.
    pub(super) fn needs(&self, screen: &Picture<Colour>, x: u16, y: u16) -> bool {
        let place = self.at(x, y);
        place.asked && (place.whole || place.known != self.wanted(screen, x, y))
    }

    /// The viewer has what the rectangle of the screen shows.
    pub(super) fn know(&mut self, screen: &Picture<Colour>, rect: Rect) {
        for y in rect.y..rect.y.saturating_add(rect.h) {
            for x in rect.x..rect.x.saturating_add(rect.w) {
                let mut place = self.at(x, y);
                place.known = self.wanted(screen, x, y);
                self.set(x, y, place);
            }
        }
    }
}
