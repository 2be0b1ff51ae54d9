//! A plain screen, what is asked of it, and what the viewer has of it.

use rfb_picture::{Picture, Rect};
use rfb_pixel::{Colour, Format};
use std::alloc::{AllocError, Global};

/// Whether the server knows what the viewer has at a place. The machine leaves open what is sent of
/// places that were not asked for.
#[derive(Clone, Copy, PartialEq, Eq)]
pub(super) enum Known {
    Yes,
    No,
    Perhaps,
}

/// One place: its colour on the screen, and the rest of what is said of it.
#[derive(Clone, Copy)]
pub(super) struct Place {
    x: u16,
    y: u16,
    screen: Colour,
    asked: bool,
    whole: bool,
    known: Known,
    // What the viewer showed there when nothing was in flight to it.
    shown: Colour,
    // What it is to show there of an update in flight, and whether it was asked for.
    due: Colour,
    answered: bool,
}

/// All places of a screen.
#[derive(Drop)]
pub(crate) struct Places {
    list: Vec<Place>,
}

const BLACK: Colour = Colour { r: 0, g: 0, b: 0 };

// Whether the rectangle has that place.
fn has(rect: Rect, x: u16, y: u16) -> bool {
    rect.x <= x
        && rect.y <= y
        && x.saturating_sub(rect.x) < rect.w
        && y.saturating_sub(rect.y) < rect.h
}

fn black_at(x: u16, y: u16) -> Place {
    Place {
        x,
        y,
        screen: BLACK,
        asked: false,
        whole: false,
        known: Known::No,
        shown: BLACK,
        due: BLACK,
        answered: false,
    }
}

// A colour as a format shows it.
fn seen(format: Format, colour: Colour) -> Colour {
    format.unpack(format.pack(colour))
}

impl Place {
    // Whether it is sent of any record that the machine allows here; or of none of them.
    fn must_be_sent(&self, format: Format) -> bool {
        let other = seen(format, self.screen) != self.shown;
        self.asked && (self.whole || other || self.known == Known::No)
    }

    fn may_be_sent(&self, format: Format) -> bool {
        self.must_be_sent(format) || self.asked && self.known == Known::Perhaps
    }

    // An update is composed.
    fn compose(&mut self, format: Format) {
        self.due = seen(format, self.screen);
        self.answered = self.asked;
        self.known = match (self.asked, self.known) {
            (true, _) | (false, Known::Yes) => Known::Yes,
            (false, _) => Known::Perhaps,
        };
        self.asked = false;
        self.whole = false;
    }

    // Whether it may show that after a whole update.
    fn may_show(&self, colour: Colour) -> bool {
        if self.answered {
            return colour == self.due;
        }
        self.known != Known::Yes || colour == self.shown || colour == self.due
    }
}

impl Places {
    pub(super) fn new(alloc: Global, width: u16, height: u16) -> Result<Places, AllocError> {
        let mut list = Vec::new(alloc);
        for y in 0..height {
            for x in 0..width {
                list.push(black_at(x, y))?;
            }
        }
        Ok(Places { list })
    }

    pub(crate) fn copied(&self, alloc: Global) -> Result<Places, AllocError> {
        Ok(Places {
            list: self.list.as_slice().to_vec(alloc)?,
        })
    }

    pub(super) fn fill(&mut self, rect: Rect, colour: Colour) {
        for place in &mut self.list {
            if has(rect, place.x, place.y) {
                place.screen = colour;
            }
        }
    }

    /// A part of a row, from that place on.
    pub(super) fn put(&mut self, x: u16, y: u16, row: &[Colour]) {
        for place in &mut self.list {
            if place.y == y && place.x >= x {
                let index = usize::from(place.x.saturating_sub(x));
                place.screen = *row.get(index).unwrap_or(&place.screen);
            }
        }
    }

    // The colours of the screen.
    fn colour_at(&self, x: u16, y: u16) -> Colour {
        let mut colour = BLACK;
        for place in &self.list {
            if place.x == x && place.y == y {
                colour = place.screen;
            }
        }
        colour
    }

    /// What the screen has at the source before, it has at the rectangle then.
    pub(super) fn copy(
        &mut self,
        alloc: Global,
        rect: Rect,
        sx: u16,
        sy: u16,
    ) -> Result<(), AllocError> {
        let before = self.copied(alloc)?;
        for place in &mut self.list {
            if has(rect, place.x, place.y) {
                let x = sx.saturating_add(place.x.saturating_sub(rect.x));
                let y = sy.saturating_add(place.y.saturating_sub(rect.y));
                place.screen = before.colour_at(x, y);
            }
        }
        Ok(())
    }

    pub(super) fn ask(&mut self, incremental: bool, rect: Rect) {
        for place in &mut self.list {
            if has(rect, place.x, place.y) {
                place.asked = true;
                place.whole = place.whole || !incremental;
            }
        }
    }

    /// Nothing is known any more: the format has changed.
    pub(super) fn forget(&mut self) {
        for place in &mut self.list {
            place.known = Known::No;
        }
    }

    /// Whether that is what is composed, or not composed.
    pub(super) fn may_compose(&self, format: Format, composed: bool) -> bool {
        let (mut must, mut may) = (false, false);
        for place in &self.list {
            must = must || place.must_be_sent(format);
            may = may || place.may_be_sent(format);
        }
        if composed { may } else { !must }
    }

    pub(super) fn compose(&mut self, format: Format) {
        for place in &mut self.list {
            place.compose(format);
        }
    }

    /// Whether a picture shows what it may after a whole update. That is noted.
    pub(super) fn end_update(&mut self, picture: &Picture<Colour>) -> bool {
        let mut right = true;
        for place in &mut self.list {
            let colour = shown_at(picture, place.x, place.y);
            right = right && place.may_show(colour);
            place.shown = colour;
        }
        right
    }

    /// Whether a picture shows what it showed; or, in an update of Raw, what it showed or is to
    /// show.
    pub(super) fn are_shown(&self, picture: &Picture<Colour>, in_update: bool) -> bool {
        let mut right = true;
        for place in &self.list {
            let colour = shown_at(picture, place.x, place.y);
            right = right && (colour == place.shown || in_update && colour == place.due);
        }
        right
    }
}

fn shown_at(picture: &Picture<Colour>, x: u16, y: u16) -> Colour {
    if x < picture.width() && y < picture.height() {
        picture.at(x, y)
    } else {
        BLACK
    }
}
