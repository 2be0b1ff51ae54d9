//! The plain machine: two ends and the messages in flight between them.

use super::is_raw;
use super::places::Places;
use super::queue::{Act, Queue};
use crate::told::Refused;
use arrayvec::ArrayVec;
use rfb_hello::Version;
use rfb_picture::{Picture, Rect};
use rfb_pixel::{Colour, Format};
use rfb_wire::Encoding;
use std::alloc::{AllocError, Global};

/// What both ends are made with: the lower of two versions, and the viewer's format and encodings.
#[derive(Drop)]
pub(crate) struct Making {
    pub(crate) width: u16,
    pub(crate) height: u16,
    pub(crate) version: Version,
    pub(crate) format: Format,
    pub(crate) encodings: ArrayVec<Encoding, 4>,
}

/// Both ends, with what is in flight between them.
#[derive(Drop)]
pub(crate) struct Plain {
    alloc: Global,
    pub(crate) width: u16,
    pub(crate) height: u16,
    pub(super) version: Version,
    // The viewer's format, and how many encodings it lists at first.
    pub(super) format: Format,
    pub(super) encodings: usize,
    // Whether no encoding but Raw was ever listed.
    pub(super) is_raw: bool,
    pub(crate) is_serving: bool,
    pub(super) has_screen: bool,
    pub(super) is_viewing: bool,
    pub(super) is_outstanding: bool,
    pub(super) server_format: Format,
    pub(crate) to_server: Queue,
    pub(crate) to_viewer: Queue,
    pub(crate) places: Places,
    // Whether an update is in flight, and whether the latest delivery ended one.
    pub(super) is_updating: bool,
    pub(crate) has_ended: bool,
    /// How many updates have arrived whole.
    pub(super) updates: u32,
}

// A drawing off the screen is refused.
fn outside_unless(inside: bool) -> Option<Refused> {
    if inside { None } else { Some(Refused::Outside) }
}

impl Plain {
    /// Two fresh ends: the server's greeting of twelve bytes is in flight.
    pub(crate) fn new(alloc: Global, making: &Making) -> Result<Plain, AllocError> {
        let mut to_viewer = Queue::new(alloc);
        to_viewer.push(12, Act::Greets)?;
        Ok(Plain {
            alloc,
            width: making.width,
            height: making.height,
            version: making.version,
            format: making.format,
            encodings: making.encodings.len(),
            is_raw: is_raw(&making.encodings),
            is_serving: false,
            has_screen: false,
            is_viewing: false,
            is_outstanding: false,
            server_format: Format::rgb888(),
            to_server: Queue::new(alloc),
            to_viewer,
            places: Places::new(alloc, making.width, making.height)?,
            is_updating: false,
            has_ended: false,
            updates: 0,
        })
    }

    // ---- drawings

    fn holds(&self, rect: Rect) -> bool {
        u32::from(rect.x) + u32::from(rect.w) <= u32::from(self.width)
            && u32::from(rect.y) + u32::from(rect.h) <= u32::from(self.height)
    }

    pub(super) fn holds_both(&self, rect: Rect, x: u16, y: u16) -> bool {
        self.holds(rect) && self.holds(Rect { x, y, ..rect })
    }

    pub(super) fn fill(&mut self, rect: Rect, colour: Colour) -> Option<Refused> {
        let inside = self.holds(rect);
        if inside {
            self.places.fill(rect, colour);
        }
        outside_unless(inside)
    }

    pub(super) fn put(&mut self, x: u16, y: u16, row: &[Colour]) -> Option<Refused> {
        let inside = row.len() <= 65535
            && self.holds(Rect {
                x,
                y,
                w: row.len().min(65535) as u16,
                h: 1,
            });
        if inside {
            self.places.put(x, y, row);
        }
        outside_unless(inside)
    }

    pub(super) fn copy(
        &mut self,
        rect: Rect,
        x: u16,
        y: u16,
    ) -> Result<Option<Refused>, AllocError> {
        let inside = self.holds_both(rect, x, y);
        if inside {
            self.places.copy(self.alloc, rect, x, y)?;
        }
        Ok(outside_unless(inside))
    }

    pub(super) fn hint(&self, rect: Rect, x: u16, y: u16) -> Option<Refused> {
        outside_unless(self.holds_both(rect, x, y))
    }

    // ---- calls

    /// A message joins those to the server, where the call is not refused.
    pub(super) fn call(
        &mut self,
        refusal: Option<Refused>,
        size: usize,
        act: Act,
    ) -> Result<Option<Refused>, AllocError> {
        if refusal.is_none() {
            self.to_server.push(size, act)?;
        }
        Ok(refusal)
    }

    /// How a call is refused that waits for the handshake alone.
    pub(super) fn call_refusal(&self) -> Option<Refused> {
        if self.is_viewing {
            None
        } else {
            Some(Refused::NotReady)
        }
    }

    /// How a format is refused.
    pub(super) fn format_refusal(&self) -> Option<Refused> {
        if self.is_viewing && self.is_outstanding {
            Some(Refused::Busy)
        } else {
            self.call_refusal()
        }
    }

    /// How a request is refused.
    pub(super) fn request_refusal(&self, rect: Rect) -> Option<Refused> {
        let has_place = rect.w > 0 && rect.h > 0;
        match self.format_refusal() {
            None if !has_place || !self.holds(rect) => Some(Refused::AreaOutside),
            refusal => refusal,
        }
    }

    // ---- what is shown

    /// Whether a picture is what may be shown now. Between updates it stays; in one that may be Raw
    /// alone, places change one by one.
    pub(crate) fn shows(&mut self, picture: Option<&Picture<Colour>>) -> bool {
        let Some(picture) = picture else {
            return !self.has_screen;
        };
        if self.has_ended {
            self.has_ended = false;
            self.is_updating = false;
            return self.places.end_update(picture);
        }
        self.has_screen
            && picture.width() == self.width
            && picture.height() == self.height
            && (self.is_updating && !self.is_raw
                || self.places.are_shown(picture, self.is_updating))
    }
}
