//! What an event is for the plain machine, and what a message does once its last byte was moved.

use super::is_raw;
use super::plain::Plain;
use super::queue::Act;
use crate::event::Event;
use crate::told::Refused;
use rfb_hello::Version;
use std::alloc::AllocError;

// How many bytes a message with `count` encodings has.
fn list_size(count: usize) -> usize {
    count.saturating_mul(4).saturating_add(4)
}

impl Plain {
    /// A drawing or a call happens; how it is refused.
    pub(crate) fn refusal(&mut self, event: &Event) -> Result<Option<Refused>, AllocError> {
        match event {
            Event::Fill(rect, colour) => Ok(self.fill(*rect, *colour)),
            Event::Put(x, y, row) => Ok(self.put(*x, *y, row)),
            Event::Copy(rect, x, y) => self.copy(*rect, *x, *y),
            Event::Hint(rect, x, y) => Ok(self.hint(*rect, *x, *y)),
            Event::Key(_, _) => self.call(self.call_refusal(), 8, Act::Tells),
            Event::Pointer(_, _, _) => self.call(self.call_refusal(), 6, Act::Tells),
            Event::CutText(text) => self.call(
                self.call_refusal(),
                text.len().saturating_add(8),
                Act::Tells,
            ),
            Event::SetEncodings(encodings) => {
                self.is_raw = self.is_raw && (!self.is_viewing || is_raw(encodings));
                self.call(self.call_refusal(), list_size(encodings.len()), Act::Tells)
            }
            Event::SetFormat(format) => {
                let refusal = self.format_refusal();
                if refusal.is_none() {
                    self.format = *format;
                }
                self.call(refusal, 20, Act::SetsFormat(*format))
            }
            Event::Request(incremental, rect) => {
                let refusal = self.request_refusal(*rect);
                self.is_outstanding = self.is_outstanding || refusal.is_none();
                self.call(refusal, 10, Act::Asks(*incremental, *rect))
            }
            Event::Compose | Event::ToServer(_) | Event::ToViewer(_) => Ok(None),
        }
    }

    /// Whether an update may be composed, or not composed, as was reported. It has `size` bytes.
    pub(crate) fn compose(
        &mut self,
        event: &Event,
        composed: bool,
        size: usize,
    ) -> Result<bool, AllocError> {
        if !matches!(event, Event::Compose) {
            return Ok(!composed);
        }
        let may = if self.is_serving {
            self.places.may_compose(self.server_format, composed)
        } else {
            !composed
        };
        if composed {
            self.is_updating = true;
            self.places.compose(self.server_format);
            self.to_viewer.push(size, Act::Updates)?;
        }
        Ok(may)
    }

    /// How many bytes a delivery moves; the messages that are whole then act.
    pub(crate) fn deliver(&mut self, event: &Event) -> Result<u32, AllocError> {
        match event {
            Event::ToServer(count) => {
                let moved = self.to_server.advance(*count);
                for _ in 0..self.to_server.count() {
                    if let Some(act) = self.to_server.take() {
                        self.serve(act)?;
                    }
                }
                Ok(moved)
            }
            Event::ToViewer(count) => {
                let moved = self.to_viewer.advance(*count);
                for _ in 0..self.to_viewer.count() {
                    if let Some(act) = self.to_viewer.take() {
                        self.view(act)?;
                    }
                }
                Ok(moved)
            }
            _ => Ok(0),
        }
    }

    // A message has reached the server.
    fn serve(&mut self, act: Act) -> Result<(), AllocError> {
        match (act, self.version) {
            (Act::Greets, Version::V33) => self.to_viewer.push(4, Act::Secures),
            (Act::Greets, _) => self.to_viewer.push(2, Act::Secures),
            (Act::Chooses, Version::V38) => self.to_viewer.push(4, Act::Accepts),
            (Act::Joins, _) => {
                self.is_serving = true;
                self.to_viewer.push(24, Act::Starts)?;
                // Its name has three letters.
                self.to_viewer.push(3, Act::Names)
            }
            (Act::SetsFormat(format), _) => {
                self.server_format = format;
                self.places.forget();
                Ok(())
            }
            (Act::Asks(incremental, rect), _) => {
                self.places.ask(incremental, rect);
                Ok(())
            }
            _ => Ok(()),
        }
    }

    // A message has reached the viewer.
    fn view(&mut self, act: Act) -> Result<(), AllocError> {
        match (act, self.version) {
            (Act::Greets, _) => self.to_server.push(12, Act::Greets),
            (Act::Secures, Version::V33) | (Act::Accepts, _) => self.to_server.push(1, Act::Joins),
            (Act::Secures, Version::V37) => {
                self.to_server.push(1, Act::Chooses)?;
                self.to_server.push(1, Act::Joins)
            }
            (Act::Secures, Version::V38) => self.to_server.push(1, Act::Chooses),
            (Act::Starts, _) => {
                self.has_screen = true;
                Ok(())
            }
            (Act::Names, _) => {
                self.is_viewing = true;
                self.to_server.push(20, Act::SetsFormat(self.format))?;
                self.to_server.push(list_size(self.encodings), Act::Tells)
            }
            (Act::Updates, _) => {
                self.is_outstanding = false;
                self.has_ended = true;
                self.updates = self.updates.saturating_add(1);
                Ok(())
            }
            _ => Ok(()),
        }
    }
}
