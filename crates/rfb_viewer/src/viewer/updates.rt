//! What a viewer takes of an update's rectangles: their heads and their data.

ghost use Rattle.std.specs.Prelude.{◌≡◌, ◌<◌, ◌≤◌, ℕ, length, IfSome, None};
ghost use Rattle.arrayvec.specs.ArrayVec.{ArrayVec as Items};
ghost use Rattle.rfb_pixel.specs.Format.{size_of};
ghost use Rattle.rfb_wire.specs.declared.encoding.Encoding.TheVariants.{Raw};
ghost use Rattle.rfb_codec.specs.Raw.{raw_length};
ghost use Rattle.rfb_codec.specs.UnderWay.{UnderWay};

use crate::event::ViewerEvent;
use crate::fault::ViewerFault;
use crate::viewer::Viewer;
use crate::viewer::after::{end_of, go_on};
use crate::viewer::damage::join;
use crate::viewer::messages::whole_update;
use crate::viewer::moved::keep_move;
use crate::viewer::progress::{Failure, Progress, RECT_HEAD_PART, Request};
use rfb_codec::{Painter, paint_pixels};
use rfb_hello::Fed;
use rfb_pixel::Format;
use rfb_wire::pieces::gather;
use rfb_wire::{Encoding, Read, RectHead};

// How many bytes a rectangle's head has, RFC 6143 section 7.6.1.
const RECT_HEAD_SIZE: usize = 12;

/// What was taken of a rectangle's data.
#[derive(Clone, Copy, Debug)]
pub(crate) struct Taken {
    /// How many bytes.
    pub(crate) used: usize,
    /// Whether they end the update.
    pub(crate) ends_update: bool,
}

impl Viewer {
    ghost use Rattle.rfb_viewer.specs.declared.viewer.progress.Progress.{Progress};
    ghost use Rattle.rfb_viewer.specs.steps.StepPromises.{Steps, StepsInData, TakesUpdate};

    // Takes an update of one rectangle of Raw, where all of it is there and nothing came of it yet:
    // how many bytes it has. The next bytes are of a message's head then, as these were, so how far
    // they have come is not written. Else it does nothing.
    pub(super) fn take_update(&mut self, bytes: &[u8]) -> Option<usize>
        ensures whole { IfSome result (λ used. TakesUpdate self.old bytes.now used self.new) }
        ensures kept { result ≡ None → self.new ≡ self.old }
    {
        let Progress::Head(part) = &self.progress else {
            return None;
        };
        let Some((1, front)) = whole_update(part, bytes) else {
            return None;
        };
        let Some(picture) = &self.picture else {
            return None;
        };
        let (width, height) = (picture.width(), picture.height());
        let rest = &bytes[front..];
        let Read::Got(head, middle) = RectHead::read(rest, width, height) else {
            return None;
        };
        let data = &rest[middle..];
        let Some(size) = whole_size(head, self.format, data) else {
            return None;
        };
        let Some(picture) = &mut self.picture else {
            unreachable!()
        };
        paint_pixels(self.format, head.rect, &data[..size], picture);
        join(&mut self.damage, head.rect, picture);
        self.request = Request::Answered;
        Some(front + middle + size)
    }

    // Takes bytes of a rectangle's head, and after it those of its data.
    pub(super) fn take_rect_head(&mut self, bytes: &[u8]) -> Result<Fed<ViewerEvent>, Failure>
        requires some { 0 < length bytes.now }
        requires head { (more : ℕ) × (part : Items ℕ)
            × (self.old.progress ≡ Progress.RectHead more part) }
        ensures { Steps self.old bytes.now result self.new }
    {
        let Progress::RectHead { more, head } = &mut self.progress else {
            unreachable!()
        };
        let (front, whole) = gather::<RECT_HEAD_PART, RECT_HEAD_SIZE>(head, bytes);
        let Some(whole) = whole else {
            return Ok(Fed {
                used: front,
                event: None,
            });
        };
        let more = *more;
        let Some(picture) = &mut self.picture else {
            unreachable!()
        };
        let (width, height) = (picture.width(), picture.height());
        let head = match RectHead::read(whole.as_slice(), width, height) {
            Read::Got(head, _) => head,
            Read::Bad(fault) => {
                let fault = self.progress.fail(ViewerFault::of_wire(fault));
                return Err(Failure { used: front, fault });
            }
            Read::More(_) => unreachable!(),
        };
        // Raw whose data are all there is painted at once, and needs no painter.
        let data = &bytes[front..];
        if let Some(size) = whole_size(head, self.format, data) {
            paint_pixels(self.format, head.rect, &data[..size], picture);
            join(&mut self.damage, head.rect, picture);
            let ends_update = go_on(&mut self.progress, &mut self.request, more);
            return Ok(Fed {
                used: front + size,
                event: end_of(ends_update),
            });
        }
        self.progress = Progress::Data {
            more,
            painter: Painter::new(head.rect, head.encoding, self.format),
        };
        let Progress::Data { painter, .. } = &mut self.progress else {
            unreachable!()
        };
        // A rectangle may have no data, and is then whole with its head.
        let painted = match painter.take(data, picture) {
            Ok(painted) => painted,
            Err(flaw) => {
                join(&mut self.damage, painter.rect(), picture);
                return Err(Failure {
                    used: front + flaw.used,
                    fault: self.progress.fail(ViewerFault::of_paint(flaw.fault)),
                });
            }
        };
        let used = front + painted.used;
        if !painted.done {
            return Ok(Fed { used, event: None });
        }
        join(&mut self.damage, painter.rect(), picture);
        keep_move(&mut self.moved, painter);
        let ends_update = go_on(&mut self.progress, &mut self.request, more);
        Ok(Fed {
            used,
            event: end_of(ends_update),
        })
    }

    // Takes bytes of a rectangle's data, and paints them piece by piece.
    pub(super) fn take_data(&mut self, bytes: &[u8]) -> Result<Taken, Failure>
        requires some { 0 < length bytes.now }
        requires data { (more : ℕ) × (painter : UnderWay)
            × (self.old.progress ≡ Progress.Data more painter) }
        ensures { StepsInData self.old bytes.now result self.new }
    {
        let Progress::Data { more, painter } = &mut self.progress else {
            unreachable!()
        };
        let Some(picture) = &mut self.picture else {
            unreachable!()
        };
        let more = *more;
        let painted = match painter.take(bytes, picture) {
            Ok(painted) => painted,
            Err(flaw) => {
                join(&mut self.damage, painter.rect(), picture);
                return Err(Failure {
                    used: flaw.used,
                    fault: self.progress.fail(ViewerFault::of_paint(flaw.fault)),
                });
            }
        };
        let used = painted.used;
        if !painted.done {
            return Ok(Taken {
                used,
                ends_update: false,
            });
        }
        join(&mut self.damage, painter.rect(), picture);
        keep_move(&mut self.moved, painter);
        let ends_update = go_on(&mut self.progress, &mut self.request, more);
        Ok(Taken { used, ends_update })
    }
}

// How many bytes the data of a rectangle of Raw have, if all of them are there.
fn whole_size(head: RectHead, format: Format, bytes: &[u8]) -> Option<usize>
    ensures raw { IfSome result (λ size. head.encoding ≡ Raw) }
    ensures size { IfSome result (λ size. size ≡ raw_length format head.rect.w head.rect.h) }
    ensures some { IfSome result (λ size. 0 < size_of format) }
    ensures within { IfSome result (λ size. size ≤ length bytes.now) }
{
    if head.encoding != Encoding::Raw {
        return None;
    }
    let size = usize::from(head.rect.h) * usize::from(head.rect.w) * format.size();
    if bytes.len() < size {
        return None;
    }
    Some(size)
}
