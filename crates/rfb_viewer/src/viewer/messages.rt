//! What a viewer takes of messages: their heads, colours and texts.

ghost use Rattle.std.specs.Prelude.{◌≡◌, ◌<◌, ◌≤◌, ℕ, [], length, take, IfSome};
ghost use Rattle.arrayvec.specs.ArrayVec.{ArrayVec as Items};
ghost use Rattle.rfb_wire.specs.ServerHead.{SpellsUpdate};
ghost use Rattle.rfb_hello.specs.KeptText.{KeptText};

use crate::event::ViewerEvent;
use crate::fault::ViewerFault;
use crate::gather::read_head;
use crate::viewer::Viewer;
use crate::viewer::after::{end_of, go_on, go_on_after};
use crate::viewer::progress::{Failure, HEAD_PART, Progress};
use arrayvec::ArrayVec;
use rfb_hello::Fed;
use rfb_wire::{Read, ServerHead};
use std::mem;

impl Viewer {
    ghost use Rattle.rfb_viewer.specs.declared.viewer.progress.Progress.{Progress};
    ghost use Rattle.rfb_viewer.specs.steps.StepPromises.{Steps, Takes};

    // Takes a byte of a message's head, or all of that of an update.
    pub(super) fn take_head(&mut self, bytes: &[u8]) -> Result<Fed<ViewerEvent>, Failure>
        requires some { 0 < length bytes.now }
        requires head { (part : Items ℕ) × (self.old.progress ≡ Progress.Head part) }
        ensures { Steps self.old bytes.now result self.new }
    {
        let Progress::Head(part) = &mut self.progress else {
            unreachable!()
        };
        if let Some((count, used)) = whole_update(part, bytes) {
            let ends_update = go_on(&mut self.progress, &mut self.request, count);
            return Ok(Fed {
                used,
                event: end_of(ends_update),
            });
        }
        let head = match read_head(part, bytes[0]) {
            Read::More(_) => {
                return Ok(Fed {
                    used: 1,
                    event: None,
                });
            }
            Read::Got(head, _) => head,
            Read::Bad(fault) => {
                let fault = self.progress.fail(ViewerFault::of_wire(fault));
                return Err(Failure { used: 1, fault });
            }
        };
        let Ok(event) = go_on_after(
            head,
            self.alloc,
            self.text_limit,
            &mut self.progress,
            &mut self.request,
        ) else {
            let fault = self.progress.fail(ViewerFault::NoMemory);
            return Err(Failure { used: 1, fault });
        };
        Ok(Fed { used: 1, event })
    }

    // Takes bytes of the colours of SetColorMapEntries, of which nothing is kept.
    pub(super) fn skip_colours(&mut self, bytes: &[u8]) -> Fed<ViewerEvent>
        requires some { 0 < length bytes.now }
        requires colours { (more : ℕ) × (self.old.progress ≡ Progress.Colours more) }
        ensures { Takes self.old bytes.now result.used result.event self.new }
    {
        let Progress::Colours { more } = &mut self.progress else {
            unreachable!()
        };
        let missing = *more as usize + 1;
        if bytes.len() < missing {
            *more -= bytes.len() as u32;
            return Fed {
                used: bytes.len(),
                event: None,
            };
        }
        self.progress = Progress::Head(ArrayVec::new());
        Fed {
            used: missing,
            event: Some(ViewerEvent::ColourMapSkipped),
        }
    }

    // Takes bytes of a text, and keeps those for which there is room.
    pub(super) fn take_text(&mut self, bytes: &[u8]) -> Fed<ViewerEvent>
        requires some { 0 < length bytes.now }
        requires text { (n more : ℕ) × (kept : KeptText)
            × (self.old.progress ≡ Progress.CutText n more kept) }
        ensures { Takes self.old bytes.now result.used result.event self.new }
    {
        let Progress::CutText { more, kept, .. } = &mut self.progress else {
            unreachable!()
        };
        let missing = *more as usize + 1;
        if bytes.len() < missing {
            kept.keep(bytes);
            *more -= bytes.len() as u32;
            return Fed {
                used: bytes.len(),
                event: None,
            };
        }
        kept.keep(&bytes[..missing]);
        let Progress::CutText { length, kept, .. } = mem::replace(
            &mut self.progress,
            Progress::Head(ArrayVec::new()),
        ) else {
            unreachable!()
        };
        Fed {
            used: missing,
            event: Some(ViewerEvent::CutText {
                kept: kept.into_vec(),
                length,
            }),
        }
    }
}

/// The head of an update that the bytes begin with, if nothing came of a head: how many rectangles
/// follow, and how many bytes it has. Most messages are updates, whose heads come in one slice.
pub(crate) fn whole_update(part: &ArrayVec<u8, HEAD_PART>, bytes: &[u8]) -> Option<(u16, usize)>
    ensures none { IfSome result (λ head. part.now.items ≡ []) }
    ensures within { IfSome result (λ head. head.1 ≤ length bytes.now) }
    ensures spelled { IfSome result (λ head. SpellsUpdate head.0 (take head.1 bytes.now)) }
{
    if !part.is_empty() {
        return None;
    }
    match ServerHead::read(bytes) {
        Read::Got(ServerHead::Update(count), used) => Some((count, used)),
        _ => None,
    }
}
