//! What a viewer takes of a server with its texts: a reason, and ServerInit with the name.

ghost use Rattle.std.specs.Prelude.{◌≡◌, ◌≤◌, ◌<◌, ℕ, [], length, take, true, IfOk, IfErr, Some};
ghost use Rattle.std.specs.Prelude.{None};
ghost use Rattle.arrayvec.specs.ArrayVec.{ArrayVec as Items};
ghost use Rattle.rfb_hello.specs.KeptText.{KeptText, kept_of};
ghost use Rattle.rfb_hello.specs.ServerItems.{screen_fault};
ghost use Rattle.rfb_hello.specs.ViewerEnd.{told_of_init};
ghost use Rattle.rfb_hello.specs.ViewerModel.{goes_on_after};
ghost use Rattle.rfb_hello.specs.pieces.ViewerPiece.{TakesPiece};
ghost use Rattle.rfb_hello.specs.ViewerProgress.{is_open as goes_on};
ghost use Rattle.rfb_hello.specs.pieces.ViewerPiece.{progress_after_init};
ghost use Rattle.rfb_hello.specs.declared.viewer_hello.progress.Progress.{Progress};
ghost use Rattle.rfb_hello.specs.declared.viewer_hello.progress.Cause.{Cause};

use crate::fault::HelloFault;
use crate::pieces::{INIT_PART, gather_word, read_text};
use crate::step::{INIT_SIZE, ViewerStep};
use crate::text::Text;
use crate::version::Version;
use crate::viewer_hello::progress::{Cause, Progress};
use crate::viewer_hello::{Taken, ViewerHello};
use byteorder::{BigEndian, ByteOrder};
use rfb_wire::pieces::gather;
use std::alloc::AllocError;
use std::mem;

impl ViewerHello {
    // Takes bytes of the length of a reason.
    pub(super) fn take_reason_length(&mut self, bytes: &[u8]) -> Taken
        requires some { 0 < length bytes.now }
        requires open { (cause : Cause) × (part : Items ℕ)
            × (self.old.progress ≡ Progress.ReasonLength cause part) }
        ensures { TakesPiece self.old bytes.now result.0 result.1 self.new }
    {
        let Progress::ReasonLength { cause, part } = &mut self.progress else {
            unreachable!()
        };
        let (used, whole) = gather_word(part, bytes);
        let Some(length) = whole else {
            return (used, Ok(None));
        };
        let cause = *cause;
        let Some(more) = length.checked_sub(1) else {
            return (used, Err(self.fail(cause.fault(0))));
        };
        let Ok(kept) = self.text_of(length) else {
            return (used, Err(self.fail(HelloFault::NoMemory)));
        };
        self.progress = Progress::Reason {
            cause,
            length,
            more,
            kept,
        };
        (used, Ok(None))
    }

    // Takes bytes of a reason.
    pub(super) fn take_reason(&mut self, bytes: &[u8]) -> Taken
        requires some { 0 < length bytes.now }
        requires open { (cause : Cause) × (n more : ℕ) × (kept : KeptText)
            × (self.old.progress ≡ Progress.Reason cause n more kept) }
        ensures { TakesPiece self.old bytes.now result.0 result.1 self.new }
    {
        let Progress::Reason { more, kept, .. } = &mut self.progress else {
            unreachable!()
        };
        let (used, whole) = read_text(kept, more, bytes);
        if !whole {
            return (used, Ok(None));
        }
        let Progress::Reason {
            cause,
            length,
            kept,
            ..
        } = mem::replace(&mut self.progress, Progress::Done)
        else {
            unreachable!()
        };
        let fault = cause.fault(length);
        self.progress = Progress::Failed(fault, kept);
        (used, Err(fault))
    }

    // Takes bytes of ServerInit, up to the name: judges the screen, and makes room for its name.
    pub(super) fn take_init(&mut self, bytes: &[u8]) -> Taken
        requires some { 0 < length bytes.now }
        requires open { (version : Version) × (part : Items ℕ)
            × (self.old.progress ≡ Progress.Init version part) }
        ensures { TakesPiece self.old bytes.now result.0 result.1 self.new }
    {
        let Progress::Init(version, part) = &mut self.progress else {
            unreachable!()
        };
        let (used, whole) = gather::<INIT_PART, INIT_SIZE>(part, bytes);
        let Some(whole) = whole else {
            return (used, Ok(None));
        };
        let version = *version;
        let init = whole.as_slice();
        if let Some(fault) = screen_fault(self.max_places, init) {
            return (used, Err(self.fail(fault)));
        }
        let width = BigEndian::read_u16(init);
        let height = BigEndian::read_u16(&init[2..]);
        let length = BigEndian::read_u32(&init[20..]);
        let Ok((progress, step)) = self.after_init(version, width, height, length) else {
            return (used, Err(self.fail(HelloFault::NoMemory)));
        };
        self.progress = progress;
        (used, Ok(Some(step)))
    }

    // What comes next of a server that sent its screen and the length of its name, and the step
    // that the viewer returns.
    fn after_init(
        &self,
        version: Version,
        width: u16,
        height: u16,
        length: u32,
    ) -> Result<(Progress, ViewerStep), AllocError>
        ensures progress { IfOk result (λ after.
            after.0 ≡ progress_after_init self.now.text_limit version width height length) }
        ensures told { IfOk result (λ after.
            after.1 ≡ told_of_init self.now.text_limit version width height length) }
        ensures open { IfOk result (λ after.
            goes_on after.0 ≡ goes_on_after (Some after.1)) }
        ensures asked { IfErr result (λ _. 0 < length) }
    {
        let Some(more) = length.checked_sub(1) else {
            let ready = ViewerStep::Ready {
                width,
                height,
                version,
                name: Text::empty(self.alloc),
                name_length: 0,
            };
            return Ok((Progress::Done, ready));
        };
        let kept = self.text_of(length)?;
        let progress = Progress::Name {
            version,
            width,
            height,
            length,
            more,
            kept,
        };
        Ok((progress, ViewerStep::Screen { width, height }))
    }

    // Takes bytes of the screen's name.
    pub(super) fn take_name(&mut self, bytes: &[u8]) -> Taken
        requires some { 0 < length bytes.now }
        requires open { (version : Version) × (width height n more : ℕ) × (kept : KeptText)
            × (self.old.progress ≡ Progress.Name version width height n more kept) }
        ensures { TakesPiece self.old bytes.now result.0 result.1 self.new }
    {
        let Progress::Name { more, kept, .. } = &mut self.progress else {
            unreachable!()
        };
        let (used, whole) = read_text(kept, more, bytes);
        if !whole {
            return (used, Ok(None));
        }
        let Progress::Name {
            version,
            width,
            height,
            length,
            kept,
            ..
        } = mem::replace(&mut self.progress, Progress::Done)
        else {
            unreachable!()
        };
        let ready = ViewerStep::Ready {
            width,
            height,
            version,
            name: kept,
            name_length: length,
        };
        (used, Ok(Some(ready)))
    }

    // A text with room for as much as is kept of a text of that length.
    fn text_of(&self, length: u32) -> Result<Text, AllocError>
        ensures { IfOk result (λ text. text ≡ kept_of self.now.text_limit length []) }
    {
        Text::with_room(self.alloc, length.min(self.text_limit) as usize)
    }
}

// The fault of a screen, if it has one.
fn screen_fault(max_places: u32, init: &[u8]) -> Option<HelloFault>
    requires { length init.now ≡ INIT_SIZE }
    ensures { result ≡ screen_fault max_places init.now }
{
    let width = BigEndian::read_u16(init);
    let height = BigEndian::read_u16(&init[2..]);
    let places = u32::from(width) * u32::from(height);
    if places == 0 {
        Some(HelloFault::ScreenEmpty)
    } else if places > max_places {
        Some(HelloFault::ScreenTooLarge)
    } else {
        None
    }
}
