//! The text of ClientCutText, RFC 6143 section 7.5.6, as it comes in slices.

ghost use Rattle.std.specs.Prelude.{◌≡◌, ◌≤◌, ◌<◌, ◌++◌, ℕ, List, [], length, take, None, Ok, IfOk};
ghost use Rattle.std.specs.Prelude.{IfErr};
ghost use Rattle.std.specs.Result.{result_err};
ghost use Rattle.arrayvec.specs.ArrayVec.{ArrayVec as Items};
ghost use Rattle.rfb_wire.specs.ClientHead.{SpellsClientCutText};
ghost use Rattle.rfb_hello.specs.KeptText.{KeptText, kept_of};
ghost use Rattle.rfb_server.specs.declared.session.input.progress.Progress.{Progress};
ghost use Rattle.rfb_server.specs.Progress.{fault_in};
ghost use Rattle.rfb_server.specs.Model.{notes_in};
ghost use Rattle.rfb_server.specs.session.Sessions.{KeepsUp};
ghost use Rattle.rfb_server.specs.session.Slice.{StepsAs, RunsOutAs};

use crate::event::ServerEvent;
use crate::fault::ServerFault;
use crate::session::Session;
use crate::session::input::progress::Progress;
use arrayvec::ArrayVec;
use rfb_hello::Text;
use std::alloc::AllocError;
use std::mem;

impl Session {
    // A text of `length` bytes comes next; it asks for room for as many as are kept. One without
    // bytes is whole.
    pub(super) fn begin_text(&mut self, length: u32) -> Result<Option<ServerEvent>, ServerFault>
        requires { (part : Items ℕ) × (self.old.progress ≡ Progress.Head part) }
        ensures steps { (part : Items ℕ) (unit : List ℕ) → self.old.progress ≡ Progress.Head part
            → SpellsClientCutText length (part.items ++ unit)
            → StepsAs self.old unit result self.new }
        ensures memory { (part : Items ℕ) (unit : List ℕ) → self.old.progress ≡ Progress.Head part
            → SpellsClientCutText length (part.items ++ unit)
            → RunsOutAs self.old unit result }
        ensures up { KeepsUp self.old self.new }
        ensures fault { fault_in self.new.progress ≡ result_err result }
        ensures kept { IfErr result (λ _. notes_in self.new ≡ notes_in self.old) }
    {
        if length == 0 {
            self.begin_message();
            return Ok(Some(ServerEvent::CutText {
                kept: Vec::new(self.alloc),
                length,
            }));
        }
        let Ok(kept) = self.text_of(length) else {
            return Err(self.fail(ServerFault::NoMemory));
        };
        self.progress = Progress::CutText {
            length,
            left: length,
            kept,
        };
        Ok(None)
    }

    // A text with room for as much as is kept of `length` bytes.
    fn text_of(&self, length: u32) -> Result<Text, AllocError>
        ensures { IfOk result (λ text. text ≡ kept_of self.now.text_limit length []) }
    {
        Text::with_room(self.alloc, length.min(self.text_limit) as usize)
    }

    // Takes bytes of a text: how many these were, and the event that it makes once it is whole.
    pub(super) fn take_text(&mut self, bytes: &[u8]) -> (usize, Option<ServerEvent>)
        requires some { 0 < length bytes.now }
        requires text { (n left : ℕ) × (kept : KeptText)
            × (self.old.progress ≡ Progress.CutText n left kept) }
        ensures used { (0 < result.0) × (result.0 ≤ length bytes.now) }
        ensures steps { StepsAs self.old (take result.0 bytes.now) (Ok result.1) self.new }
        ensures up { KeepsUp self.old self.new }
        ensures going { fault_in self.new.progress ≡ None }
    {
        let Progress::CutText { left, kept, .. } = &mut self.progress else {
            unreachable!()
        };
        let missing = *left as usize;
        if bytes.len() < missing {
            kept.keep(bytes);
            *left -= bytes.len() as u32;
            return (bytes.len(), None);
        }
        kept.keep(&bytes[..missing]);
        let whole = mem::replace(&mut self.progress, Progress::Head(ArrayVec::new()));
        let Progress::CutText { length, kept, .. } = whole else {
            unreachable!()
        };
        let told = ServerEvent::CutText {
            kept: kept.into_vec(),
            length,
        };
        (missing, Some(told))
    }
}
