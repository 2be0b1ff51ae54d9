//! The messages of a client, as they come in slices.

ghost use Rattle.std.specs.Prelude.{◌≡◌, ◌≤◌, ◌<◌, ◌-◌, ◌++◌, ℕ, List, length, take, IfErr};
ghost use Rattle.std.specs.Result.{result_err};
ghost use Rattle.arrayvec.specs.ArrayVec.{ArrayVec as Items};
ghost use Rattle.rfb_wire.specs.ClientHead.{SpellsClientHead};
ghost use Rattle.rfb_server.specs.declared.session.input.progress.Progress.{Progress};
ghost use Rattle.rfb_server.specs.Progress.{fault_in};
ghost use Rattle.rfb_server.specs.Model.{notes_in};
ghost use Rattle.rfb_server.specs.session.Sessions.{BeginsMessage, KeepsUp};
ghost use Rattle.rfb_server.specs.session.Slice.{AwaitsMore, StepsAs, RunsOutAs};

use crate::event::ServerEvent;
use crate::fault::ServerFault;
use crate::session::Session;
use crate::session::input::head::gather_head;
use crate::session::input::progress::Progress;
use arrayvec::ArrayVec;
use rfb_pixel::Format;
use rfb_wire::{ClientHead, Read};

impl Session {
    // Takes bytes of a message's head: how many these were, and what the message answers once its
    // head is whole.
    pub(super) fn take_head(
        &mut self,
        bytes: &[u8],
    ) -> (usize, Result<Option<ServerEvent>, ServerFault>)
        requires some { 0 < length bytes.now }
        requires head { (part : Items ℕ) × (self.old.progress ≡ Progress.Head part) }
        ensures used { (0 < result.0) × (result.0 ≤ length bytes.now) }
        ensures steps { StepsAs self.old (take result.0 bytes.now) result.1 self.new }
        ensures memory { RunsOutAs self.old (take result.0 bytes.now) result.1 }
        ensures up { KeepsUp self.old self.new }
        ensures fault { fault_in self.new.progress ≡ result_err result.1 }
        ensures kept { IfErr result.1 (λ _. notes_in self.new ≡ notes_in self.old) }
        ensures place { IfErr result.1 (λ _.
            AwaitsMore self.old (take (result.0 - 1) bytes.now)) }
    {
        let Progress::Head(part) = &mut self.progress else {
            unreachable!()
        };
        let (used, read) = gather_head(part, bytes);
        match read {
            Read::More(_) => (used, Ok(None)),
            Read::Got(head, _) => (used, self.take_message(head)),
            Read::Bad(fault) => (used, Err(self.fail(ServerFault::of_wire(fault)))),
        }
    }

    // Takes a whole head, and with it the message, unless a list or a text follows.
    fn take_message(&mut self, head: ClientHead) -> Result<Option<ServerEvent>, ServerFault>
        requires { (part : Items ℕ) × (self.old.progress ≡ Progress.Head part) }
        ensures steps { (part : Items ℕ) (unit : List ℕ)
            → self.old.progress ≡ Progress.Head part → SpellsClientHead head (part.items ++ unit)
            → StepsAs self.old unit result self.new }
        ensures memory { (part : Items ℕ) (unit : List ℕ)
            → self.old.progress ≡ Progress.Head part → SpellsClientHead head (part.items ++ unit)
            → RunsOutAs self.old unit result }
        ensures up { KeepsUp self.old self.new }
        ensures fault { fault_in self.new.progress ≡ result_err result }
        ensures kept { IfErr result (λ _. notes_in self.new ≡ notes_in self.old) }
    {
        match head {
            ClientHead::SetPixelFormat(bytes) => match Format::read(&bytes) {
                Ok(format) => {
                    self.set_format(format);
                    self.begin_message();
                    Ok(None)
                }
                Err(fault) => Err(self.fail(ServerFault::of_format(fault))),
            },
            ClientHead::SetEncodings(count) => {
                self.begin_list(count);
                Ok(None)
            }
            ClientHead::Request { incremental, rect } => {
                self.request(incremental, rect);
                self.begin_message();
                Ok(None)
            }
            ClientHead::Key { down, key } => {
                self.begin_message();
                Ok(Some(ServerEvent::Key { down, key }))
            }
            ClientHead::Pointer { buttons, x, y } => {
                self.begin_message();
                Ok(Some(ServerEvent::Pointer { buttons, x, y }))
            }
            ClientHead::CutText(length) => self.begin_text(length),
        }
    }

    // A message comes next, and nothing of it has come.
    pub(super) fn begin_message(&mut self)
        ensures { BeginsMessage self.old self.new }
    {
        self.progress = Progress::Head(ArrayVec::new());
    }

    // Holds a fault from now on.
    pub(super) fn fail(&mut self, fault: ServerFault) -> ServerFault
        ensures value { result ≡ fault }
        ensures after { self.new.progress ≡ Progress.Failed fault }
        ensures kept { notes_in self.new ≡ notes_in self.old }
        ensures up { KeepsUp self.old self.new }
    {
        self.progress = Progress::Failed(fault);
        fault
    }
}
