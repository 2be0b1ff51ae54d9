//! Calls on a link's viewer: their messages are in flight to the session.

ghost use Rattle.std.specs.Prelude.{◌≡◌, ◌≢◌, ◌≤◌, length, false, None, Some, IfOk, IsOk};
ghost use Rattle.rfb_viewer.specs.Call.{text_in};
ghost use Rattle.rfb_session.specs.Told.{refused_as};

use crate::link::Link;
use crate::told::{NoMemory, Refused, Told};
use arrayvec::ArrayVec;
use rfb_viewer::{AppendFault, Call};
use rfb_wire::Encoding;

impl Link {
    ghost use Rattle.rfb_session.specs.LinkModel.{session_of_link};
    ghost use Rattle.rfb_session.specs.LinkCalls.{DoesCall, CallsOnBytes, IsRefusedCall};
    ghost use Rattle.rfb_session.specs.LinkCalls.{call_refusal_on};

    /// A call of the viewer's: its message is in flight to the session. Where the viewer refuses
    /// it, `Told` has the refusal, and nothing changes. Memory can be wanting for the message. A
    /// text has at most 1,048,576 bytes.
    pub fn call(&mut self, call: &Call<'_>) -> Result<Told, NoMemory>
        requires few { length (text_in call.now) ≤ 1048576 }
        ensures bytes { IfOk result (λ told. CallsOnBytes self.old call.now told self.new) }
        ensures does { IfOk result (λ told. DoesCall self.old call.now told self.new) }
        ensures tells { IfOk result (λ told. (told.moved ≡ 0) × (told.composed ≡ false)) }
        ensures kept { IfOk result (λ told. told.refused ≢ None → self.new ≡ self.old) }
        ensures session { session_of_link self.new ≡ session_of_link self.old }
        ensures spared { IsRefusedCall self.old call.now → IsOk result }
        ensures refused { call_refusal_on self.old call.now ≢ None → IsOk result }
    {
        match self.to_server.send_call(&mut self.viewer, call) {
            Ok(()) => Ok(Told::taken()),
            Err(AppendFault::Refused(fault)) => Ok(Told::of_refusal(Refused::from(fault))),
            Err(AppendFault::NoMemory) => Err(NoMemory),
        }
    }
}

// The same encodings.
pub(crate) fn copy_of(encodings: &ArrayVec<Encoding, 4>) -> ArrayVec<Encoding, 4>
    ensures { result.items ≡ encodings.now.items }
{
    let mut copy = ArrayVec::new();
    match copy.try_extend_from_slice(encodings.as_slice()) {
        Ok(()) => copy,
        Err(_) => unreachable!(),
    }
}
