//! The bytes in flight one way.

ghost use Rattle.std.specs.Prelude.{◌≡◌, ◌≤◌, ◌++◌, ℕ, List, [], length, take, drop};
ghost use Rattle.std.specs.Prelude.{◌≢◌, ◌+◌, true, false, None, Ok, IfOk, OnOk, OnErr};
ghost use Rattle.std.specs.Vec.{vec_capacity};

use crate::front::bring_to_front;
use crate::share::Share;
use rfb_picture::Picture;
use rfb_pixel::Colour;
use rfb_server::Session;
use rfb_viewer::{AppendFault, Call, Viewer};
use std::alloc::{AllocError, Global};
use std::marker::Model;

/// Bytes that were sent and have not arrived, in order. They are read where they lie. At most half
/// of the bytes that it keeps have arrived. Once the last one has, their memory is given back.
#[derive(Debug, Drop)]
pub(crate) struct Channel {
    alloc: Global,
    bytes: Vec<u8>,
    // How many of those kept have arrived.
    arrived: usize,
}

impl Model for Channel {
    ghost use Rattle.std.specs.Prelude.{ℕ, ◌+◌, ◌≤◌, List, drop, length};

    ghost Value = { List ℕ };

    ghost view = { λ c. drop c.arrived c.bytes.items };

    ghost invariant = { λ c. c.arrived + c.arrived ≤ length c.bytes.items };
}

impl Channel {
    ghost use Rattle.rfb_session.specs.LinkBytes.{IsCalled};
    ghost use Rattle.rfb_session.specs.ends.Room.{IsSameSize};
    ghost use Rattle.rfb_session.specs.relay.Desk.{CallsShare};
    ghost use Rattle.rfb_server.specs.Hints.{hints_in};
    ghost use Rattle.rfb_server.specs.KnownScreen.{Follows};
    ghost use Rattle.rfb_server.specs.Model.{session_fault};
    ghost use Rattle.rfb_server.specs.UpdateCall.{SendsUpdate, OwesUpdate, OwesNone};
    ghost use Rattle.rfb_viewer.specs.Call.{append_refusal_of, called, is_noted, message_bytes};
    ghost use Rattle.rfb_viewer.specs.Call.{message_of, refusal_for, refused_by, text_in};
    ghost use Rattle.rfb_viewer.specs.Model.{StandsFor};
    ghost use Rattle.rfb_viewer.specs.Viewer.{Viewing, ViewerState};
    ghost use Rattle.rfb_wire.specs.ClientMessage.{SpellsClientMessage};

    /// A channel with nothing in flight. It takes no memory.
    pub(crate) fn new(alloc: Global) -> Channel
        ensures { result ≡ [] }
    {
        Channel {
            alloc,
            bytes: Vec::new(alloc),
            arrived: 0,
        }
    }

    /// How many bytes are in flight.
    pub(crate) fn len(&self) -> usize
        ensures { result ≡ length self.now }
    {
        self.bytes.len() - self.arrived
    }

    /// Lends the first `count` bytes in flight.
    pub(crate) fn first(&self, count: usize) -> &[u8]
        requires { count ≤ length self.now }
        ensures { result.now ≡ take count self.now }
    {
        &self.bytes[self.arrived..self.arrived + count]
    }

    /// The first `count` bytes in flight have arrived.
    pub(crate) fn arrive(&mut self, count: usize)
        requires { count ≤ length self.old }
        ensures { self.new ≡ drop count self.old }
    {
        self.arrived = let_go(self.alloc, &mut self.bytes, self.arrived + count);
    }

    /// These bytes are in flight too, after the others. Where there is no memory nothing changes.
    pub(crate) fn send(&mut self, bytes: &[u8]) -> Result<(), AllocError>
        ensures sent { OnOk result (self.new ≡ self.old ++ bytes.now) }
        ensures kept { OnErr result (self.new ≡ self.old) }
    {
        // Most that is fed is not answered.
        if bytes.is_empty() {
            return Ok(());
        }
        self.bytes.extend_from_slice(bytes)
    }

    /// The update that a session composes over the screen is in flight too, if it composes one.
    pub(crate) fn send_update(
        &mut self,
        session: &mut Session,
        screen: &Picture<Colour>,
    ) -> Result<bool, AllocError>
        requires follows { Follows screen.now session.old }
        ensures follows { Follows screen.now session.new }
        ensures appended { OnOk result ((bytes : List ℕ) × (self.new ≡ self.old ++ bytes)) }
        ensures composed { IfOk result (λ did. did ≡ true →
            SendsUpdate screen.now session.old session.new self.old self.new) }
        ensures idle { IfOk result (λ did. did ≡ false →
            OwesNone screen.now session.old session.new self.old self.new) }
        ensures due { OnErr result (OwesUpdate screen.now session.old) }
        ensures failed { session_fault session.old ≢ None → result ≡ Ok false }
        ensures size { IsSameSize session.old session.new }
        ensures spent { IfOk result (λ did. did ≡ true → hints_in session.new ≡ []) }
        ensures hints { IfOk result (λ did. did ≡ false →
            hints_in session.new ≡ hints_in session.old) }
    {
        session.compose(screen, &mut self.bytes)
    }

    /// The message of a viewer's call is in flight too. Where the viewer refuses it, or there is no
    /// memory, nothing changes.
    pub(crate) fn send_call(
        &mut self,
        viewer: &mut Viewer,
        call: &Call<'_>,
    ) -> Result<(), AppendFault>
        requires few { length (text_in call.now) ≤ 1048576 }
        ensures sent { OnOk result (self.new ≡ self.old ++ message_bytes call.now) }
        ensures spelled { OnOk result
            (SpellsClientMessage (message_of call.now) (message_bytes call.now)) }
        ensures kept { OnErr result (self.new ≡ self.old) }
        ensures refusal { (viewing : Viewing) (s : ViewerState) (prefix : List ℕ)
            → StandsFor viewing viewer.old s prefix
            → append_refusal_of result ≡ refusal_for s prefix call.now }
        ensures refuses { append_refusal_of result ≡ refused_by viewer.old call.now }
        ensures called { OnOk result (IsCalled (λ s. called call.now s) viewer.old viewer.new) }
        ensures same { OnErr result (viewer.new ≡ viewer.old) }
        ensures unnoted { is_noted call.now ≡ false → viewer.new ≡ viewer.old }
    {
        viewer.append(call, &mut self.bytes)
    }

    /// The same of the viewer whose picture a share has.
    pub(crate) fn send_for(&mut self, share: &mut Share, call: &Call<'_>) -> Result<(), AppendFault>
        requires few { length (text_in call.now) ≤ 1048576 }
        ensures { CallsShare share.old call.now self.old result self.new share.new }
    {
        share.append(call, &mut self.bytes)
    }
}

// The first `arrived` bytes have arrived. Once they are as many as those in flight, their room is
// taken for others. Where none is in flight, the memory is given back. Returns how many that have
// arrived are kept.
fn let_go(alloc: Global, bytes: &mut Vec<u8>, arrived: usize) -> usize
    requires within { arrived ≤ length bytes.old.items }
    ensures same { drop result bytes.new.items ≡ drop arrived bytes.old.items }
    ensures few { result + result ≤ length bytes.new.items }
    ensures room { vec_capacity bytes.new ≤ vec_capacity bytes.old }
    ensures freed { arrived ≡ length bytes.old.items → vec_capacity bytes.new ≡ 0 }
{
    let in_flight = bytes.len() - arrived;
    if in_flight == 0 {
        *bytes = Vec::new(alloc);
        return 0;
    }
    if arrived < in_flight {
        return arrived;
    }
    bring_to_front(bytes, arrived);
    0
}
