//! The update of what a viewer asked for and does not have.

ghost use Rattle.std.specs.Prelude.{◌≡◌, ◌≢◌, ℕ, ◌+◌, ◌*◌, ◌≤◌, List, [], ◌++◌, true, false};
ghost use Rattle.std.specs.Prelude.{vec_len, None, Ok, IfOk, OnErr};
ghost use Rattle.std.specs.Bool.{OnTrue, OnFalse};
ghost use Rattle.std.specs.Int.{div_ceil};
ghost use Rattle.std.specs.Vec.{vec_capacity};
ghost use Rattle.rfb_server.specs.Claims.{IsClaimed};
ghost use Rattle.rfb_server.specs.KnownScreen.{Follows};
ghost use Rattle.rfb_server.specs.Progress.{is_ready};
ghost use Rattle.rfb_server.specs.update.Composed.{IsAwaited, HasComposed, StaysIdle};
ghost use Rattle.rfb_server.specs.update.Composed.{IsSettled, IsCounted};
ghost use Rattle.rfb_server.specs.update.Copies.{usable_hints, AreMarkedFor};
ghost use Rattle.rfb_server.specs.update.Sends.{IsEnough, AreLimits};
ghost use Rattle.rfb_server.specs.session.Sessions.{IsSame};

mod asked;
mod cells;
mod copies;
mod gains;
mod needs;
mod place;
pub(super) mod quiet;
mod room;

use crate::claim::Claim;
use crate::growth::make_room;
use crate::rectangle::COPY_SIZE;
use crate::session::Session;
use crate::session::input::progress::Progress;
use crate::session::update::quiet::NOWHERE;
use crate::session::update::room::Room;
use rfb_picture::Picture;
use rfb_pixel::Colour;
use rfb_wire::ServerHead;
use rfb_wire::pieces::append_within;
use std::alloc::AllocError;

/// How many bytes the head of an update has, RFC 6143 section 7.6.1.
const UPDATE_HEAD_SIZE: usize = 4;

impl Session {
    ghost use Rattle.rfb_server.specs.Hints.{hints_in};
    ghost use Rattle.rfb_server.specs.Model.{KeepsSession, session_fault};
    ghost use Rattle.rfb_server.specs.Room.{GrowsWithin, update_room};
    ghost use Rattle.rfb_server.specs.UpdateCall.{SendsUpdate, OwesUpdate, OwesNone};

    /// Appends to `out` one FramebufferUpdate, RFC 6143 section 7.6.1, of what the viewer asked for
    /// and does not have of the screen, which it borrows. It reports whether it did: exactly where
    /// the handshake is done, the session has not failed, and such a place is there.
    ///
    /// First in it is a CopyRect for each hint that is of use, the oldest first, where the viewer
    /// listed CopyRect. Such a hint copies over asked places, none of them to be sent whole, and
    /// leaves more of them right than there were. Then come pixels. After an update nothing is
    /// asked any more, and no hint is kept.
    ///
    /// `out` stays the caller's; what was in it stays in front. Room is asked for once, before
    /// anything changes. It is at most 260 bytes, and 12 and its pixels' bytes for each cell of 64
    /// by 64 places that holds an asked place, or twice the room that there was, if that is more.
    /// Where there is none it gives the error, if an update is due, and nothing changes.
    ///
    /// The session has to follow the screen: it was `notified` of each drawing.
    pub fn compose(
        &mut self,
        screen: &Picture<Colour>,
        out: &mut Vec<u8>,
    ) -> Result<bool, AllocError>
        requires follows { Follows screen.now self.old }
        ensures follows { Follows screen.now self.new }
        ensures appended { (bytes : List ℕ) × (out.new.items ≡ out.old.items ++ bytes) }
        ensures composed { IfOk result (λ did. did ≡ true →
            SendsUpdate screen.now self.old self.new out.old.items out.new.items) }
        ensures idle { IfOk result (λ did. did ≡ false →
            OwesNone screen.now self.old self.new out.old.items out.new.items) }
        ensures kept { OnErr result (out.new.items ≡ out.old.items) }
        ensures due { OnErr result (OwesUpdate screen.now self.old) }
        ensures same { OnErr result (KeepsSession self.old self.new) }
        ensures failed { session_fault self.old ≢ None → result ≡ Ok false }
        ensures spent { IfOk result (λ did. did ≡ true → hints_in self.new ≡ []) }
        ensures hints { IfOk result (λ did. did ≡ false → hints_in self.new ≡ hints_in self.old) }
        ensures unspent { OnErr result (hints_in self.new ≡ hints_in self.old) }
        ensures room { GrowsWithin (vec_capacity out.old)
            (vec_len out.old + update_room self.old) (vec_capacity out.new) }
    {
        self.send_due(screen, out)
    }

    // The same, in words of the session's parts.
    fn send_due(&mut self, screen: &Picture<Colour>, out: &mut Vec<u8>) -> Result<bool, AllocError>
        requires about { Follows screen.now self.old }
        ensures about { Follows screen.now self.new }
        ensures composed { IfOk result (λ did. did ≡ true →
            HasComposed screen.now self.old self.new out.old.items out.new.items) }
        ensures idle { IfOk result (λ did. did ≡ false →
            StaysIdle screen.now self.old self.new out.old.items out.new.items) }
        ensures kept { OnErr result (out.new.items ≡ out.old.items) }
        ensures due { OnErr result (IsAwaited screen.now self.old) }
        ensures same { OnErr result (IsSame self.old self.new) }
        ensures hints { OnErr result (self.new.hints ≡ self.old.hints) }
        ensures unready { is_ready self.old.progress ≡ false → result ≡ Ok false }
        ensures room { GrowsWithin (vec_capacity out.old)
            (vec_len out.old + update_room self.old) (vec_capacity out.new) }
    {
        if !self.is_ready() {
            return Ok(false);
        }
        self.mark_hints(screen);
        let room = self.room();
        if room.bytes == 0 {
            return Ok(false);
        }
        let more = UPDATE_HEAD_SIZE + COPY_SIZE * self.usable_hints() + room.bytes;
        match make_room(out, more) {
            Ok(()) => Ok(self.update(screen, room, out)),
            Err(error) if self.is_due(screen) => Err(error),
            // The cells' marks alone said that there may be one.
            Err(_) => Ok(false),
        }
    }

    // Whether the handshake is done, and the session has not failed.
    pub(super) fn is_ready(&self) -> bool
        ensures { result ≡ is_ready self.now.progress }
    {
        match &self.progress {
            Progress::Handshake | Progress::Failed(_) => false,
            Progress::Head(_) | Progress::Encodings { .. } | Progress::CutText { .. } => true,
        }
    }

    // Appends the update, if there is one. There is room for it. A claim is about the record, so it
    // goes where an update changes that.
    fn update(&mut self, screen: &Picture<Colour>, room: Room, out: &mut Vec<u8>) -> bool
        requires about { Follows screen.now self.old }
        requires ready { is_ready self.old.progress ≡ true }
        requires room { (room : ℕ) × IsEnough self.old (div_ceil self.old.known.width 64)
            (div_ceil self.old.known.width 64 * div_ceil self.old.known.height 64) room
            × (vec_len out.old + 4 + 16 * usable_hints self.old + room ≤ vec_capacity out.old) }
        requires limits { AreLimits self.old room.first room.end }
        requires marked { AreMarkedFor screen.now self.old (usable_hints self.old) }
        ensures about { Follows screen.now self.new }
        ensures composed { OnTrue result
            (HasComposed screen.now self.old self.new out.old.items out.new.items) }
        ensures idle { OnFalse result
            (StaysIdle screen.now self.old self.new out.old.items out.new.items) }
        ensures room { vec_capacity out.new ≡ vec_capacity out.old }
    {
        let claim = self.claim;
        self.claim = None;
        if self.update_by(screen, claim, room, out) {
            return true;
        }
        self.claim = claim;
        false
    }

    // The same, where `claim` was taken out of the session.
    fn update_by(
        &mut self,
        screen: &Picture<Colour>,
        claim: Option<Claim>,
        room: Room,
        out: &mut Vec<u8>,
    ) -> bool
        requires about { Follows screen.now self.old }
        requires unclaimed { self.old.claim ≡ None }
        requires claimed { IsClaimed screen.now self.old.known self.old.format claim }
        requires ready { is_ready self.old.progress ≡ true }
        requires room { (room : ℕ) × IsEnough self.old (div_ceil self.old.known.width 64)
            (div_ceil self.old.known.width 64 * div_ceil self.old.known.height 64) room
            × (vec_len out.old + 4 + 16 * usable_hints self.old + room ≤ vec_capacity out.old) }
        requires limits { AreLimits self.old room.first room.end }
        requires marked { AreMarkedFor screen.now self.old (usable_hints self.old) }
        ensures about { Follows screen.now self.new }
        ensures composed { OnTrue result
            (HasComposed screen.now self.old self.new out.old.items out.new.items) }
        ensures idle { OnFalse result
            (StaysIdle screen.now self.old self.new out.old.items out.new.items) }
        ensures room { vec_capacity out.new ≡ vec_capacity out.old }
    {
        let start = out.len();
        append_within(out, ServerHead::Update(0).spell().as_slice());
        let mut quiet = NOWHERE;
        let copies = self.send_copies(screen, claim, out, &mut quiet);
        let count = copies + self.send_cells(screen, &quiet, room, out);
        if count == 0 {
            out.truncate(start);
            return false;
        }
        put_count(out, start, count);
        self.settle();
        true
    }

    // After an update: what was asked is answered, and is marked no more.
    pub(super) fn settle(&mut self)
        ensures { IsSettled self.old self.new }
    {
        self.marks.take_away(self.area.asked());
        self.area.clear();
        self.hints.clear();
    }
}

// Writes into the head of an update, at `at`, how many rectangles the update has.
fn put_count(out: &mut Vec<u8>, at: usize, count: u16)
    requires { at + 4 ≤ vec_len out.old }
    ensures counted { IsCounted at count out.old.items out.new.items }
    ensures room { vec_capacity out.new ≡ vec_capacity out.old }
{
    let head = ServerHead::Update(count).spell();
    let bytes = head.as_slice();
    out[at + 2] = bytes[2];
    out[at + 3] = bytes[3];
}
