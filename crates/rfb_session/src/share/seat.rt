//! A viewer's seat at a share: its session, and the bytes that wait to be written to the viewer.

ghost use Rattle.std.specs.Prelude.{◌≡◌, ◌≢◌, ◌≤◌, ◌<◌, ◌++◌, ℕ, [], length, take, drop};
ghost use Rattle.std.specs.Prelude.{true, false, None, Some, IfOk, IfErr, OnErr, IsTrue, ◌↔◌};
ghost use Rattle.std.specs.Bool.{OnTrue, OnFalse};
ghost use Rattle.rfb_server.specs.Intake.{AreTaken};
ghost use Rattle.rfb_server.specs.Told.{seen};
ghost use Rattle.rfb_session.specs.ShareRoom.{kept_in, answers_in, HasRoomForAnswers};

use crate::reply::server_reply;
use crate::share::event::{Composing, ShareFault};
use crate::share::waiting::Waiting;
use crate::slots::Follower;
use crate::told::NoMemory;
use arrayvec::ArrayVec;
use rfb_hello::Fed;
use rfb_picture::Picture;
use rfb_pixel::Colour;
use rfb_server::{LateSession, Notice, ServerEvent, ServerFault};
use rfb_wire::pieces::append;
use std::alloc::Global;

/// A viewer's seat. Its session is notified of drawings and is fed what the viewer sends; what it
/// sends waits in order, until the caller says that it is written.
#[derive(Debug, Drop)]
pub struct ShareSeat {
    alloc: Global,
    session: LateSession,
    waiting: Waiting,
    // How many of the bytes kept are written.
    written: usize,
    ghost within: { written ≤ length (kept_in waiting) },
    ghost few: { answers_in waiting ≤ 297 },
    ghost roomy: { ∥ HasRoomForAnswers session waiting ∥₁ },
}

impl ShareSeat {
    ghost use Rattle.rfb_hello.specs.Version.{version_text};
    ghost use Rattle.rfb_picture.specs.Grid.{Grid, at_or};
    ghost use Rattle.rfb_server.specs.KnownScreen.{Follows};
    ghost use Rattle.rfb_server.specs.Model.{session_fault};
    ghost use Rattle.rfb_server.specs.Record.{KeepsOrForgets};
    ghost use Rattle.rfb_server.specs.UpdateCall.{HasAsked};
    ghost use Rattle.rfb_pixel.specs.declared.colour.Colour.{Colour};
    ghost use Rattle.rfb_session.specs.ShareKin.{known_at};
    ghost use Rattle.rfb_session.specs.ShareSeats.{waiting_in, session_at, is_update, IsFresh};
    ghost use Rattle.rfb_session.specs.ShareSeats.{IsSeatOf, Hears, ComposesAt, WantsRoom};
    ghost use Rattle.rfb_session.specs.ShareSeats.{WritesAt, Sends};
    ghost use Rattle.rfb_session.specs.ShareSlots.{EndsAtSeat};
    ghost use Rattle.rfb_session.specs.ShareTwins.{AreSeatTwins, HasComposedTwin, IsShared};

    /// A seat of a session that was fed nothing, with its greeting.
    pub(crate) fn new(alloc: Global, session: LateSession) -> ShareSeat
        requires fresh { IsFresh session }
        ensures { IsSeatOf session result }
    {
        let mut kept = ArrayVec::new();
        append(&mut kept, &session.greeting());
        ShareSeat {
            alloc,
            session,
            waiting: Waiting::Answers(kept),
            written: 0,
        }
    }

    /// Takes bytes of the viewer's, as `LateSession::feed` does. The answer waits after what
    /// waited.
    pub(crate) fn hear(&mut self, bytes: &[u8]) -> Result<Fed<ServerEvent>, ShareFault>
        ensures taken { IfOk result (AreTaken bytes.now) }
        ensures heard { IfOk result (λ fed.
            Hears (take fed.used bytes.now) (seen fed.event) self.old self.new) }
        ensures ended { IfErr result (λ fault. EndsAtSeat bytes.now fault self.old self.new) }
        ensures follows { (screen : Grid Colour) → Follows screen (session_at self.old)
            → Follows screen (session_at self.new) }
        ensures known { KeepsOrForgets (known_at self.old) (known_at self.new) }
    {
        let fed = self.session.feed(bytes)?;
        match &mut self.waiting {
            Waiting::Answers(kept) => append(kept, server_reply(&fed.event)),
            Waiting::Update(_) => {}
            Waiting::Shared(_) => {}
        }
        Ok(fed)
    }

    /// Lends the bytes that wait.
    pub(crate) fn waiting(&self) -> &[u8]
        ensures value { result.now ≡ waiting_in self.now }
        ensures few { is_update self.now ≡ false → length result.now ≤ 297 }
    {
        &self.waiting.kept()[self.written..]
    }

    /// The first `count` bytes that wait are written, or all. Their memory is given back.
    pub(crate) fn write(&mut self, count: usize)
        ensures { WritesAt count self.old self.new }
    {
        let kept = self.waiting.kept().len();
        if count < kept - self.written {
            self.written = self.waiting.cut(self.written + count);
            return;
        }
        self.waiting = Waiting::Answers(ArrayVec::new());
        self.written = 0;
    }

    /// Composes an update of the screen, if nothing waits and one is due. Where there is no memory
    /// for it, none waits, and it may be composed later.
    pub(crate) fn compose(&mut self, screen: &Picture<Colour>) -> Result<Composing, NoMemory>
        requires follows { Follows screen.now (session_at self.old) }
        ensures composes { IfOk result (λ told. ComposesAt screen.now told self.old self.new) }
        ensures wants { OnErr result (WantsRoom screen.now self.old self.new) }
        ensures follows { Follows screen.now (session_at self.new) }
    {
        if !self.waiting().is_empty() {
            return Ok(Composing::Waiting);
        }
        let mut update = Vec::new(self.alloc);
        let composed = self.session.compose(screen, &mut update)?;
        if !composed {
            return Ok(Composing::NotDue);
        }
        self.waiting = Waiting::Update(update);
        self.written = 0;
        Ok(Composing::Composed)
    }

    /// Whether an update for another seat is one for this one too, to the byte: nothing waits at
    /// either, and the sessions are twins. The sessions of both follow one screen. The caller says
    /// whether it knows that both know the same.
    pub(crate) fn is_twin_of(&self, other: &ShareSeat, knows_same: bool) -> bool
        requires { knows_same ≡ true → known_at other.now ≡ known_at self.now }
        ensures { OnTrue result ((screen : Grid Colour) → Follows screen (session_at other.now)
            → Follows screen (session_at self.now) → AreSeatTwins other.now self.now) }
    {
        if !self.waiting().is_empty() || !other.waiting().is_empty() {
            return false;
        }
        self.session.is_twin_of(&other.session, knows_same)
    }

    /// Whether it knows the same as another seat, where the sessions of both follow one screen. It
    /// may say no where that is so.
    pub(crate) fn knows_as(&self, other: &ShareSeat) -> bool
        ensures { OnTrue result ((screen : Grid Colour) → Follows screen (session_at self.now)
            → Follows screen (session_at other.now) → known_at other.now ≡ known_at self.now) }
    {
        self.session.knows_as(&other.session)
    }

    /// Whether something is known of the first place. It may say no where that is so.
    pub(crate) fn knows_first(&self) -> bool
        ensures { OnTrue result (at_or (known_at self.now) 0 0 None ≢ None) }
    {
        self.session.knows_first()
    }

    /// Whether nothing needs sending.
    pub(crate) fn is_still(&self) -> bool {
        self.session.is_still()
    }

    /// Whether so little may need sending that composing it takes less than finding twins.
    pub(crate) fn is_slight(&self) -> bool {
        self.session.is_slight()
    }

    /// The update that waits may be taken over by others, if there is memory for that.
    pub(crate) fn share(&mut self)
        ensures { IsShared self.old self.new }
    {
        self.waiting.share(self.alloc);
    }

    /// Takes over the update that was composed for a twin and is shared: it waits here too, in the
    /// same memory. Returns whether it is shared; where it is not, nothing changes.
    pub(crate) fn take_over(&mut self, screen: &Picture<Colour>, sent: &ShareSeat) -> bool
        requires follows { Follows screen.now (session_at self.old) }
        requires twin { HasComposedTwin screen.now self.old sent.now }
        ensures sends { OnTrue result (Sends screen.now self.old self.new) }
        ensures same { OnTrue result (waiting_in self.new ≡ waiting_in sent.now) }
        ensures known { OnTrue result (known_at self.new ≡ known_at sent.now) }
        ensures follows { OnTrue result (Follows screen.now (session_at self.new)) }
        ensures kept { OnFalse result (self.new ≡ self.old) }
    {
        let Waiting::Shared(bytes) = &sent.waiting else {
            return false;
        };
        let Ok(bytes) = bytes.clone() else {
            return false;
        };
        self.session.take_over(screen, &sent.session);
        self.waiting = Waiting::Shared(bytes);
        self.written = sent.written;
        true
    }

    /// Whether its viewer waits for an update.
    pub(crate) fn is_asked(&self) -> bool
        ensures { IsTrue result ↔ HasAsked (session_at self.now) }
    {
        self.session.is_asked()
    }

    /// The fault that its session has failed with, if it has.
    pub(crate) fn fault(&self) -> Option<ServerFault>
        ensures { result ≡ session_fault (session_at self.now) }
    {
        self.session.fault()
    }
}

impl Follower for ShareSeat {
    ghost use Rattle.rfb_picture.specs.Grid.{Holds};
    ghost use Rattle.rfb_server.specs.Model.{notes_in};
    ghost use Rattle.rfb_session.specs.ShareSeats.{session_at, IsNotifiedIn};

    ghost Notifiable = { λ rect seat. Holds (notes_in (session_at seat)).known rect };

    ghost Notified = { λ notice a b. IsNotifiedIn notice a b };

    fn notified(&mut self, notice: &Notice) {
        self.session.notified(notice);
    }
}
