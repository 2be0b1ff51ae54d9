//! A session that takes the memory of its places once its handshake is about to be done.

ghost use Rattle.std.specs.Prelude.{◌≡◌, ◌≢◌, ◌≤◌, ◌+◌, ◌++◌, ◌↔◌, ℕ, List, [], length, vec_len};
ghost use Rattle.std.specs.Prelude.{Ok, None, IfOk, OnErr, IsTrue, true, false};
ghost use Rattle.std.specs.Bool.{OnTrue};
ghost use Rattle.std.specs.Vec.{vec_capacity};

pub(crate) mod entrance;
mod feeding;
mod stage;

use crate::drawing::Notice;
use crate::fault::ServerFault;
use crate::late::entrance::Entrance;
use crate::late::stage::Stage;
use crate::session::Session;
use crate::setup::ServerSetup;
pub use feeding::LateFault;
use rfb_picture::Picture;
use rfb_pixel::Colour;
use std::alloc::{AllocError, Global};
use std::marker::Model;

/// A session as `Session` is, but for when it takes memory. The memory of its places is nearly all
/// of it, and is taken where the client's handshake may end. A connection that sends nothing costs
/// little more than its name. Contracts say what session it is.
#[derive(Debug, Drop)]
pub struct LateSession {
    alloc: Global,
    stage: Stage,
}

impl Model for LateSession {
    ghost use Rattle.rfb_server.specs.declared.session.Session.{Session};
    ghost use Rattle.rfb_server.specs.Late.{session_of_stage};

    ghost Value = { Session };

    ghost view = { λ late. session_of_stage late.stage };
}

impl LateSession {
    ghost use Rattle.rfb_pixel.specs.declared.colour.Colour.{Colour};
    ghost use Rattle.rfb_picture.specs.Grid.{Grid, Holds, at_or};
    ghost use Rattle.rfb_server.specs.Twins.{AreTwins, HasSentTwin};
    ghost use Rattle.rfb_hello.specs.Version.{version_text};
    ghost use Rattle.rfb_server.specs.Server.{Serving, ServerState};
    ghost use Rattle.rfb_server.specs.Model.{SessionStandsFor, serving_with};
    ghost use Rattle.rfb_server.specs.Model.{KeepsSession, notes_in, session_fault};
    ghost use Rattle.rfb_server.specs.KnownScreen.{Follows};
    ghost use Rattle.rfb_server.specs.Hints.{hints_in};
    ghost use Rattle.rfb_server.specs.declared.session.Session.{Session};
    ghost use Rattle.rfb_server.specs.UpdateCall.{SendsUpdate, OwesUpdate, OwesNone, HasAsked};
    ghost use Rattle.rfb_server.specs.Intake.{IsUnfed, TakesNotice};
    ghost use Rattle.rfb_server.specs.Room.{GrowsWithin, update_room};

    /// A session that was fed nothing, as `Session::new` makes it. It asks for the memory of its
    /// hints alone; where there is none it gives the error, and nothing is kept.
    pub fn new(alloc: Global, setup: ServerSetup) -> Result<LateSession, AllocError>
        requires columns { setup.width ≤ 4096 }
        requires rows { setup.height ≤ 4096 }
        requires name { length setup.name.now ≤ 255 }
        ensures { let setup = setup.entry in
            let serving = serving_with setup.offer setup.width setup.height setup.name.now
            setup.text_limit in
            IfOk result (IsUnfed serving) }
    {
        let entrance = Entrance::new(alloc, setup)?;
        let stage = Stage::Entering(entrance);
        Ok(LateSession { alloc, stage })
    }

    /// The ProtocolVersion that is sent before all else, RFC 6143 section 7.1.1.
    pub fn greeting(&self) -> [u8; 12]
        ensures { (serving : Serving) (screen : Grid Colour) (s : ServerState) (prefix : List ℕ)
            → SessionStandsFor serving screen self.now s prefix
            → result ≡ version_text serving.hello.offer }
    {
        match &self.stage {
            Stage::Entering(entrance) => entrance.hello.greeting(),
            Stage::Within(session) => session.greeting(),
        }
    }

    /// Takes what it is told of a drawing, as `Session::notified` does.
    pub fn notified(&mut self, notice: &Notice)
        requires { Holds (notes_in self.old).known notice.now.area }
        ensures { TakesNotice notice.now self.old self.new }
    {
        match &mut self.stage {
            Stage::Entering(entrance) => entrance.hinted(notice),
            Stage::Within(session) => session.notified(notice),
        }
    }

    /// Appends to `out` the update that is due, as `Session::compose` does. Before its handshake is
    /// done none is.
    pub fn compose(
        &mut self,
        screen: &Picture<Colour>,
        out: &mut Vec<u8>,
    ) -> Result<bool, AllocError>
        requires follows { Follows screen.now self.old }
        ensures follows { Follows screen.now self.new }
        ensures appended { (bytes : List ℕ) × (out.new.items ≡ out.old.items ++ bytes) }
        ensures composed { IfOk result (λ did. did ≡ true →
            SendsUpdate screen.now self.old self.new out.old.items out.new.items) }
        ensures idle { IfOk result (λ did. did ≡ false →
            OwesNone screen.now self.old self.new out.old.items out.new.items) }
        ensures kept { OnErr result (out.new.items ≡ out.old.items) }
        ensures due { OnErr result (OwesUpdate screen.now self.old) }
        ensures same { OnErr result (KeepsSession self.old self.new) }
        ensures failed { session_fault self.old ≢ None → result ≡ Ok false }
        ensures spent { IfOk result (λ did. did ≡ true → hints_in self.new ≡ []) }
        ensures hints { IfOk result (λ did. did ≡ false → hints_in self.new ≡ hints_in self.old) }
        ensures unspent { OnErr result (hints_in self.new ≡ hints_in self.old) }
        ensures room { GrowsWithin (vec_capacity out.old)
            (vec_len out.old + update_room self.old) (vec_capacity out.new) }
    {
        match &mut self.stage {
            Stage::Entering(_) => Ok(false),
            Stage::Within(session) => session.compose(screen, out),
        }
    }

    /// Whether an update for `other` is one for this session too, as by `Session::is_twin_of`:
    /// never before both handshakes are done.
    pub fn is_twin_of(&self, other: &LateSession, knows_same: bool) -> bool
        requires same { knows_same ≡ true
            → (notes_in other.now).known ≡ (notes_in self.now).known }
        ensures { OnTrue result ((screen : Grid Colour) → Follows screen self.now
            → Follows screen other.now → AreTwins other.now self.now) }
    {
        match (&self.stage, &other.stage) {
            (Stage::Within(session), Stage::Within(other)) => {
                session.is_twin_of(other, knows_same)
            }
            _ => false,
        }
    }

    /// Whether both viewers are known to have the same, as by `Session::knows_as`: never before
    /// both handshakes are done.
    pub fn knows_as(&self, other: &LateSession) -> bool
        ensures { OnTrue result ((screen : Grid Colour) → Follows screen self.now
            → Follows screen other.now → (notes_in other.now).known ≡ (notes_in self.now).known) }
    {
        match (&self.stage, &other.stage) {
            (Stage::Within(session), Stage::Within(other)) => session.knows_as(other),
            _ => false,
        }
    }

    /// Whether nothing needs sending, as by `Session::is_still`: so it is before its handshake is
    /// done.
    pub fn is_still(&self) -> bool {
        match &self.stage {
            Stage::Entering(_) => true,
            Stage::Within(session) => session.is_still(),
        }
    }

    /// Whether so little may need sending that no twin is worth finding, as by
    /// `Session::is_slight`: so it is before its handshake is done.
    pub fn is_slight(&self) -> bool {
        match &self.stage {
            Stage::Entering(_) => true,
            Stage::Within(session) => session.is_slight(),
        }
    }

    /// Takes over the update that a twin of it was sent, as `Session::take_over` does.
    pub fn take_over(&mut self, screen: &Picture<Colour>, sent: &LateSession)
        requires follows { Follows screen.now self.old }
        requires sent { HasSentTwin screen.now self.old sent.now }
        ensures follows { Follows screen.now self.new }
        ensures sends { (was : Session) (before after : List ℕ) → AreTwins was self.old
            → SendsUpdate screen.now was sent.now before after
            → SendsUpdate screen.now self.old self.new before after }
        ensures known { (notes_in self.new).known ≡ (notes_in sent.now).known }
        ensures spent { hints_in self.new ≡ [] }
    {
        match &mut self.stage {
            Stage::Within(session) => match &sent.stage {
                Stage::Within(sent) => session.take_over(screen, sent),
                Stage::Entering(_) => unreachable!(),
            },
            Stage::Entering(_) => unreachable!(),
        }
    }

    /// Whether its viewer waits for an update, as by `Session::is_asked`: never before its
    /// handshake is done.
    pub fn is_asked(&self) -> bool
        ensures { IsTrue result ↔ HasAsked self.now }
    {
        match &self.stage {
            Stage::Entering(_) => false,
            Stage::Within(session) => session.is_asked(),
        }
    }

    /// Whether it is known what its viewer has at the first place, as by `Session::knows_first`:
    /// never before its handshake is done.
    pub fn knows_first(&self) -> bool
        ensures { OnTrue result (at_or (notes_in self.now).known 0 0 None ≢ None) }
    {
        match &self.stage {
            Stage::Entering(_) => false,
            Stage::Within(session) => session.knows_first(),
        }
    }

    /// The fault that it has failed with, if it has.
    pub fn fault(&self) -> Option<ServerFault>
        ensures { result ≡ session_fault self.now }
    {
        match &self.stage {
            Stage::Entering(entrance) => entrance.ended,
            Stage::Within(session) => session.fault(),
        }
    }
}
