//! Where a session that takes memory late is, and how it takes it.

ghost use Rattle.std.specs.Prelude.{◌≡◌, ◌<◌, ℕ, length, None, Some, IfSome};
ghost use Rattle.std.specs.Prelude.{IfOk, IfErr, Err, OnOk, OnErr};
ghost use Rattle.std.specs.Bool.{OnTrue, OnFalse};
ghost use Rattle.rfb_pixel.specs.declared.colour.Colour.{Colour};
ghost use Rattle.rfb_picture.specs.Grid.{Grid};
ghost use Rattle.rfb_server.specs.declared.fault.ServerFault.{ServerFault};
ghost use Rattle.rfb_server.specs.Late.{session_of_stage};
ghost use Rattle.rfb_server.specs.session.NewSession.{IsReadyFor, AreFor, IsMoved};

use crate::event::ServerEvent;
use crate::fault::ServerFault;
use crate::late::entrance::Entrance;
use crate::session::Session;
use crate::session::places::Places;
use rfb_hello::Fed;
use std::alloc::{AllocError, Global};
use std::mem;

/// Where a session is.
#[derive(Debug, Drop)]
pub(crate) enum Stage {
    /// In its handshake, without the memory of its places.
    Entering(Entrance),
    /// It has all that it will have.
    Within(Session),
}

impl Stage {
    ghost use Rattle.rfb_server.specs.Failed.{EndsAs};
    ghost use Rattle.rfb_server.specs.KnownScreen.{Follows};
    ghost use Rattle.rfb_server.specs.Hints.{hints_in};
    ghost use Rattle.rfb_server.specs.Model.{notes_in, session_fault, session_serving};
    ghost use Rattle.rfb_server.specs.Record.{KeepsOrForgets};
    ghost use Rattle.rfb_server.specs.Intake.{Takes};

    /// Where so many bytes may hold the last of its handshake, the memory of its places is taken.
    /// Where there is none nothing changes.
    pub fn enter_for(&mut self, alloc: Global, count: usize) -> Result<(), AllocError>
        ensures moved { IsMoved (session_of_stage self.old) (session_of_stage self.new) }
        ensures ready { OnOk result (IsReadyFor count self.new) }
        ensures kept { OnErr result (self.new ≡ self.old) }
        ensures going { OnErr result (session_fault (session_of_stage self.old) ≡ None) }
        ensures failed { (fault : ServerFault)
            → session_fault (session_of_stage self.old) ≡ Some fault → self.new ≡ self.old }
    {
        if self.is_ready_for(count) {
            return Ok(());
        }
        let blank = Entrance::blank(alloc)?;
        self.enter(blank)
    }

    // Whether it has what it needs to be fed so many bytes.
    fn is_ready_for(&self, count: usize) -> bool
        ensures ready { OnTrue result (IsReadyFor count self.now) }
        ensures going { OnFalse result (session_fault (session_of_stage self.now) ≡ None) }
    {
        match self {
            Stage::Entering(entrance) => {
                entrance.ended.is_some() || count < entrance.hello.left()
            }
            Stage::Within(_) => true,
        }
    }

    // It takes the memory of its places, if it lacks it. The blank takes its place meanwhile.
    fn enter(&mut self, blank: Entrance) -> Result<(), AllocError>
        ensures moved { IsMoved (session_of_stage self.old) (session_of_stage self.new) }
        ensures ready { (count : ℕ) → OnOk result (IsReadyFor count self.new) }
        ensures kept { OnErr result (self.new ≡ self.old) }
    {
        let Some(places) = self.places()? else {
            return Ok(());
        };
        let stage = mem::replace(self, Stage::Entering(blank));
        *self = with_places(stage, places);
        Ok(())
    }

    // The memory of its places, if it lacks it.
    fn places(&self) -> Result<Option<Places>, AllocError>
        ensures places { IfOk result (λ places. IfSome places (AreFor self.now)) }
        ensures none { IfOk result (λ places. places ≡ None
            → (count : ℕ) → IsReadyFor count self.now) }
    {
        let Stage::Entering(entrance) = self else {
            return Ok(None);
        };
        let places = Places::new(entrance.alloc, entrance.width, entrance.height)?;
        Ok(Some(places))
    }

    /// Takes bytes of the client's, as `Session::feed` does.
    pub fn feed(&mut self, bytes: &[u8]) -> Result<Fed<ServerEvent>, ServerFault>
        requires ready { IsReadyFor (length bytes.now) self.old }
        ensures takes { IfOk result (λ fed. Takes bytes.now fed
            (session_of_stage self.old) (session_of_stage self.new)) }
        ensures made { session_serving (session_of_stage self.new)
            ≡ session_serving (session_of_stage self.old) }
        ensures hints { hints_in (session_of_stage self.new)
            ≡ hints_in (session_of_stage self.old) }
        ensures known { KeepsOrForgets (notes_in (session_of_stage self.old)).known
            (notes_in (session_of_stage self.new)).known }
        ensures follows { (screen : Grid Colour) → Follows screen (session_of_stage self.old)
            → Follows screen (session_of_stage self.new) }
        ensures kept { IfErr result (λ fault.
            EndsAs (session_of_stage self.old) bytes.now fault (session_of_stage self.new)) }
        ensures fails { IfErr result (λ fault.
            session_fault (session_of_stage self.new) ≡ Some fault) }
        ensures failed { (fault : ServerFault)
            → session_fault (session_of_stage self.old) ≡ Some fault
            → (result ≡ Err fault) × (self.new ≡ self.old) }
    {
        match self {
            Stage::Entering(entrance) => entrance.greet(bytes),
            Stage::Within(session) => session.feed(bytes),
        }
    }
}

// The stage with the memory of its places, which it lacks.
fn with_places(stage: Stage, places: Places) -> Stage
    requires { AreFor stage places }
    ensures moved { IsMoved (session_of_stage stage) (session_of_stage result) }
    ensures ready { (count : ℕ) → IsReadyFor count result }
{
    let Stage::Entering(entrance) = stage else {
        unreachable!()
    };
    Stage::Within(Session::entering(entrance, places))
}
