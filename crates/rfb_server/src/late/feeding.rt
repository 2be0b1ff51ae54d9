//! What a session that takes memory late makes of its client's bytes.

ghost use Rattle.std.specs.Prelude.{◌≡◌, Some, Err, IfOk, IfErr};
ghost use Rattle.rfb_pixel.specs.declared.colour.Colour.{Colour};
ghost use Rattle.rfb_picture.specs.Grid.{Grid};
ghost use Rattle.rfb_server.specs.Model.{notes_in, session_fault, session_serving};
ghost use Rattle.rfb_server.specs.Record.{KeepsOrForgets};
ghost use Rattle.rfb_server.specs.Failed.{EndsAs};
ghost use Rattle.rfb_server.specs.declared.fault.ServerFault.{ServerFault};
ghost use Rattle.rfb_server.specs.declared.late.feeding.LateFault.TheVariants as LateFault;

use crate::event::ServerEvent;
use crate::fault::ServerFault;
use crate::late::LateSession;
use rfb_hello::Fed;
use std::alloc::AllocError;

/// Why a session that takes memory late takes no bytes.
#[derive(Clone, Copy, Debug, PartialEq, Eq)]
pub enum LateFault {
    /// It has ended, by what its client did wrong or for want of memory for a text.
    Session(ServerFault),
    /// There is no memory for its places.
    NoMemory,
}

impl From<ServerFault> for LateFault {
    ghost from_gives = { λ fault ends. ends ≡ LateFault.Session fault };

    fn from(fault: ServerFault) -> LateFault {
        LateFault::Session(fault)
    }
}

impl From<AllocError> for LateFault {
    ghost from_gives = { λ error ends. ends ≡ LateFault.NoMemory };

    fn from(_: AllocError) -> LateFault {
        LateFault::NoMemory
    }
}

impl LateSession {
    ghost use Rattle.rfb_server.specs.Intake.{Takes};
    ghost use Rattle.rfb_server.specs.KnownScreen.{Follows};
    ghost use Rattle.rfb_server.specs.Hints.{hints_in};

    /// Takes bytes of the client's, as `Session::feed` does. Where they may hold the last of its
    /// handshake, the memory of its places is taken first; where there is none it gives
    /// `LateFault::NoMemory`, no byte is taken and nothing has changed.
    pub fn feed(&mut self, bytes: &[u8]) -> Result<Fed<ServerEvent>, LateFault>
        // What was taken, what it was, and what is left, over whatever screen.
        ensures takes { IfOk result (λ fed. Takes bytes.now fed self.old self.new) }
        ensures made { session_serving self.new ≡ session_serving self.old }
        ensures hints { hints_in self.new ≡ hints_in self.old }
        ensures known { KeepsOrForgets (notes_in self.old).known (notes_in self.new).known }
        ensures follows { (screen : Grid Colour) → Follows screen self.old
            → Follows screen self.new }

        // When a fault comes, what is kept, and that it stays.
        ensures kept { IfErr result (λ why. (fault : ServerFault)
            → why ≡ LateFault.Session fault → EndsAs self.old bytes.now fault self.new) }
        ensures fails { IfErr result (λ why. (fault : ServerFault)
            → why ≡ LateFault.Session fault → session_fault self.new ≡ Some fault) }
        ensures failed { (fault : ServerFault) → session_fault self.old ≡ Some fault
            → (result ≡ Err (LateFault.Session fault)) × (self.new ≡ self.old) }
        ensures refused { IfErr result (λ why. why ≡ LateFault.NoMemory
            → self.new ≡ self.old) }
    {
        self.stage.enter_for(self.alloc, bytes.len())?;
        let fed = self.stage.feed(bytes)?;
        Ok(fed)
    }
}
