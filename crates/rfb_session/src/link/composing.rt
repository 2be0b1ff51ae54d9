//! Composings of a link.

ghost use Rattle.std.specs.Prelude.{◌≡◌, ◌≢◌, IfOk, OnErr, IsOk, None};
ghost use Rattle.rfb_session.specs.declared.event.Event.TheVariants.{Compose};

use crate::link::Link;
use crate::told::{NoMemory, Told};
use rfb_picture::Picture;
use rfb_pixel::Colour;

impl Link {
    ghost use Rattle.rfb_server.specs.KnownScreen.{Follows};
    ghost use Rattle.rfb_session.specs.LinkModel.{LinkDoesOver, session_of_link};
    ghost use Rattle.rfb_server.specs.UpdateCall.{OwesUpdate};
    ghost use Rattle.rfb_session.specs.LinkModel.{ComposesNothingOver, server_fault_of};
    ghost use Rattle.rfb_session.specs.LinkBytes.{ComposesOver, SpendsHints};
    ghost use Rattle.rfb_session.specs.Told.{TellsAlone};

    /// The session composes an update, if one is due, and it is in flight then. It borrows the
    /// screen, and has to follow it. What the update was composed of is noted. A session that has
    /// failed composes none. Memory can be wanting for the update.
    pub fn compose(&mut self, screen: &Picture<Colour>) -> Result<Told, NoMemory>
        requires follows { Follows screen.now (session_of_link self.old) }
        ensures bytes { IfOk result (λ told. ComposesOver screen.now self.old told self.new) }
        ensures does { IfOk result (λ told.
            LinkDoesOver screen.now self.old Compose told self.new) }
        ensures hints { IfOk result (λ told. SpendsHints self.old told self.new) }
        ensures taken { IfOk result (λ told. told.refused ≡ None) }
        ensures tells { IfOk result (λ told. TellsAlone Compose told) }
        ensures follows { Follows screen.now (session_of_link self.new) }
        ensures idle { ComposesNothingOver screen.now self.old → IsOk result }
        ensures due { OnErr result (OwesUpdate screen.now (session_of_link self.old)) }
        ensures failed { server_fault_of self.old ≢ None → IsOk result }
    {
        self.latest.begin(self.session.asked());
        let composed = self.to_viewer.send_update(&mut self.session, screen)?;
        if !composed {
            return Ok(Told::of_composed(false));
        }
        self.latest.note(screen, self.session.format());
        Ok(Told::of_composed(true))
    }
}
