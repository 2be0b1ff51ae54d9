//! Whether a viewer waits for an update.

ghost use Rattle.std.specs.Prelude.{◌↔◌, IsTrue};
ghost use Rattle.rfb_server.specs.UpdateCall.{HasAsked};

use crate::session::Session;

impl Session {
    /// Whether its viewer waits for an update, RFC 6143 section 7.5.3: the handshake is done, the
    /// session has not failed, and the viewer asked for a place since the latest update. It need
    /// not lack what it asked for, so `compose` may have nothing to send all the same. It looks at
    /// no screen, and passes over 64 cells of 64 by 64 places at once where none is asked.
    pub fn is_asked(&self) -> bool
        ensures { IsTrue result ↔ HasAsked self.now }
    {
        self.is_ready() && self.area.asked().next_cell(0).is_some()
    }
}
