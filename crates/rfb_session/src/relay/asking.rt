//! Updates that the server is asked for.

ghost use Rattle.std.specs.Prelude.{◌≡◌};
ghost use Rattle.rfb_session.specs.relay.Presence.{is_shown};
ghost use Rattle.rfb_session.specs.relay.Calls.{Asks};
ghost use Rattle.rfb_session.specs.relay.Doors.{KeepsButDesk};

use crate::console::{Outcome, Speaker};
use crate::relay::Relay;
use rfb_viewer::{AppendFault, Call};

impl<S: Speaker + Drop> Relay<S> {
    /// The server is asked for what has changed of its screen, if its picture is shown, some viewer
    /// waits for an update and no request is outstanding.
    pub(crate) fn ask(&mut self)
        ensures asks { Asks (is_shown self.old.presence) self.old.console.outcome
            self.old.console.desk self.new.console.desk
            self.old.to_server self.new.to_server self.new.console.outcome }
        ensures keeps { KeepsButDesk self.old self.new }
        ensures given { self.new.given ≡ self.old.given }
    {
        if !self.presence.is_shown() {
            return;
        }
        if self.console.outcome.is_some() {
            return;
        }
        let Some(desk) = &mut self.console.desk else {
            return;
        };
        let Some(rect) = desk.wanted() else {
            return;
        };
        let call = Call::Request {
            incremental: true,
            rect,
        };
        match desk.call_server(&call, &mut self.to_server) {
            Ok(()) => {}
            // One is outstanding.
            Err(AppendFault::Refused(_)) => {}
            Err(AppendFault::NoMemory) => self.console.outcome = Some(Outcome::NoMemory),
        }
    }
}
