//! A server that went away is called again.

ghost use Rattle.std.specs.Prelude.{◌≡◌};
ghost use Rattle.rfb_session.specs.relay.Server.{PlansCall};
ghost use Rattle.rfb_session.specs.relay.Relay.{IsCalledAgain, is_due};

use crate::console::Speaker;
use crate::console::guest::sooner;
use crate::relay::Relay;
use crate::relay::presence::Presence;
use crate::slots::seat_in;

impl<S: Speaker + Drop> Relay<S> {
    /// Whether the server is to be called now.
    pub(crate) fn is_due(&self) -> bool
        ensures { result ≡ is_due self.now }
    {
        self.console.outcome.is_none() && self.presence.is_called()
    }

    /// Where the server went away and is to be called again, the turn in which it is called is
    /// wanted.
    pub(crate) fn plan_call(&mut self, now: u64)
        ensures plans { PlansCall self.old now self.new }
        ensures given { self.new.given ≡ self.old.given }
    {
        let Some(pause) = self.console.rules.retry else {
            return;
        };
        if self.console.outcome.is_some() {
            return;
        }
        self.presence = self.presence.planned(now, pause);
        self.console.next = sooner(self.console.next, self.presence.call_time());
    }

    /// The server that was called comes: nothing that it sent is known, and nothing waits for it.
    pub(crate) fn begin_again(&mut self)
        ensures begins { IsCalledAgain self.old self.new }
        ensures given { self.new.given ≡ self.old.given }
    {
        self.forget_server();
        let viewer = self.given.next_viewer(self.alloc);
        self.presence = Presence::Coming;
        seat_in(&mut self.coming, viewer);
        self.open_server();
    }
}
