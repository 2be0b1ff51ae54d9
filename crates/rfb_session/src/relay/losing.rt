//! A server that goes away.

ghost use Rattle.std.specs.Prelude.{◌≡◌, None};
ghost use Rattle.rfb_session.specs.console.Console.{KeepsSide};
ghost use Rattle.rfb_session.specs.relay.Server.{EndsUnlessCalled, ForgetsServer, LosesServer};
ghost use Rattle.rfb_session.specs.relay.Server.{TellsGone};

use crate::channel::Channel;
use crate::console::{Outcome, Saying, Speaker};
use crate::relay::presence::{Presence, Recall};
use crate::relay::{Gone, Relay};
use crate::slots::{SLOTS, empty};

impl<S: Speaker + Drop> Relay<S> {
    /// The server has gone away, and all ends, unless it is called again. A sentence says so once,
    /// and a line if its picture was shown. What waits for it is forgotten. The sessions of the
    /// seats are as they were.
    pub(crate) fn lose_server(&mut self, gone: Gone)
        ensures loses { LosesServer self.old gone self.new }
        ensures name { self.new.server_name ≡ self.old.server_name }
        ensures side { KeepsSide self.old.console self.new.console }
        ensures given { self.new.given ≡ self.old.given }
    {
        if self.presence.is_gone() {
            return;
        }
        let was_shown = self.presence.is_shown();
        self.presence = Presence::Gone(gone, Recall::Unplanned);
        empty(&mut self.coming);
        self.forget_server();
        let again = self.console.rules.retry;
        self.console.note(&Saying::ServerLeft { why: gone, again });
        if self.console.outcome.is_some() {
            return;
        }
        self.end_unless_called(gone);
        self.tell_gone(was_shown, gone);
    }

    // All ends, unless the server is called again.
    fn end_unless_called(&mut self, gone: Gone)
        requires { self.old.console.outcome ≡ None }
        ensures ends { EndsUnlessCalled self.old gone self.new }
        ensures given { self.new.given ≡ self.old.given }
    {
        if self.console.rules.retry.is_none() {
            self.console.outcome = Some(Outcome::ServerGone(gone));
        }
    }

    // A line says that it has gone, where its picture was shown. What was held back is shown.
    fn tell_gone(&mut self, was_shown: bool, gone: Gone)
        ensures tells { TellsGone was_shown self.old gone self.new }
        ensures given { self.new.given ≡ self.old.given }
    {
        if !was_shown {
            return;
        }
        let Some(desk) = &mut self.console.desk else {
            return;
        };
        match desk.lose_server(gone) {
            Ok(()) => {}
            Err(_) => self.console.outcome = Some(Outcome::NoMemory),
        }
    }

    /// Nothing waits for it any more.
    pub(crate) fn forget_server(&mut self)
        ensures forgets { ForgetsServer self.old self.new }
        ensures given { self.new.given ≡ self.old.given }
    {
        self.to_server = Channel::new(self.alloc);
        self.passed = [0; SLOTS];
    }
}
