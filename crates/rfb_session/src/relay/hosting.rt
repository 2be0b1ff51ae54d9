//! A relay as a host: who is let in, and where.

ghost use Rattle.std.specs.Prelude.{◌≡◌};
ghost use Rattle.rfb_session.specs.console.Console.{is_welcome};
ghost use Rattle.rfb_session.specs.relay.Relay.{DeclinesRelay, OpensRelay};
ghost use Rattle.rfb_session.specs.relay.Relay.{is_due, is_ended, some_wait};

use crate::console::Speaker;
use crate::doors::{Core, Host};
use crate::relay::{Relay, SERVER};
use crate::slots::SLOTS;

impl<S: Speaker + Drop> Host for Relay<S> {
    ghost opens = { OpensRelay };

    ghost declines = { DeclinesRelay };

    ghost welcoming = { λ relay. is_welcome relay.console };

    ghost calling = { is_due };

    ghost done = { is_ended };

    fn welcomes(&self) -> bool {
        self.console.welcomes()
    }

    fn calls(&self) -> bool {
        self.is_due()
    }

    fn opened(&mut self, doors: usize, from: &str) -> Option<usize> {
        if !self.is_due() {
            return self.console.opened(doors, from);
        }
        if doors == 0 {
            return None;
        }
        self.begin_again();
        Some(SERVER)
    }

    /// What waits for viewers is written yet, for as long as the console's patience lasts.
    fn is_done(&self) -> bool {
        self.console.is_done() && (self.console.is_over || !self.do_viewers_wait())
    }
}

impl<S: Speaker + Drop> Relay<S> {
    // Whether bytes wait for some viewer.
    fn do_viewers_wait(&self) -> bool
        ensures { result ≡ some_wait 8 self.now.console }
    {
        let mut wait = false;
        for place in 0..SLOTS {
            wait |= !self.console.to_write(place + 1).is_empty();
        }
        wait
    }
}
