//! The picture of a server's whose first update is whole.

ghost use Rattle.std.specs.Prelude.{◌≡◌, ◌≢◌, None};
ghost use Rattle.rfb_session.specs.Mirrors.{StandsOrFailed};
ghost use Rattle.rfb_session.specs.console.Console.{KeepsSide, KeepsButNotes};
ghost use Rattle.rfb_session.specs.relay.Doors.{KeepsServer};
ghost use Rattle.rfb_session.specs.relay.Server.{Opens, OpensAnew, TellsUp};

use crate::console::desk::Desk;
use crate::console::{Outcome, Saying, Speaker, Why};
use crate::relay::presence::Presence;
use crate::relay::{Gone, Relay};
use crate::share::Share;
use crate::slots::seat_in;
use rfb_viewer::Viewer;

impl<S: Speaker + Drop> Relay<S> {
    /// Its picture is shown. If it is the first, viewers may come. Else it takes the place of the
    /// one that was shown; if its screen has another size, they are disconnected.
    ///
    /// It is no part of its callers: its stack is large, and most bytes of a server open nothing.
    #[inline(never)]
    pub(crate) fn open(&mut self, viewer: Viewer)
        requires stands { ∥ StandsOrFailed viewer ∥₁ }
        ensures opens { Opens self.old viewer self.new }
        ensures name { self.new.server_name ≡ self.old.server_name }
        ensures side { KeepsSide self.old.console self.new.console }
        ensures given { self.new.given ≡ self.old.given }
    {
        match &mut self.console.desk {
            None => self.open_first(viewer),
            Some(desk) => match desk.show_again(viewer) {
                Ok(()) => self.tell_up(),
                Err(viewer) => self.open_anew(viewer),
            },
        }
    }

    // The first picture is shown: viewers may come.
    fn open_first(&mut self, viewer: Viewer)
        requires stands { ∥ StandsOrFailed viewer ∥₁ }
        requires none { self.old.console.desk ≡ None }
        ensures opens { Opens self.old viewer self.new }
        ensures name { self.new.server_name ≡ self.old.server_name }
        ensures side { KeepsSide self.old.console self.new.console }
        ensures given { self.new.given ≡ self.old.given }
    {
        let rules = self.console.rules;
        let told = self.server_name.as_slice();
        let name = self.given.name(told);
        match Share::of_viewer(self.alloc, viewer, name, rules.text_limit) {
            Ok(share) => match Desk::over(self.alloc, share, rules, told) {
                Ok(desk) => {
                    seat_in(&mut self.console.desk, desk);
                    self.presence = Presence::Shown;
                }
                Err(_) => self.console.outcome = Some(Outcome::NoMemory),
            },
            Err(viewer) => self.lose_server(not_shown(&viewer)),
        }
    }

    // Its screen has another size than the one that was shown: the viewers are disconnected, and
    // others may come.
    fn open_anew(&mut self, viewer: Viewer)
        requires stands { ∥ StandsOrFailed viewer ∥₁ }
        requires some { self.old.console.desk ≢ None }
        ensures opens { Opens self.old viewer self.new }
        ensures name { self.new.server_name ≡ self.old.server_name }
        ensures side { KeepsSide self.old.console self.new.console }
        ensures given { self.new.given ≡ self.old.given }
    {
        let name = self.given.name(self.server_name.as_slice());
        let limit = self.console.rules.text_limit;
        match Share::of_viewer(self.alloc, viewer, name, limit) {
            Ok(share) => self.begin_anew(share),
            Err(viewer) => self.lose_server(not_shown(&viewer)),
        }
    }

    fn begin_anew(&mut self, share: Share)
        requires some { self.old.console.desk ≢ None }
        ensures opens { OpensAnew self.old share self.new }
        ensures name { self.new.server_name ≡ self.old.server_name }
        ensures side { KeepsSide self.old.console self.new.console }
        ensures given { self.new.given ≡ self.old.given }
    {
        self.note_new_size(&share);
        let Some(desk) = &mut self.console.desk else {
            return;
        };
        match desk.begin_anew(share) {
            Ok(()) => self.tell_up(),
            Err(_) => self.console.outcome = Some(Outcome::NoMemory),
        }
    }

    // Sentences say why the viewers are disconnected.
    fn note_new_size(&mut self, share: &Share)
        ensures notes { KeepsButNotes self.old.console self.new.console }
        ensures server { KeepsServer self.old self.new }
        ensures given { self.new.given ≡ self.old.given }
    {
        let Some(desk) = &self.console.desk else {
            return;
        };
        let seats = desk.here();
        let picture = share.picture();
        let why = Why::NewSize {
            width: picture.width(),
            height: picture.height(),
        };
        self.console.note_all_left(seats, why);
    }

    // A server that was called shows its screen: a sentence, and a line.
    fn tell_up(&mut self)
        ensures tells { TellsUp self.old self.new }
        ensures name { self.new.server_name ≡ self.old.server_name }
        ensures side { KeepsSide self.old.console self.new.console }
        ensures given { self.new.given ≡ self.old.given }
    {
        self.presence = Presence::Shown;
        self.console.note(&Saying::ServerBack);
        let Some(desk) = &mut self.console.desk else {
            return;
        };
        match desk.tell_up(self.server_name.as_slice()) {
            Ok(()) => {}
            Err(_) => self.console.outcome = Some(Outcome::NoMemory),
        }
    }
}

// How a server whose picture is not shown goes.
fn not_shown(viewer: &Viewer) -> Gone {
    match viewer.picture() {
        Some(picture) => Gone::Size {
            width: picture.width(),
            height: picture.height(),
        },
        None => Gone::Device,
    }
}
