//! A desk whose screen is a server's.

ghost use Rattle.std.specs.Prelude.{◌≡◌, ◌≤◌, ◌↔◌, length, IfOk, IfErr, IfSome, OnOk, None};
ghost use Rattle.rfb_viewer.specs.Call.{text_in};
ghost use Rattle.rfb_session.specs.Share.{viewer_of};
ghost use Rattle.rfb_session.specs.relay.Desk.{IsOver, HoldsWithin, IsBetween, FeedsDesk};
ghost use Rattle.rfb_session.specs.relay.Desk.{FailsDesk};
ghost use Rattle.rfb_session.specs.relay.Desk.{TellsSome, told_of_server, LosesDesk};
ghost use Rattle.rfb_session.specs.relay.Desk.{CallsDesk, whole_of, ShowsAgain, BeginsAnew};
ghost use Rattle.rfb_session.specs.relay.Desk.{TellsServer, up_of};
ghost use Rattle.rfb_session.specs.Mirrors.{StandsOrFailed};
ghost use Rattle.rfb_session.specs.ShareWaiters.{SomeAsked};

use crate::channel::Channel;
use crate::console::desk::{Desk, Hold, LINES_ROOM};
use crate::console::plan::Rules;
use crate::relay::Gone;
use crate::relay::lines::{tell_bell, tell_down, tell_server_text, tell_up};
use crate::seat::Seat;
use crate::seats::Seats;
use crate::share::Share;
use crate::slots::{SLOTS, put};
use rfb_hello::Fed;
use rfb_picture::Rect;
use rfb_viewer::{AppendFault, Call, Viewer, ViewerEvent, ViewerFault};
use std::alloc::Global;
use std::io;

impl Desk {
    /// A desk of a share over a server's picture, without a viewer. A line says that the server is
    /// there, and its name.
    pub(crate) fn over(alloc: Global, share: Share, rules: Rules, name: &[u8]) -> io::Result<Desk>
        ensures { IfOk result (IsOver share rules name.now) }
    {
        let mut lines = Vec::with_capacity(alloc, LINES_ROOM)?;
        let picture = share.picture();
        tell_up(&mut lines, picture.width(), picture.height(), name)?;
        Ok(Desk::of(share, lines, rules))
    }

    /// Takes bytes of the server's, as `Share::feed` does. Where they end inside a message, updates
    /// are held back from then on.
    pub(crate) fn hear_server(
        &mut self,
        bytes: &[u8],
    ) -> Option<Result<Fed<ViewerEvent>, ViewerFault>>
        ensures none { result ≡ None ↔ viewer_of self.old.share ≡ None }
        ensures kept { result ≡ None → HoldsWithin self.old self.new }
        ensures feeds { IfSome result (λ told. IfOk told (λ fed.
            FeedsDesk self.old bytes.now fed self.new)) }
        ensures fails { IfSome result (λ told. IfErr told (λ fault.
            FailsDesk self.old bytes.now fault self.new)) }
    {
        let heard = self.share.feed(bytes);
        self.hold_within();
        heard
    }

    // Updates are held back while a message of the server's comes.
    fn hold_within(&mut self)
        ensures { HoldsWithin self.old self.new }
    {
        if self.is_between() {
            self.hold(Hold::Shown);
        } else if self.hold == Hold::Shown {
            self.hold(Hold::Begins);
        }
    }

    // Whether no message of the server's is on its way, for all that is known.
    fn is_between(&self) -> bool
        ensures { IsBetween self.now.share result }
    {
        match self.share.viewer() {
            Some(viewer) => viewer.between(),
            None => true,
        }
    }

    /// The server has gone away, and a line says so. What has come of its picture is shown.
    pub(crate) fn lose_server(&mut self, gone: Gone) -> io::Result<()>
        ensures told { OnOk result (LosesDesk self.old gone self.new) }
        ensures share { self.new.share ≡ self.old.share }
    {
        self.hold(Hold::Shown);
        tell_down(&mut self.lines, gone)
    }

    /// The picture of another viewer of the server's is shown in place of the one that was, which
    /// has the same size. Else the viewer is given back, and nothing changes.
    pub(crate) fn show_again(&mut self, viewer: Viewer) -> Result<(), Viewer>
        requires stands { ∥ StandsOrFailed viewer ∥₁ }
        ensures shown { OnOk result (ShowsAgain self.old viewer self.new) }
        ensures refused { IfErr result (λ same. (same ≡ viewer) × (self.new ≡ self.old)) }
    {
        self.share.show(viewer)?;
        self.hold(Hold::Shown);
        Ok(())
    }

    /// Another share, without a viewer, is shown in place of the one that was. The viewers of that
    /// one are disconnected, and a line reports each. An error is want of memory for a line.
    pub(crate) fn begin_anew(&mut self, share: Share) -> io::Result<()>
        ensures { OnOk result (BeginsAnew self.old share self.new) }
    {
        self.let_all_go(Seats::all())?;
        self.hold(Hold::Shown);
        put(&mut self.share, share);
        self.came = false;
        Ok(())
    }

    /// The seats that are taken.
    pub(crate) fn here(&self) -> Seats {
        let mut seats = Seats::none();
        for place in 0..SLOTS {
            if self.guests[place].is_here() {
                seats = seats.with(Seat::at(place));
            }
        }
        seats
    }

    /// A line says that the server shows its screen, and its name.
    pub(crate) fn tell_up(&mut self, name: &[u8]) -> io::Result<()>
        ensures { OnOk result (TellsServer self.old (up_of self.old.share name.now) self.new) }
    {
        let (width, height) = self.size();
        tell_up(&mut self.lines, width, height, name)
    }

    /// What the server did is reported, if it rang a bell or cut a text. Neither is passed on.
    pub(crate) fn tell_of_server(&mut self, event: &Option<ViewerEvent>) -> io::Result<()>
        ensures { OnOk result (TellsSome self.old (told_of_server event.now) self.new) }
    {
        match event {
            Some(ViewerEvent::Bell) => tell_bell(&mut self.lines),
            Some(ViewerEvent::CutText { kept, .. }) => tell_server_text(&mut self.lines, kept),
            Some(
                ViewerEvent::Reply(_)
                | ViewerEvent::Ready { .. }
                | ViewerEvent::UpdateDone
                | ViewerEvent::ColourMapSkipped,
            )
            | None => Ok(()),
        }
    }

    /// The message of a call waits for the server.
    pub(crate) fn call_server(
        &mut self,
        call: &Call<'_>,
        to_server: &mut Channel,
    ) -> Result<(), AppendFault>
        requires few { length (text_in call.now) ≤ 1048576 }
        ensures { CallsDesk self.old call.now to_server.old result to_server.new self.new }
    {
        to_server.send_for(&mut self.share, call)
    }

    /// The whole screen, if some viewer waits for an update of it.
    pub(crate) fn wanted(&self) -> Option<Rect>
        ensures some { IfSome result (λ r.
            SomeAsked self.now.share × (r ≡ whole_of self.now.share)) }
        ensures none { result ≡ None → SomeAsked self.now.share → ⊥ }
    {
        if !self.share.is_asked() {
            return None;
        }
        let (width, height) = self.size();
        Some(Rect::whole(width, height))
    }
}
