//! What viewers do that is passed on to the server.

ghost use Rattle.std.specs.Prelude.{◌≡◌, ◌≤◌, ◌<◌, ◌||◌, false, not, length};
ghost use Rattle.rfb_viewer.specs.Call.{text_in, message_bytes, is_noted};
ghost use Rattle.rfb_session.specs.console.Console.{KeepsSide};
ghost use Rattle.rfb_session.specs.relay.Presence.{is_shown};
ghost use Rattle.rfb_session.specs.relay.Calls.{Passes, PassesOn, passed};
ghost use Rattle.rfb_session.specs.relay.Doors.{CountsPassed, KeepsButDesk};
ghost use Rattle.rfb_session.specs.relay.Relay.{HearsViewer};

use crate::beginning::beginning_of;
use crate::console::{Outcome, Speaker};
use crate::relay::Relay;
use crate::seat::Seat;
use crate::share::event::SeatEvent;
use rfb_viewer::{AppendFault, Call};

/// How many bytes of a text are sent to a server at most.
pub(crate) const TEXT_MOST: usize = 1 << 20;

impl<S: Speaker + Drop> Relay<S> {
    /// Takes bytes of the viewer of a seat. A key, a pointer or a text is passed on to the server,
    /// unless viewers only view or its picture is not shown.
    pub(crate) fn hear_viewer(&mut self, seat: Seat, bytes: &[u8]) -> usize
        requires some { 0 < length bytes.now }
        ensures used { (0 < result) × (result ≤ length bytes.now) }
        ensures hears { HearsViewer self.old seat bytes.now result self.new }
        ensures side { KeepsSide self.old.console self.new.console }
        ensures given { self.new.given ≡ self.old.given }
    {
        let said = self.console.hear_seat(seat, bytes);
        let before = self.to_server.len();
        self.pass(said.event);
        self.count_passed(seat, before);
        said.used
    }

    // What a viewer did is passed on to the server.
    fn pass(&mut self, event: Option<SeatEvent>)
        ensures passes { Passes
            (passed (self.old.console.rules.view_only || not (is_shown self.old.presence)) event)
            self.old.console.desk self.new.console.desk self.old.to_server self.new.to_server
            self.old.console.outcome self.new.console.outcome }
        ensures keeps { KeepsButDesk self.old self.new }
        ensures given { self.new.given ≡ self.old.given }
    {
        if self.console.rules.view_only || !self.presence.is_shown() {
            return;
        }
        match event {
            Some(SeatEvent::Key { down, key }) => self.pass_call(&Call::Key { down, key }),
            Some(SeatEvent::Pointer { buttons, x, y }) => {
                self.pass_call(&Call::Pointer { buttons, x, y });
            }
            Some(SeatEvent::CutText { kept, .. }) => {
                self.pass_call(&Call::CutText(beginning_of(&kept, TEXT_MOST)));
            }
            Some(SeatEvent::Ready { .. }) | None => {}
        }
    }

    // What waits for the server beyond so many bytes is what a viewer did.
    fn count_passed(&mut self, seat: Seat, before: usize)
        ensures counts { CountsPassed self.old seat before self.new }
        ensures given { self.new.given ≡ self.old.given }
    {
        let more = self.to_server.len().saturating_sub(before);
        let place = seat.place();
        self.passed[place] = self.passed[place].saturating_add(more);
    }

    // The message of a call waits for the server, if it is there.
    fn pass_call(&mut self, call: &Call<'_>)
        requires few { length (text_in call.now) ≤ 1048576 }
        requires unnoted { is_noted call.now ≡ false }
        ensures passes { PassesOn (message_bytes call.now)
            self.old.console.desk self.new.console.desk self.old.to_server self.new.to_server
            self.old.console.outcome self.new.console.outcome }
        ensures keeps { KeepsButDesk self.old self.new }
        ensures given { self.new.given ≡ self.old.given }
    {
        let Some(desk) = &mut self.console.desk else {
            return;
        };
        match desk.call_server(call, &mut self.to_server) {
            Ok(()) => {}
            // A server's viewer that has failed sends nothing.
            Err(AppendFault::Refused(_)) => {}
            Err(AppendFault::NoMemory) => self.console.outcome = Some(Outcome::NoMemory),
        }
    }
}
