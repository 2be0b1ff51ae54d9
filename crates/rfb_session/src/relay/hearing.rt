//! Bytes of the server's.

ghost use Rattle.std.specs.Prelude.{◌≡◌, ◌≤◌, ◌<◌, length};
ghost use Rattle.rfb_session.specs.Mirrors.{StandsOrFailed};
ghost use Rattle.rfb_session.specs.console.Console.{KeepsSide};
ghost use Rattle.rfb_session.specs.relay.Calls.{Queues, is_shown_size};
ghost use Rattle.rfb_session.specs.relay.Doors.{KeepsButName, KeepsButWaits, KeepsDeskBy};
ghost use Rattle.rfb_session.specs.relay.Server.{Begins, HearsComing, HearsServer, HearsShown};
ghost use Rattle.rfb_session.specs.relay.Server.{Heeds, Meets, Stands, named_by};

use crate::console::{Outcome, Speaker};
use crate::relay::setup::kept_name;
use crate::relay::{Gone, NAME_MAX, Relay};
use crate::slots::seat_in;
use arrayvec::ArrayVec;
use rfb_hello::Fed;
use rfb_picture::Rect;
use rfb_viewer::{Call, Viewer, ViewerEvent};

// How many columns and rows a screen of sessions has at most.
const SIDE_MAX: u16 = 4096;

impl<S: Speaker + Drop> Relay<S> {
    /// Takes bytes of the server's, up to the last of its first item that is answered or reported,
    /// or all. After the end, and once the server has gone, all are taken and nothing is done.
    pub(crate) fn hear_server(&mut self, bytes: &[u8]) -> usize
        requires some { 0 < length bytes.now }
        ensures used { (0 < result) × (result ≤ length bytes.now) }
        ensures hears { HearsServer self.old bytes.now result self.new }
        ensures side { KeepsSide self.old.console self.new.console }
        ensures given { self.new.given ≡ self.old.given }
    {
        if self.console.outcome.is_some() || self.presence.is_gone() {
            return bytes.len();
        }
        match self.coming.take() {
            Some(viewer) => self.hear_coming(viewer, bytes),
            None => self.hear_shown(bytes),
        }
    }

    // Takes bytes of a server whose picture is not shown yet.
    fn hear_coming(&mut self, mut viewer: Viewer, bytes: &[u8]) -> usize
        requires some { 0 < length bytes.now }
        requires stands { ∥ StandsOrFailed viewer ∥₁ }
        ensures used { (0 < result) × (result ≤ length bytes.now) }
        ensures hears { HearsComing self.old viewer bytes.now result self.new }
        ensures side { KeepsSide self.old.console self.new.console }
        ensures given { self.new.given ≡ self.old.given }
    {
        match viewer.feed(bytes) {
            Ok(Fed { used, event }) => {
                self.meet(viewer, event);
                used
            }
            Err(fault) => {
                self.lose_server(Gone::Failed(fault));
                bytes.len()
            }
        }
    }

    // Does what is due after an event of a viewer whose picture is not shown yet.
    fn meet(&mut self, viewer: Viewer, event: Option<ViewerEvent>)
        requires stands { ∥ StandsOrFailed viewer ∥₁ }
        ensures meets { Meets self.old viewer event self.new }
        ensures name { self.new.server_name.items ≡ named_by event self.old.server_name.items }
        ensures side { KeepsSide self.old.console self.new.console }
        ensures given { self.new.given ≡ self.old.given }
    {
        match event {
            Some(ViewerEvent::Reply(reply)) => self.stand(viewer, reply.as_slice()),
            Some(
                ViewerEvent::Ready {
                    reply,
                    width,
                    height,
                    name,
                    ..
                },
            ) => {
                self.take_name(kept_name(&name));
                self.begin(viewer, reply.as_slice(), width, height);
            }
            Some(ViewerEvent::UpdateDone) => self.open(viewer),
            Some(ViewerEvent::Bell | ViewerEvent::CutText { .. } | ViewerEvent::ColourMapSkipped)
            | None => self.stand(viewer, &[]),
        }
    }

    // The viewer's picture is not shown yet, and these bytes wait for the server.
    fn stand(&mut self, viewer: Viewer, bytes: &[u8])
        requires stands { ∥ StandsOrFailed viewer ∥₁ }
        ensures stands { Stands self.old viewer bytes.now self.new }
        ensures name { self.new.server_name ≡ self.old.server_name }
        ensures side { KeepsSide self.old.console self.new.console }
        ensures given { self.new.given ≡ self.old.given }
    {
        self.send(bytes);
        seat_in(&mut self.coming, viewer);
    }

    // The server has this name.
    fn take_name(&mut self, name: ArrayVec<u8, NAME_MAX>)
        ensures keeps { KeepsButName self.old self.new }
        ensures name { self.new.server_name ≡ name }
        ensures given { self.new.given ≡ self.old.given }
    {
        self.server_name = name;
    }

    // Answers, and asks for the first update, of the whole screen.
    fn begin(&mut self, mut viewer: Viewer, reply: &[u8], width: u16, height: u16)
        requires stands { ∥ StandsOrFailed viewer ∥₁ }
        ensures begins { Begins self.old viewer reply.now width height self.new }
        ensures name { self.new.server_name ≡ self.old.server_name }
        ensures side { KeepsSide self.old.console self.new.console }
        ensures given { self.new.given ≡ self.old.given }
    {
        self.send(reply);
        if !is_shown_size(width, height) {
            self.lose_server(Gone::Size { width, height });
            return;
        }
        let call = Call::Request {
            incremental: false,
            rect: Rect::whole(width, height),
        };
        if self.to_server.send_call(&mut viewer, &call).is_err() {
            self.console.outcome = Some(Outcome::NoMemory);
            return;
        }
        seat_in(&mut self.coming, viewer);
    }

    // Takes bytes of a server whose picture is shown.
    fn hear_shown(&mut self, bytes: &[u8]) -> usize
        requires some { 0 < length bytes.now }
        ensures used { (0 < result) × (result ≤ length bytes.now) }
        ensures hears { HearsShown self.old bytes.now result self.new }
        ensures side { KeepsSide self.old.console self.new.console }
        ensures given { self.new.given ≡ self.old.given }
    {
        let Some(desk) = &mut self.console.desk else {
            return bytes.len();
        };
        match desk.hear_server(bytes) {
            Some(Ok(Fed { used, event })) => {
                self.heed(event);
                used
            }
            Some(Err(fault)) => {
                self.lose_server(Gone::Failed(fault));
                bytes.len()
            }
            None => bytes.len(),
        }
    }

    // Reports a bell and a text, which are not passed on.
    fn heed(&mut self, event: Option<ViewerEvent>)
        ensures heeds { Heeds self.old event self.new }
        ensures given { self.new.given ≡ self.old.given }
    {
        let Some(desk) = &mut self.console.desk else {
            return;
        };
        match desk.tell_of_server(&event) {
            Ok(()) => {}
            Err(_) => self.console.outcome = Some(Outcome::NoMemory),
        }
    }

    // These bytes wait for the server, after what waits.
    fn send(&mut self, bytes: &[u8])
        ensures waits { Queues self.old.to_server bytes.now self.new.to_server
            self.new.console.outcome }
        ensures keeps { KeepsDeskBy self.old self.new }
        ensures server { KeepsButWaits self.old self.new }
        ensures given { self.new.given ≡ self.old.given }
    {
        if self.to_server.send(bytes).is_err() {
            self.console.outcome = Some(Outcome::NoMemory);
        }
    }
}

/// Whether sessions can have a screen of this size, and a rig's lines can name each of its places.
pub(crate) fn is_shown_size(width: u16, height: u16) -> bool
    ensures { result ≡ is_shown_size width height }
{
    width > 0 && height > 0 && width <= SIDE_MAX && height <= SIDE_MAX
}
