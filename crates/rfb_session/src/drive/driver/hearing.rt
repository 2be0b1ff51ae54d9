//! Bytes of the server's.

ghost use Rattle.std.specs.Prelude.{◌≡◌, ◌≤◌, ◌<◌, length};
ghost use Rattle.rfb_session.specs.drive.driver.Driver.{Asks, BeginsShowing, Changes};
ghost use Rattle.rfb_session.specs.drive.driver.Driver.{HearsDriven, Meets, Readies, Sends};
ghost use Rattle.rfb_session.specs.drive.driver.Driver.{ShowsOrChanges, TellsIf, TellsLine};
ghost use Rattle.rfb_session.specs.drive.driver.Driver.{Updates};
ghost use Rattle.rfb_session.specs.drive.driver.RigLines.{changed_line};
ghost use Rattle.rfb_session.specs.drive.driver.Sight as spec;

use crate::drive::driver::lines::{bell_line, changed_line, ready_line, text_line};
use crate::drive::driver::looking::whole_of;
use crate::drive::driver::{DriveOutcome, Driver, Rig};
use crate::relay::{Gone, is_shown_size};
use rfb_hello::Fed;
use rfb_picture::Rect;
use rfb_viewer::{AppendFault, Call, ViewerEvent};
use std::alloc::Global;
use std::io;

impl<R: Rig + Drop> Driver<R> {
    /// Takes bytes of the server's, up to the last of its first item that is answered or reported,
    /// or all. After the end all are taken and nothing is done.
    pub(crate) fn hear_server(&mut self, bytes: &[u8]) -> usize
        requires some { 0 < length bytes.now }
        ensures used { (0 < result) × (result ≤ length bytes.now) }
        ensures hears { HearsDriven self.old bytes.now result self.new }
    {
        if self.outcome.is_some() {
            return bytes.len();
        }
        match self.viewer.feed(bytes) {
            Ok(Fed { used, event }) => {
                self.meet(event);
                used
            }
            Err(fault) => {
                self.lose_server(Gone::Failed(fault));
                bytes.len()
            }
        }
    }

    // Does what is due after an event of the viewer's.
    fn meet(&mut self, event: Option<ViewerEvent>)
        ensures { Meets self.old event self.new }
    {
        match event {
            Some(ViewerEvent::Reply(reply)) => self.send(reply.as_slice()),
            Some(
                ViewerEvent::Ready {
                    reply,
                    width,
                    height,
                    name,
                    ..
                },
            ) => {
                self.name = name;
                self.ready(reply.as_slice(), width, height);
            }
            Some(ViewerEvent::UpdateDone) => self.update(),
            Some(ViewerEvent::Bell) => self.tell_if_shown(bell_line(self.alloc)),
            Some(ViewerEvent::CutText { kept, .. }) => {
                self.tell_if_shown(text_line(self.alloc, &kept));
            }
            Some(ViewerEvent::ColourMapSkipped) | None => {}
        }
    }

    // These bytes wait for the server, after what waits.
    fn send(&mut self, bytes: &[u8])
        ensures { Sends bytes.now self.old self.new }
    {
        if self.to_server.send(bytes).is_err() {
            self.outcome = Some(DriveOutcome::NoMemory);
        }
    }

    // A line reports what the server did, once its first update is whole.
    fn tell_if_shown(&mut self, line: io::Result<Vec<u8>>)
        ensures { TellsIf self.old.is_shown line self.old self.new }
    {
        if self.is_shown {
            self.tell(line);
        }
    }

    // Answers, and asks for the first update, of the whole screen.
    fn ready(&mut self, reply: &[u8], width: u16, height: u16)
        ensures { Readies reply.now width height self.old self.new }
    {
        self.send(reply);
        if !is_shown_size(width, height) {
            self.lose_server(Gone::Size { width, height });
            return;
        }
        self.ask(false, Rect::whole(width, height));
    }

    // Asks for an update, unless one is outstanding.
    fn ask(&mut self, incremental: bool, rect: Rect)
        ensures { Asks incremental rect self.old self.new }
    {
        let call = Call::Request { incremental, rect };
        match self.to_server.send_call(&mut self.viewer, &call) {
            Ok(()) => {}
            // One is outstanding.
            Err(AppendFault::Refused(_)) => {}
            Err(AppendFault::NoMemory) => self.outcome = Some(DriveOutcome::NoMemory),
        }
    }

    // An update is whole.
    fn update(&mut self)
        ensures { Updates self.old self.new }
    {
        let damage = self.viewer.damage();
        let Some(picture) = self.viewer.picture() else {
            return;
        };
        let whole = whole_of(picture);
        self.show_or_change(whole, damage);
        self.ask(true, whole);
    }

    // The first one is shown, and of a later one what it changed is heard.
    fn show_or_change(&mut self, whole: Rect, damage: Option<Rect>)
        ensures { ShowsOrChanges self.old.is_shown whole damage self.old self.new }
    {
        if self.is_shown {
            self.change(damage);
        } else {
            self.show(whole);
        }
    }

    // The first one is: the rig's lines may begin.
    fn show(&mut self, whole: Rect)
        ensures { BeginsShowing whole self.old self.new }
    {
        self.is_shown = true;
        let line = ready_line(self.alloc, whole.w, whole.h, self.name.as_slice());
        self.tell(line);
    }

    // What an update changed is reported, if that is wanted, and the line that is under way may be
    // done by it.
    fn change(&mut self, damage: Option<Rect>)
        ensures { Changes self.old damage self.new }
    {
        let Some(rect) = damage else {
            return;
        };
        self.tell_changed(rect);
        self.pace.changed = Some(joined(self.pace.changed, rect));
        let Some(picture) = self.viewer.picture() else {
            return;
        };
        let is_done = self.pace.task.hear_change(rect, picture);
        self.finish_if(is_done);
    }

    // A line reports what an update changed, if that is wanted.
    fn tell_changed(&mut self, rect: Rect)
        ensures tells { TellsLine self.old.tells_changes (changed_line rect) self.old self.new }
        ensures pace { self.new.pace ≡ self.old.pace }
        ensures viewer { self.new.viewer ≡ self.old.viewer }
    {
        if self.tells_changes {
            self.tell(changed_line(self.alloc, rect));
        }
    }
}

// The least rectangle that holds what changed before and a rectangle.
fn joined(changed: Option<Rect>, rect: Rect) -> Rect
    ensures { result ≡ spec.joined changed rect }
{
    let Some(before) = changed else {
        return rect;
    };
    let x = before.x.min(rect.x);
    let y = before.y.min(rect.y);
    let right = end_of(before.x, before.w).max(end_of(rect.x, rect.w));
    let lower = end_of(before.y, before.h).max(end_of(rect.y, rect.h));
    Rect::new(x, y, right - x, lower - y)
}

// The place after the last of a row of places, as far as 16 bits go.
fn end_of(start: u16, len: u16) -> u16
    ensures value { result ≡ spec.end_of start len }
    ensures after { start ≤ result }
{
    start.saturating_add(len)
}
