//! The lines of the rig, one after another.

ghost use Rattle.std.specs.Prelude.{◌≡◌, ◌≤◌, ◌<◌, ◌-◌, ◌^◌, length};
ghost use Rattle.rfb_session.specs.drive.driver.LineRun.{Begins, RunsLine, RunsLines, SendsLine};
ghost use Rattle.rfb_session.specs.drive.driver.LineRun.{Awaits, AwaitsChange, LetsSend, SetsLimit};
ghost use Rattle.rfb_session.specs.drive.driver.LineRun.{RefusesLong, Rests, RunsRead, is_free};
ghost use Rattle.rfb_session.specs.drive.driver.LineRun.{may_begin};
ghost use Rattle.rfb_session.specs.drive.driver.LineRun.{has_part, place_off, screen_of};
ghost use Rattle.rfb_session.specs.drive.driver.LineRun as spec;
ghost use Rattle.rfb_session.specs.drive.driver.Acts.{place_named};

use crate::drive::drive_line::DriveLine;
use crate::drive::driver::input::{Upcoming, is_skipped};
use crate::drive::driver::looking::is_part;
use crate::drive::driver::saying::{LineFlaw, ScreenSize};
use crate::drive::driver::sending::{place_named, spell_line};
use crate::drive::driver::task::{Task, is_touched};
use crate::drive::driver::{DriveOutcome, Driver, Rig};
use crate::drive::line::read_drive_line;
use crate::drive::words::Place;
use rfb_picture::Rect;

// Where so many bytes of reports wait, no line begins and the server is not read.
const LINES_MOST: usize = 1 << 16;

const SECOND: u64 = 1000;

impl<R: Rig + Drop> Driver<R> {
    /// Lines begin, one after another, each once the one before it is done, as far as they are done
    /// at this time. Where the input has ended and all lines are done, all ends.
    pub(crate) fn run_lines(&mut self, now: u64)
        ensures runs { RunsLines R.steps now self.old self.new }
        ensures rests { length self.old.input.waiting < 2 ^ 64 - 1 → Rests self.new }
    {
        for _line in 0..self.input.waiting.len().saturating_add(1) {
            if !self.may_begin() {
                return;
            }
            match self.input.upcoming() {
                Upcoming::Partial => return,
                Upcoming::Over => {
                    self.end(DriveOutcome::Done);
                    return;
                }
                Upcoming::TooLong => {
                    self.refuse_long();
                    return;
                }
                Upcoming::Line(count) => self.run_line(count, now),
            }
        }
    }

    // Whether a line may begin: no other is under way.
    fn may_begin(&self) -> bool
        ensures { result ≡ may_begin self.now }
    {
        self.is_shown && self.pace.task.is_idle() && self.is_free()
    }

    /// Whether all goes on, and few bytes of reports wait.
    pub(crate) fn is_free(&self) -> bool
        ensures { result ≡ is_free self.now }
    {
        self.outcome.is_none() && self.lines.len() < LINES_MOST
    }

    fn refuse_long(&mut self)
        ensures { RefusesLong self.old self.new }
    {
        self.input.count = self.input.count.saturating_add(1);
        self.refuse(LineFlaw::TooLong);
    }

    // Takes the next line, which has so many bytes, and begins it unless it is passed over.
    fn run_line(&mut self, count: usize, now: u64)
        requires within { count ≤ length self.old.input.waiting }
        ensures { RunsLine R.steps count now self.old self.new }
    {
        let Ok(line) = self.input.take(self.alloc, count) else {
            self.end(DriveOutcome::NoMemory);
            return;
        };
        if is_skipped(line.as_slice()) {
            return;
        }
        self.run_read(line.as_slice(), now);
    }

    // Begins a line.
    fn run_read(&mut self, line: &[u8], now: u64)
        ensures { RunsRead R.steps line.now now self.old self.new }
    {
        match read_drive_line(line) {
            Ok(said) => {
                self.pace.begun = now;
                self.begin(&said, now);
            }
            Err(why) => self.refuse(LineFlaw::Unread { line, why }),
        }
    }

    // Begins what a line says, and does it as far as it can be done at once.
    fn begin(&mut self, said: &DriveLine<'_>, now: u64)
        ensures { Begins R.steps now said.now self.old self.new }
    {
        match said {
            DriveLine::Save(name, part) => self.save(name, *part),
            DriveLine::Expect(name, likeness) => self.expect(name, *likeness),
            DriveLine::PasteFile(name) => self.paste_file(name),
            DriveLine::Still(n) => self.await_time(Task::Still(millis(*n), Some(now)), now),
            DriveLine::Wait(n) => self.await_time(Task::Wait(millis(*n)), now),
            DriveLine::UntilChange(part) => self.await_change(*part),
            DriveLine::Timeout(n) => self.set_limit(millis(*n)),
            _ => self.send_line(said),
        }
    }

    // Its messages wait for the server, if the places that it names are on the screen.
    fn send_line(&mut self, said: &DriveLine<'_>)
        ensures { SendsLine said.now self.old self.new }
    {
        let screen = self.screen();
        let named = place_named(said);
        if let Some(place) = place_off(named, screen) {
            self.refuse(LineFlaw::PlaceOff { place, screen });
            return;
        }
        let mut bytes = Vec::new(self.alloc);
        if spell_line(self.alloc, said, self.pace.at, &mut bytes).is_err() {
            self.end(DriveOutcome::NoMemory);
            return;
        }
        let at = named.unwrap_or(self.pace.at);
        self.let_send(bytes.as_slice(), at);
    }

    /// These bytes wait for the server, and the line is done once they have left. The pointer is at
    /// a place.
    pub(crate) fn let_send(&mut self, bytes: &[u8], at: Place)
        ensures { LetsSend bytes.now at self.old self.new }
    {
        if self.to_server.send(bytes).is_err() {
            self.end(DriveOutcome::NoMemory);
            return;
        }
        let left = self.to_server.len();
        self.pace.task = Task::Sending(left);
        self.pace.at = at;
        self.finish_if(left == 0);
    }

    // It waits for time to pass.
    fn await_time(&mut self, task: Task, now: u64)
        ensures { Awaits task now self.old self.new }
    {
        let is_done = task.is_passed(self.pace.begun, now);
        self.pace.task = task;
        self.finish_if(is_done);
    }

    // It waits for a change of a part, or of anything, unless there was one since the line before
    // it was done.
    fn await_change(&mut self, part: Option<Rect>)
        ensures { AwaitsChange part self.old self.new }
    {
        if let Some(part) = part {
            let screen = self.screen();
            if !self.has_part(part) {
                self.refuse(LineFlaw::PartOff { part, screen });
                return;
            }
        }
        let is_done = match self.pace.changed {
            Some(changed) => is_touched(part, changed),
            None => false,
        };
        self.pace.task = Task::Change(part);
        self.finish_if(is_done);
    }

    // The lines after it have so long each.
    fn set_limit(&mut self, limit: u64)
        ensures { SetsLimit limit self.old self.new }
    {
        self.pace.limit = limit;
        self.finish();
    }

    /// The size of the screen.
    pub(crate) fn screen(&self) -> ScreenSize
        ensures { result ≡ screen_of self.now }
    {
        match self.viewer.picture() {
            Some(picture) => ScreenSize {
                width: picture.width(),
                height: picture.height(),
            },
            None => ScreenSize {
                width: 0,
                height: 0,
            },
        }
    }

    // Whether a part lies on the screen.
    fn has_part(&self, part: Rect) -> bool
        ensures { result ≡ has_part self.now part }
    {
        match self.viewer.picture() {
            Some(picture) => is_part(picture, part),
            None => false,
        }
    }
}

// The place, if it is not on a screen of this size.
fn place_off(named: Option<Place>, screen: ScreenSize) -> Option<Place>
    ensures { result ≡ place_off named screen }
{
    let place = named?;
    if place.x < screen.width && place.y < screen.height {
        return None;
    }
    Some(place)
}

// So many seconds, in milliseconds.
fn millis(seconds: u32) -> u64
    ensures { result ≡ spec.millis seconds }
{
    SECOND * u64::from(seconds)
}
