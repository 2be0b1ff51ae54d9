//! What a driver reports, and how all ends.

ghost use Rattle.std.specs.Prelude.{◌≡◌};
ghost use Rattle.rfb_session.specs.drive.driver.Driver.{Finishes, FinishesIf, SaysNote, Tells};
ghost use Rattle.rfb_session.specs.drive.driver.Driver.{ends, Refuses};

use crate::console::Note;
use crate::drive::driver::lines::done_line;
use crate::drive::driver::saying::{DriveSaying, LineFlaw};
use crate::drive::driver::task::Task;
use crate::drive::driver::{DriveOutcome, Driver, Rig};
use std::io;

impl<R: Rig + Drop> Driver<R> {
    /// All has ended so, unless it had before. Nothing waits for the server any more.
    pub(crate) fn end(&mut self, how: DriveOutcome)
        ensures { self.new ≡ ends how self.old }
    {
        if self.outcome.is_some() {
            return;
        }
        self.outcome = Some(how);
        self.to_server.arrive(self.to_server.len());
    }

    /// A line waits too, after those that wait; or there was no memory for it, and all ends.
    pub(crate) fn tell(&mut self, line: io::Result<Vec<u8>>)
        ensures tells { Tells line self.old self.new }
        ensures pace { self.new.pace ≡ self.old.pace }
        ensures viewer { self.new.viewer ≡ self.old.viewer }
    {
        match line {
            Ok(line) if self.lines.send(line.as_slice()).is_ok() => {}
            _ => self.outcome = Some(DriveOutcome::NoMemory),
        }
    }

    /// The line that is under way is done, and a line says so; or there was no memory for that, and
    /// all ends.
    pub(crate) fn finish(&mut self)
        ensures { Finishes self.old self.new }
    {
        self.tell(done_line(self.alloc, self.input.count));
        self.pace.task = Task::Idle;
        self.pace.changed = None;
    }

    /// It is, if that is so.
    pub(crate) fn finish_if(&mut self, is_done: bool)
        ensures { FinishesIf is_done self.old self.new }
    {
        if is_done {
            self.finish();
        }
    }

    /// A sentence says this. Where there is no memory for it nothing does.
    pub(crate) fn say(&mut self, saying: &DriveSaying<'_>)
        ensures { SaysNote self.old self.new }
    {
        if self.are_notes_lost {
            return;
        }
        let mut note = Note::new();
        self.rig.say(saying, &mut note);
        let _ = self.notes.send(note.as_bytes());
    }

    /// The line that was read last is bad, and all ends.
    pub(crate) fn refuse(&mut self, why: LineFlaw<'_>)
        ensures { Refuses self.old self.new }
    {
        let number = self.input.count;
        self.say(&DriveSaying::BadLine { number, why });
        self.end(DriveOutcome::BadLine(number));
    }
}
