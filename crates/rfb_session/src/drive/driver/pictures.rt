//! Lines that name files.

ghost use Rattle.rfb_session.specs.drive.driver.LineRun.{AwaitsPicture, Expects, FailsFor, Pastes};
ghost use Rattle.rfb_session.specs.drive.driver.LineRun.{Saves};

use crate::drive::driver::looking::{Sight, is_part, look, part_or};
use crate::drive::driver::rig::RigFault;
use crate::drive::driver::saying::{DriveSaying, LineFlaw};
use crate::drive::driver::sending::spell_text;
use crate::drive::driver::task::{Expected, Task};
use crate::drive::driver::{DriveOutcome, Driver, Rig};
use crate::drive::words::Likeness;
use crate::netpbm::Pixmap;
use rfb_picture::Rect;

impl<R: Rig + Drop> Driver<R> {
    /// What the screen shows, or a part of it, is written to a file.
    pub(crate) fn save(&mut self, name: &[u8], part: Option<Rect>)
        ensures { Saves R.steps name.now part self.old self.new }
    {
        let screen = self.screen();
        let Some(picture) = self.viewer.picture() else {
            return;
        };
        let part = part_or(part, picture);
        if !is_part(picture, part) {
            self.refuse(LineFlaw::PartOff { part, screen });
            return;
        }
        match self.rig.save(name, picture, part) {
            Ok(()) => self.finish(),
            Err(fault) => self.fail_for(name, fault),
        }
    }

    /// The screen is to show the picture of a file.
    pub(crate) fn expect(&mut self, name: &[u8], likeness: Likeness)
        ensures { Expects R.steps name.now likeness self.old self.new }
    {
        match self.rig.picture(name) {
            Ok(wanted) => self.await_picture(name, wanted, likeness),
            Err(fault) => self.fail_for(name, fault),
        }
    }

    // It waits until the screen shows a picture.
    fn await_picture(&mut self, name: &[u8], wanted: Pixmap, likeness: Likeness)
        ensures { AwaitsPicture wanted likeness self.old self.new }
    {
        let screen = self.screen();
        let Some(picture) = self.viewer.picture() else {
            return;
        };
        match look(picture, &wanted, likeness) {
            Sight::Same => self.finish(),
            Sight::Differs(unlike) => {
                self.pace.task = Task::Expect(Expected {
                    wanted,
                    likeness,
                    unlike,
                });
            }
            Sight::Off => self.refuse(LineFlaw::PictureOff {
                name,
                width: wanted.width,
                height: wanted.height,
                at: likeness.at,
                screen,
            }),
        }
    }

    /// The text of a file is cut.
    pub(crate) fn paste_file(&mut self, name: &[u8])
        ensures { Pastes R.steps name.now self.old self.new }
    {
        let text = match self.rig.text(name) {
            Ok(text) => text,
            Err(fault) => {
                self.fail_for(name, fault);
                return;
            }
        };
        let mut bytes = Vec::new(self.alloc);
        if spell_text(text.as_slice(), &mut bytes).is_err() {
            self.end(DriveOutcome::NoMemory);
            return;
        }
        self.let_send(bytes.as_slice(), self.pace.at);
    }

    // A file could not be read or written, and all ends.
    fn fail_for(&mut self, name: &[u8], why: RigFault)
        ensures { FailsFor why self.old self.new }
    {
        if matches!(why, RigFault::NoMemory) {
            self.end(DriveOutcome::NoMemory);
            return;
        }
        let number = self.input.count;
        self.say(&DriveSaying::File { number, name, why });
        self.end(DriveOutcome::File(number));
    }
}
