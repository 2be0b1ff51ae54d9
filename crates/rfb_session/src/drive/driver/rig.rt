//! What a rig has beside the screen.

ghost use Rattle.std.specs.Prelude.{◌≤◌, length, IfOk};
ghost use Rattle.rfb_session.specs.drive.driver.Rigs.{Rigging, Looked, Took, Saved, Kept};
ghost use Rattle.rfb_session.specs.drive.driver.Rigs.{wanted_in};

use crate::console::Note;
use crate::drive::driver::saying::DriveSaying;
use crate::drive::words::Likeness;
use crate::netpbm::{Flaw, Pixmap};
use rfb_picture::{Picture, Rect};
use rfb_pixel::Colour;

/// Why a file was not read or written.
#[derive(Clone, Copy, Debug)]
pub enum RigFault {
    /// It cannot be read, or not be written.
    NoFile,
    /// It spells no picture.
    BadPicture(Flaw),
    /// It has more than 1,048,576 bytes.
    TooLong,
    /// There was no memory for it.
    NoMemory,
}

/// Files, and somebody who makes sentences. Each call but the last is a step.
pub trait Rig {
    // What becomes of it by a step.
    ghost steps: { Rigging Self };

    /// The picture of a file.
    fn picture(&mut self, name: &[u8]) -> Result<Pixmap, RigFault>
        ensures { steps self.old (Looked name.now result) self.new };

    /// The bytes of a file, 1,048,576 at most.
    fn text(&mut self, name: &[u8]) -> Result<Vec<u8>, RigFault>
        ensures few { IfOk result (λ text. length text.items ≤ 1048576) }
        ensures steps { steps self.old (Took name.now result) self.new };

    /// Writes a part of a picture to a file, all of it or nothing. The part lies in the picture.
    fn save(&mut self, name: &[u8], picture: &Picture<Colour>, part: Rect) -> Result<(), RigFault>
        ensures { steps self.old (Saved name.now picture.now part result) self.new };

    /// A line is late: what the screen shows may be kept, beside what was expected, if it was.
    fn keep(&mut self, picture: &Picture<Colour>, expected: Option<(&Pixmap, Likeness)>)
        ensures { steps self.old (Kept picture.now (wanted_in expected.entry)) self.new };

    /// Writes what there is to say to a person, or nothing.
    fn say(&self, saying: &DriveSaying<'_>, note: &mut Note);
}
