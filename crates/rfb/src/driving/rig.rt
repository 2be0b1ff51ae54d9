//! What the lines have beside the screen: files, and sentences.

ghost use Rattle.rfb.specs.Drive.{AnyStep};

use crate::driving::files::{TEXT_MOST, read_picture, read_text, write_kept, write_part};
use crate::driving::sentences::{Kept, say_drive, say_kept};
use rfb_picture::{Picture, Rect};
use rfb_pixel::Colour;
use rfb_session::console::Note;
use rfb_session::drive::{DriveSaying, Likeness, Rig, RigFault};
use rfb_session::netpbm::{Pixmap, PixmapError};
use std::fs::Files;
use std::io;
use std::io::ErrorKind;

/// Files by their paths, and sentences, if any are wanted. Of what a file has no contract speaks.
#[derive(Drop)]
pub struct FileRig<'a, P> {
    rt: &'a P,
    // The folder for what a line that is late leaves.
    folder: Option<&'a str>,
    are_wanted: bool,
    // Why the last file was not read or written.
    failure: Option<io::Error>,
    // What became of what a late line leaves.
    kept: Kept,
}

impl<'a, P> FileRig<'a, P> {
    /// Nothing was read or written yet.
    pub fn new(rt: &'a P, folder: Option<&'a str>, are_wanted: bool) -> FileRig<'a, P> {
        FileRig {
            rt,
            folder,
            are_wanted,
            failure: None,
            kept: Kept::Nothing,
        }
    }

    // What an error is to the core.
    fn fail(&mut self, error: io::Error) -> RigFault {
        self.failure = Some(error);
        if error.kind() == ErrorKind::OutOfMemory {
            RigFault::NoMemory
        } else {
            RigFault::NoFile
        }
    }
}

impl<P: AllocGlobal + Files> Rig for FileRig<'_, P> {
    ghost steps = { AnyStep P };

    fn picture(&mut self, name: &[u8]) -> Result<Pixmap, RigFault> {
        match read_picture(self.rt, name) {
            Ok(pixmap) => Ok(pixmap),
            Err(PixmapError::Flaw(flaw)) => Err(RigFault::BadPicture(flaw)),
            Err(PixmapError::Input(error)) => Err(self.fail(error)),
            Err(PixmapError::NoMemory) => Err(RigFault::NoMemory),
        }
    }

    fn text(&mut self, name: &[u8]) -> Result<Vec<u8>, RigFault> {
        match read_text(self.rt, name) {
            Ok(text) if text.len() <= TEXT_MOST => Ok(text),
            Ok(_) => Err(RigFault::TooLong),
            Err(error) => Err(self.fail(error)),
        }
    }

    fn save(&mut self, name: &[u8], picture: &Picture<Colour>, part: Rect) -> Result<(), RigFault> {
        write_part(self.rt, name, picture, part).map_err(|error| self.fail(error))
    }

    fn keep(&mut self, picture: &Picture<Colour>, expected: Option<(&Pixmap, Likeness)>) {
        let Some(folder) = self.folder else {
            return;
        };
        self.kept = match write_kept(self.rt, folder, picture, expected) {
            Ok(()) => Kept::In,
            Err(error) => Kept::Failed(error),
        };
    }

    fn say(&self, saying: &DriveSaying<'_>, note: &mut Note) {
        if self.are_wanted {
            let _ = say_drive(saying, &self.failure, note);
            let _ = say_kept(saying, self.folder, &self.kept, note);
        }
    }
}
