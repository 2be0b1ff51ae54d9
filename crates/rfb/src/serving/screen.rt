//! What a server shows: the test scene, or the picture of a file.

ghost use Rattle.std.specs.Prelude.{List, Option, ℕ, IfOk, IfErr};
ghost use Rattle.rfb_session.specs.netpbm.File.{SpellsKnown, picture_of};
ghost use Rattle.rfb.specs.Service.{FailsAs, FailsToRead, FailsToServe};

use crate::explain::{tell_unread, tell_unshown};
use crate::fault::{Failure, Fault};
use rfb_session::language::Screen;
use rfb_session::netpbm::{Pixmap, PixmapError, read_ppm};
use std::alloc::Global;
use std::fs::{File, Files};
use std::io::{Read, Write};

/// What each connection shows at first.
#[derive(Drop)]
pub enum ServedScreen {
    /// The test scene, on a screen of this size.
    Scene(Screen),
    /// A picture, that stays as it is.
    Picture(Pixmap),
}

/// Reads the picture that a file spells. Where it can't be read, or spells none, `notes` say so.
pub fn open_picture<P: Files, N: Write>(
    rt: &P,
    alloc: Global,
    path: &str,
    notes: &mut N,
) -> Result<Pixmap, Failure>
    ensures read { IfOk result (λ pixmap.
        (bytes : Option (List ℕ)) × SpellsKnown bytes (picture_of pixmap)) }
    ensures why { IfErr result FailsToServe }
{
    match File::open(rt, path) {
        Ok(mut file) => read_picture(alloc, path, &mut file, notes),
        Err(error) => {
            tell_unread(path, &error, notes);
            Err(Failure::from(error))
        }
    }
}

// The same of what `input` has.
fn read_picture<R: Read, N: Write>(
    alloc: Global,
    path: &str,
    input: &mut R,
    notes: &mut N,
) -> Result<Pixmap, Failure>
    ensures read { IfOk result (λ pixmap. SpellsKnown (R.remaining input.old) (picture_of pixmap)) }
    ensures refused { IfErr result (FailsToRead (R.remaining input.old)) }
{
    match read_ppm(alloc, input) {
        Ok(pixmap) => Ok(pixmap),
        Err(error) => Err(failure_of(path, error, notes)),
    }
}

// What an error of its is to the program. `notes` say what it is to a person.
fn failure_of<N: Write>(path: &str, error: PixmapError, notes: &mut N) -> Failure
    ensures { FailsAs error result }
{
    match error {
        PixmapError::Flaw(flaw) => {
            tell_unshown(path, notes);
            Failure::Picture(flaw)
        }
        PixmapError::Input(error) => {
            tell_unread(path, &error, notes);
            Failure::from(error)
        }
        PixmapError::NoMemory => Failure::Fault(Fault::NoMemory),
    }
}
