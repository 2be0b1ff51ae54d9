//! A file that is written whole, or not at all.

use crate::explain::tell_unwritten;
use std::fs::{File, Files, OpenFile};
use std::io::{ErrorKind, Write};
use std::os::unix::fs::MetadataExt;
use std::{fs, io};

/// What is written in place of standard output.
#[derive(Drop)]
pub struct Target<F> {
    /// Where it is written to.
    pub file: F,
    // Why a write failed, if one did.
    failure: Option<io::Error>,
    // Without one it is written where it stays.
    beside: Option<Beside>,
}

// A file that is not yet whole.
#[derive(Drop)]
struct Beside {
    // Its name, until it is.
    name: String,
    // Where it is then.
    place: String,
}

/// Opens what is written to a path. A new file, or one in place of a regular file, is written
/// beside it; `keep` brings it to its place. What a link leads to is written as if it were named
/// itself, and the link stays. A device, a pipe, or a file that a link leads to and that is not
/// there, is written where it is.
pub fn open_target<P: AllocGlobal + Files>(rt: &P, path: &str) -> io::Result<Target<P::File>> {
    match fs::metadata(rt, path) {
        Ok(found) if found.is_file() => {
            let place = place_of(rt, path)?;
            let target = open_beside(rt, place)?;
            let _ = target.file.set_permissions(found.permissions());
            Ok(target)
        }
        Ok(_) => open_in_place(rt, path),
        Err(error) if error.kind() == ErrorKind::NotFound => open_new(rt, path),
        Err(error) => Err(error),
    }
}

// Opens a file that is not there, maybe at the end of a link.
fn open_new<P: AllocGlobal + Files>(rt: &P, path: &str) -> io::Result<Target<P::File>> {
    if fs::symlink_metadata(rt, path).is_ok() {
        return open_in_place(rt, path);
    }
    let place = format!(in rt.alloc(); "{path}")?;
    open_beside(rt, place)
}

// Where the file is that a path leads to: there itself, unless that is a link.
fn place_of<P: AllocGlobal + Files>(rt: &P, path: &str) -> io::Result<String> {
    let is_link = fs::symlink_metadata(rt, path)?.is_symlink();
    if is_link {
        return Ok(Files::canonicalize(rt, rt.alloc(), path)?.into_string());
    }
    Ok(format!(in rt.alloc(); "{path}")?)
}

// Opens what is no regular file.
fn open_in_place<P: Files>(rt: &P, path: &str) -> io::Result<Target<P::File>> {
    Ok(Target {
        file: File::create(rt, path)?,
        failure: None,
        beside: None,
    })
}

// Makes a file beside a place, in the same folder. What an earlier run that was interrupted left
// under its name is removed; a link there is removed itself, and what it leads to stays.
fn open_beside<P: AllocGlobal + Files>(rt: &P, place: String) -> io::Result<Target<P::File>> {
    let name = format!(in rt.alloc(); "{place}.part")?;
    match fs::remove_file(rt, name.as_str()) {
        Ok(()) => {}
        Err(error) if error.kind() == ErrorKind::NotFound => {}
        Err(error) => return Err(error),
    }
    let file = File::create_new(rt, name.as_str())?;
    Ok(Target {
        file,
        failure: None,
        beside: Some(Beside { name, place }),
    })
}

impl<F: OpenFile> Target<F> {
    /// Says why a write to the path that was named failed, if one did.
    pub fn tell_failure<N: Write>(&self, path: &str, notes: &mut N) {
        if let Some(error) = &self.failure {
            tell_unwritten(path, error, notes);
        }
    }

    /// Why a write failed; where none did, that it is cut short.
    pub fn failure(&self) -> io::Error {
        self.failure
            .unwrap_or(io::Error::from(ErrorKind::WriteZero))
    }

    /// Whether something was written to a regular file.
    pub fn has_bytes(&self) -> bool {
        match self.file.metadata() {
            Ok(found) => found.len() > 0,
            Err(_) => false,
        }
    }

    /// Brings what was written to its place. Where that fails, what was there stays.
    pub fn keep<P: Files>(&self, rt: &P) -> io::Result<()> {
        let Some(beside) = &self.beside else {
            return Ok(());
        };
        self.file.sync_all()?;
        if !self.is_there(rt, &beside.name) {
            return Err(io::Error::from(ErrorKind::NotFound));
        }
        fs::rename(rt, beside.name.as_str(), beside.place.as_str())
    }

    /// Removes what was written and not kept, but for what was written where it is.
    pub fn give_up<P: Files>(&self, rt: &P) {
        if let Some(beside) = &self.beside {
            if self.is_there(rt, &beside.name) {
                let _ = fs::remove_file(rt, beside.name.as_str());
            }
        }
    }

    // Whether a name is still that of this file, and not of one that another run has made since.
    fn is_there<P: Files>(&self, rt: &P, name: &str) -> bool {
        match (self.file.metadata(), fs::symlink_metadata(rt, name)) {
            (Ok(own), Ok(found)) => own.ino() == found.ino() && own.dev() == found.dev(),
            _ => false,
        }
    }
}

impl<F: Write> Write for Target<F> {
    ghost contents = { λ target. F.contents target.file };

    fn write(&mut self, buf: &[u8]) -> io::Result<usize> {
        let result = self.file.write(buf);
        if let Err(error) = &result {
            self.failure = Some(*error);
        }
        result
    }

    fn flush(&mut self) -> io::Result<()> {
        self.file.flush()
    }
}
