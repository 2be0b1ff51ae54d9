//! A reader that says what it meets, and notes that it shares with a watcher.

ghost use Rattle.std.specs.Prelude.{◌≡◌};

use crate::explain::{Heard, Origin};
use crate::streams::is_lasting;
use std::cell::RefCell;
use std::io;
use std::io::{Read, Write};

/// Notes that two share, each using them in its turn.
#[derive(Drop)]
pub struct Shared<'v, 'a, N> {
    notes: &'v RefCell<&'a mut N>,
}

impl<'v, 'a, N> Shared<'v, 'a, N> {
    /// One of the two.
    pub fn new(notes: &'v RefCell<&'a mut N>) -> Shared<'v, 'a, N> {
        Shared { notes }
    }
}

impl<N: Write> Write for Shared<'_, '_, N> {
    fn write(&mut self, buf: &[u8]) -> io::Result<usize> {
        match self.notes.try_borrow_mut() {
            Ok(mut notes) => notes.write(buf),
            Err(_) => Ok(buf.len()),
        }
    }

    fn flush(&mut self) -> io::Result<()> {
        Ok(())
    }
}

/// A reader of a server's bytes, whose first ones are kept. A read that fails is reported.
#[derive(Drop)]
pub struct Hearing<'a, R, N> {
    reader: R,
    heard: &'a mut Heard,
    notes: N,
}

impl<'a, R, N> Hearing<'a, R, N> {
    ghost use Rattle.rfb.specs.Explain.{heard_by};

    /// Reads what `reader` gives.
    pub fn new(reader: R, heard: &'a mut Heard, notes: N) -> Hearing<'a, R, N>
        ensures { heard_by result ≡ reader }
    {
        Hearing {
            reader,
            heard,
            notes,
        }
    }
}

impl<R: Read, N: Write> Read for Hearing<'_, R, N> {
    ghost remaining = { λ h. R.remaining h.reader };

    fn read(&mut self, buf: &mut [u8]) -> io::Result<usize> {
        let result = self.reader.read(buf);
        match &result {
            Ok(count) => self.heard.hear(&buf[..*count], &mut self.notes),
            Err(error) => {
                self.heard.end(error.kind());
                tell_read(error, self.heard, &mut self.notes);
            }
        }
        result
    }
}

/// Says how many updates of a recording were played.
pub fn tell_played<N: Write>(updates: u64, notes: &mut N) {
    let _ = writeln!(notes, "rfb: updates played: {updates}");
}

/// Says how many pictures of a server were written.
pub fn tell_filmed<N: Write>(pictures: u64, notes: &mut N) {
    let _ = writeln!(notes, "rfb: pictures written: {pictures}");
}

// Says why a read failed, after what was heard.
fn tell_read<N: Write>(error: &io::Error, heard: &Heard, notes: &mut N) {
    let kind = error.kind();
    let _ = match heard.origin() {
        Origin::Connection if heard.is_late() => {
            let total = heard.total();
            let bytes = if total == 1 { "byte" } else { "bytes" };
            writeln!(
                notes,
                "rfb: the time of --timeout is up: {total} {bytes} had come"
            )
        }
        // Whoever reads it says so.
        Origin::Recording if is_lasting(kind) => Ok(()),
        _ => writeln!(notes, "rfb: reading failed: {error}"),
    };
}
