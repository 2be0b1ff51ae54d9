//! The standard input of the process, and its standard output, which may be a terminal: that is no
//! place for a picture.

use crate::explain::{Notes, tell_unread, tell_unshowable};
use std::io;
use std::io::{ErrorKind, Read, Write};

// What a picture begins with, and what a server's bytes do.
const PICTURE: &[u8] = b"P6\n";

const RECORDING: &[u8] = b"RFB ";

const REFUSAL: &str = "\
rfb: standard output is a terminal, which shows no picture and no recording: name a file by -o";

/// An input. Where a read of it fails for good, `notes` say so.
#[derive(Drop)]
pub struct StandardInput<'a, R, E> {
    input: R,
    notes: Notes<'a, E>,
}

impl<'a, R, E> StandardInput<'a, R, E> {
    /// Reads from `input`.
    pub fn new(input: R, notes: Notes<'a, E>) -> StandardInput<'a, R, E> {
        StandardInput { input, notes }
    }
}

impl<R: Read, E: Write> Read for StandardInput<'_, R, E> {
    fn read(&mut self, buf: &mut [u8]) -> io::Result<usize> {
        let result = self.input.read(buf);
        if let Err(error) = &result {
            if is_lasting(error.kind()) {
                tell_unread("standard input", error, &mut self.notes);
            }
        }
        result
    }
}

/// Whether a read that fails so is not tried again.
pub fn is_lasting(kind: ErrorKind) -> bool {
    kind != ErrorKind::Interrupted && kind != ErrorKind::WouldBlock
}

/// Whether a read that ends so has waited for its limit.
pub fn is_late(kind: ErrorKind) -> bool {
    kind == ErrorKind::WouldBlock || kind == ErrorKind::TimedOut
}

/// An output that, where it is a terminal, takes text alone.
#[derive(Drop)]
pub struct StandardOutput<'a, W, E> {
    output: W,
    is_terminal: bool,
    notes: Notes<'a, E>,
}

impl<'a, W, E> StandardOutput<'a, W, E> {
    /// Writes to `output`. Where a picture or a recording is refused, or a write fails, `notes` say
    /// so.
    pub fn new(output: W, is_terminal: bool, notes: Notes<'a, E>) -> StandardOutput<'a, W, E> {
        StandardOutput {
            output,
            is_terminal,
            notes,
        }
    }
}

// Whether bytes begin a picture or a recording, if only with a part of its first word, or are no
// text. A server may send its first byte alone, or what means something to a terminal.
fn is_unshowable(bytes: &[u8]) -> bool {
    let is_part = !bytes.is_empty() && RECORDING.starts_with(bytes);
    bytes.starts_with(PICTURE) || bytes.starts_with(RECORDING) || is_part || !is_text(bytes)
}

// Whether these are printable ASCII characters and newlines.
fn is_text(bytes: &[u8]) -> bool {
    for byte in bytes {
        if *byte != b'\n' && !matches!(*byte, b' '..=b'~') {
            return false;
        }
    }
    true
}

impl<W: Write, E: Write> Write for StandardOutput<'_, W, E> {
    /// Writes to a terminal text that does not begin as a picture or a recording does. Else it is
    /// an error of the kind `InvalidInput`.
    fn write(&mut self, buf: &[u8]) -> io::Result<usize> {
        if self.is_terminal && is_unshowable(buf) {
            let _ = writeln!(self.notes, "{REFUSAL}");
            return Err(io::Error::from(ErrorKind::InvalidInput));
        }
        let written = self.output.write(buf);
        if let Err(error) = &written {
            tell_unshowable(error, &mut self.notes);
        }
        written
    }

    fn flush(&mut self) -> io::Result<()> {
        let flushed = self.output.flush();
        if let Err(error) = &flushed {
            tell_unshowable(error, &mut self.notes);
        }
        flushed
    }
}
