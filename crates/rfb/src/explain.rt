//! Sentences on standard error, for a person who reads there: why a command fails, and how it goes.
//!
//! They come beside the lines of the command itself, before the one that says why it fails. Nothing
//! else depends on them: a sentence that cannot be written is lost.

mod early;
mod escaped;
mod failing;
mod greeting;
mod heard;
mod hearing;
mod keeping;
mod naming;
mod placing;
mod telling;

use crate::fault::{Failure, Fault};
use crate::options::address::Address;
pub use early::{Early, tell_closed, tell_part};
pub use escaped::Escaped;
pub use failing::{Flaw, ServerFlaw, tell_client, tell_server};
pub use heard::Heard;
pub use hearing::{Hearing, Shared, tell_filmed, tell_played};
pub use keeping::Writing;
pub use placing::tell_place;
use std::io::Write;
use std::{fmt, io};
pub use telling::{Origin, Telling};

const NOT_READY: &str = "\
rfb: the viewer has no picture yet: it has one once its handshake is done, which `settle` delivers";

const NO_SUCH_SLOT: &str = "rfb: there is no viewer in the slot that the last line names";

const NO_MEMORY: &str = "rfb: the system has refused memory";

// Why something cannot be done with a file.
const NO_PICTURE: &str = "\
a picture is a PPM (P6) of 1 to 4096 pixels a side, with 255 or 65535 as its largest component";

const TERMINAL: &str = "it is a terminal, which shows no picture and no recording";

/// Where sentences go: to `errors`, or nowhere.
#[derive(Drop)]
pub struct Notes<'a, E> {
    errors: &'a mut E,
    are_wanted: bool,
}

impl<'a, E> Notes<'a, E> {
    /// Sentences go to `errors` if any are wanted.
    pub fn new(errors: &'a mut E, are_wanted: bool) -> Notes<'a, E> {
        Notes { errors, are_wanted }
    }
}

impl<E: Write> Write for Notes<'_, E> {
    fn write(&mut self, buf: &[u8]) -> io::Result<usize> {
        if self.are_wanted {
            return self.errors.write(buf);
        }
        Ok(buf.len())
    }

    fn flush(&mut self) -> io::Result<()> {
        Ok(())
    }
}

/// Says why there is no picture, or that memory was refused, if that is why a command fails. All
/// else is said where it happens.
pub fn tell_own<N: Write>(failure: &Failure, notes: &mut N) {
    let text = match failure {
        Failure::Fault(Fault::NotReady) => NOT_READY,
        Failure::Fault(Fault::NoSuchSlot) => NO_SUCH_SLOT,
        Failure::Fault(Fault::NoMemory) => NO_MEMORY,
        _ => return,
    };
    let _ = writeln!(notes, "{text}");
}

/// Says why a connection to a server could not be had, if so.
pub fn tell_unreached<S, N: Write>(server: Address<'_>, connected: &io::Result<S>, notes: &mut N) {
    if let Err(error) = connected {
        let _ = writeln!(
            notes,
            "rfb: no connection to {}, port {}: {error}",
            Escaped(server.host.as_bytes()),
            server.port
        );
    }
}

/// Says that a port of an address is listened on.
pub fn tell_bound<N: Write>(host: &str, port: u16, notes: &mut N) {
    let _ = writeln!(
        notes,
        "rfb: listening on {}:{port}",
        Escaped(host.as_bytes())
    );
}

/// Says that it cannot be.
pub fn tell_unbound<N: Write>(host: &str, port: u16, error: &io::Error, notes: &mut N) {
    let _ = writeln!(
        notes,
        "rfb: cannot listen on {}:{port}: {error}",
        Escaped(host.as_bytes())
    );
}

/// Says that standard output is closed, where it is needed.
pub fn tell_closed_output<N: Write>(notes: &mut N) {
    let _ = writeln!(
        notes,
        "rfb: standard output is closed, and lines go there that say what viewers do"
    );
}

/// Says that this process could not be connected to itself.
pub fn tell_unlinked<N: Write>(error: &io::Error, notes: &mut N) {
    let _ = writeln!(notes, "rfb: no connection of 127.0.0.1 to itself: {error}");
}

/// Says that standard output cannot be written.
pub fn tell_unshowable<N: Write>(error: &io::Error, notes: &mut N) {
    let _ = writeln!(notes, "rfb: cannot write standard output: {error}");
}

/// Says that a file cannot be read.
pub fn tell_unread<N: Write>(path: &str, error: &io::Error, notes: &mut N) {
    tell_not_done("read", path, error, notes);
}

/// Says that a file's picture cannot be shown.
pub fn tell_unshown<N: Write>(path: &str, notes: &mut N) {
    tell_not_done("show", path, NO_PICTURE, notes);
}

/// Says that a file cannot be written.
pub fn tell_unwritten<N: Write>(path: &str, error: &io::Error, notes: &mut N) {
    tell_not_done("write", path, error, notes);
}

/// Says that a file is a terminal, and no place for a picture.
pub fn tell_terminal<N: Write>(path: &str, notes: &mut N) {
    tell_not_done("write", path, TERMINAL, notes);
}

// Says what cannot be done with a file, and why.
fn tell_not_done<D: fmt::Display + Drop, N: Write>(what: &str, path: &str, why: D, notes: &mut N) {
    let _ = writeln!(
        notes,
        "rfb: cannot {what} {}: {why}",
        Escaped(path.as_bytes())
    );
}

/// Says why what was to be sent did not go out, if so.
pub fn tell_unsent<N: Write>(failure: &Option<io::Error>, notes: &mut N) {
    if let Some(error) = failure {
        let _ = writeln!(notes, "rfb: sending to the server failed: {error}");
    }
}
