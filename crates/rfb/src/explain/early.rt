//! Sentences for bytes that end too early.

use crate::explain::naming::FormatName;
use crate::explain::{Heard, Telling};
use rfb_pixel::Format;
use rfb_session::EngineFault;
use rfb_viewer::Viewer;
use std::io::Write;

const WRITTEN: &str = "rfb: the picture of what came is written all the same";

const UNWRITTEN: &str = "rfb: no picture is written: --partial writes that of what came";

/// What had come by an early end.
#[derive(Clone, Copy)]
pub struct Early {
    /// Whether the handshake was done.
    pub is_ready: bool,
    /// How many updates had ended.
    pub updates: u64,
    // Whether the bytes end between two messages.
    is_between: bool,
    // Whether it ended by a read that waited for its limit.
    is_late: bool,
}

impl Early {
    /// As a watcher and a reader heard it, of what this viewer was fed.
    pub fn new<N>(telling: &Telling<N>, viewer: &Viewer, heard: &Heard) -> Early {
        let (is_ready, updates) = telling.heard();
        Early {
            is_ready,
            updates,
            is_between: viewer.between(),
            is_late: heard.is_late(),
        }
    }

    // Whether a part of an update had come.
    fn has_part(self) -> bool {
        self.updates != 0 || self.is_ready && !self.is_between
    }
}

/// Says that a server closed the connection where it was asked for pixels of this format, if
/// nothing of its own came after that.
pub fn tell_closed<N: Write>(fault: EngineFault, came: Early, format: Format, notes: &mut N) {
    let has_asked = came.is_ready && came.updates == 0 && came.is_between;
    if is_early(fault) && has_asked && !came.is_late {
        let _ = writeln!(
            notes,
            "rfb: the server closed the connection right after it was asked for pixels in {}",
            FormatName(format)
        );
    }
}

/// Says whether the picture of what had come is written, if a part of an update had.
pub fn tell_part<N: Write>(fault: EngineFault, came: Early, is_wanted: bool, notes: &mut N) {
    if is_early(fault) && came.has_part() {
        let text = if is_wanted { WRITTEN } else { UNWRITTEN };
        let _ = writeln!(notes, "{text}");
    }
}

// Whether the bytes ended, and nothing in them was wrong.
fn is_early(fault: EngineFault) -> bool {
    match fault {
        EngineFault::Truncated | EngineFault::Device => true,
        EngineFault::Server(_) | EngineFault::Viewer(_) | EngineFault::NoMemory => false,
    }
}
