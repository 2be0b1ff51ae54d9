//! Sentences for what an engine ended with.

use crate::explain::greeting::{has_version, tell_types};
use crate::explain::naming::EncodingNumber;
use crate::explain::{Escaped, Heard};
use rfb_server::ServerFault;
use rfb_session::EngineFault;
use rfb_viewer::{Viewer, ViewerFault};
use std::io::Write;
use std::{fmt, io};

/// Says why no more was looked at of what a server sent. `viewer` is the one that was fed it.
pub fn tell_server<N: Write>(fault: EngineFault, viewer: &Viewer, heard: &Heard, notes: &mut N) {
    let _ = match fault {
        EngineFault::Viewer(fault) => tell_viewer_fault(fault, viewer, heard, notes),
        EngineFault::Truncated => tell_end(heard, notes),
        EngineFault::Device => tell_stranger(heard, notes),
        EngineFault::NoMemory => writeln!(notes, "rfb: there is no memory"),
        EngineFault::Server(_) => Ok(()),
    };
}

// Says that the bytes of a server end too early; or that they are of something else.
fn tell_end<N: Write>(heard: &Heard, notes: &mut N) -> io::Result<()> {
    if !has_version(heard.as_slice()) {
        return tell_stranger(heard, notes);
    }
    writeln!(
        notes,
        "rfb: the server's bytes end too early, after {} of them",
        heard.total()
    )
}

// Says what came in place of a version, if something did.
fn tell_stranger<N: Write>(heard: &Heard, notes: &mut N) -> io::Result<()> {
    let bytes = heard.as_slice();
    if has_version(bytes) {
        return Ok(());
    }
    writeln!(
        notes,
        "rfb: in place of a version came `{}`: no server of RFB begins like that",
        Escaped(bytes)
    )
}

// What a server did wrong, or refused.
fn tell_viewer_fault<N: Write>(
    fault: ViewerFault,
    viewer: &Viewer,
    heard: &Heard,
    notes: &mut N,
) -> io::Result<()> {
    match fault {
        ViewerFault::BadVersion => tell_stranger(heard, notes),
        ViewerFault::NoneNotOffered | ViewerFault::BadSecurityWord => {
            tell_types(viewer.offered(), notes)
        }
        ViewerFault::Refused(_) => tell_reason("refuses the connection", viewer.reason(), notes),
        ViewerFault::SecurityFailed(_) => {
            tell_reason("does not let the viewer in", viewer.reason(), notes)
        }
        other => writeln!(notes, "rfb: {}", ServerFlaw(other)),
    }
}

// Which reason a server gave for what it does, if it gave one.
fn tell_reason<N: Write>(does: &str, reason: &[u8], notes: &mut N) -> io::Result<()> {
    if reason.is_empty() {
        return writeln!(notes, "rfb: the server {does}, and gives no reason");
    }
    writeln!(
        notes,
        "rfb: the server {does}, and says `{}`",
        Escaped(reason)
    )
}

/// What a server did wrong, or refused, as far as its fault says it. It prints as a clause.
#[derive(Clone, Copy)]
pub struct ServerFlaw(pub ViewerFault);

impl fmt::Display for ServerFlaw {
    fn fmt<F: fmt::Write>(&self, f: &mut fmt::Formatter<F>) -> fmt::Result {
        match self.0 {
            ViewerFault::UnknownMessage(kind) => write!(
                f,
                "a message has type {kind}, which no server has in RFC 6143"
            ),
            ViewerFault::UnknownEncoding(number) => write!(
                f,
                "a rectangle has encoding {}, and only raw, copyrect, rre and hextile are taken",
                EncodingNumber(number)
            ),
            other => f.write_str(flaw_of_server(other)),
        }
    }
}

// What is wrong with what a server sent, where its fault alone says it.
fn flaw_of_server(fault: ViewerFault) -> &'static str {
    match fault {
        ViewerFault::BadVersion => "the other end sent no version: it is no server of RFB",
        ViewerFault::NoneNotOffered | ViewerFault::BadSecurityWord => {
            "the server offers no security type 1 (None)"
        }
        ViewerFault::Refused(_) => "the server refuses the connection",
        ViewerFault::SecurityFailed(_) => "the server does not let the viewer in",
        ViewerFault::ScreenEmpty => "the server's screen has no pixel",
        ViewerFault::ScreenTooLarge => "the server's screen has more than 16777216 pixels",
        ViewerFault::NoMemory => "there is no memory for the screen",
        ViewerFault::RectOutside => "a rectangle leaves the screen",
        ViewerFault::SubrectOutside => "a subrectangle leaves its rectangle or its tile",
        ViewerFault::NoBackground => "a tile of Hextile has no background",
        ViewerFault::NoForeground => "a tile of Hextile has no foreground",
        ViewerFault::BothColourBits => {
            "the mask of a tile of Hextile has a foreground, and subrectangles with colours"
        }
        ViewerFault::SourceOutside => "the source of a CopyRect leaves the screen",
        _ => "the server broke the protocol",
    }
}

/// Says why no more was looked at of what a client sent.
pub fn tell_client<N: Write>(fault: EngineFault, notes: &mut N) {
    let _ = match fault {
        EngineFault::Server(fault) => writeln!(notes, "rfb: {}", Flaw(fault)),
        EngineFault::Truncated => writeln!(
            notes,
            "rfb: the viewer left before its handshake or a message was whole"
        ),
        EngineFault::Device => writeln!(
            notes,
            "rfb: the connection to the viewer broke, or nothing came in the time of --timeout"
        ),
        EngineFault::NoMemory => writeln!(notes, "rfb: there is no memory for the viewer"),
        EngineFault::Viewer(_) => Ok(()),
    };
}

/// What a client did wrong. It prints as a clause.
#[derive(Clone, Copy)]
pub struct Flaw(pub ServerFault);

impl fmt::Display for Flaw {
    fn fmt<F: fmt::Write>(&self, f: &mut fmt::Formatter<F>) -> fmt::Result {
        match self.0 {
            ServerFault::BadBits
            | ServerFault::DepthTooLarge
            | ServerFault::BadMax
            | ServerFault::ShiftTooLarge
            | ServerFault::FieldsOverlap => write!(
                f,
                "the viewer asked for a pixel format that cannot be: {}",
                self.0
            ),
            ServerFault::UnknownMessage(kind) => write!(
                f,
                "the viewer sent a message of type {kind}, which no client has in RFC 6143"
            ),
            other => f.write_str(flaw_of_client(other)),
        }
    }
}

// What is wrong with what a client sent, where its fault alone says it.
fn flaw_of_client(fault: ServerFault) -> &'static str {
    match fault {
        ServerFault::BadVersion => "the other end sent no version: it is no viewer",
        ServerFault::VersionTooHigh => "the viewer's version is above the one offered",
        ServerFault::BadSecurityChoice => "the viewer chose another security type than 1 (None)",
        ServerFault::NotTrueColour => "the viewer asked for pixels by a colour map",
        ServerFault::NoMemory => "there is no memory for a text",
        _ => "the viewer broke the protocol",
    }
}
