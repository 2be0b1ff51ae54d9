//! The faults, the refusals and what is wrong with a picture, by number, with what they mean:
//! `rfb help faults`.

use crate::fault::Fault;
use rfb_codec::PaintFault;
use rfb_hello::HelloFault;
use rfb_pixel::FormatFault;
use rfb_session::netpbm::Flaw;
use rfb_session::{EngineFault, HubFault};
use rfb_wire::WireFault;
use std::fmt::Display;
use std::io;
use std::io::Write;

const HEAD: &str = "\
Each fault and refusal by its number and its name, and when it comes. 1 to 6 are of the format that a
client asks for, 1 to 23 of a peer's bytes. 24 to 27, 31 and 32 are refusals of a script's lines.
";

// What is wrong in each way, or refused, by its number, and when it comes.
const OF_FORMATS: [(FormatFault, &str); 6] = [
    (FormatFault::BadBits, "bits-per-pixel is not 8, 16 or 32"),
    (FormatFault::DepthTooLarge, "depth is above bits-per-pixel"),
    (FormatFault::NotTrueColour, "the format has a colour map"),
    (
        FormatFault::BadMax,
        "a maximum is not 2^N - 1 with N from 1 to 16",
    ),
    (FormatFault::ShiftTooLarge, "a field leaves the pixel"),
    (FormatFault::FieldsOverlap, "two fields share a bit"),
];

const OF_MESSAGES: [(WireFault, &str); 3] = [
    (
        WireFault::UnknownMessage(0),
        "a message has an unknown type",
    ),
    (
        WireFault::UnknownEncoding(0),
        "a rectangle is in none of raw, copyrect, rre and hextile",
    ),
    (WireFault::RectOutside, "a rectangle leaves the screen"),
];

const OF_PAINTING: [(PaintFault, &str); 5] = [
    (
        PaintFault::SubrectOutside,
        "a subrectangle leaves its rectangle or its tile",
    ),
    (
        PaintFault::NoBackground,
        "a tile needs a background, and its rectangle has had none",
    ),
    (
        PaintFault::NoForeground,
        "a tile needs a foreground, and its rectangle has had none",
    ),
    (
        PaintFault::BothColourBits,
        "a tile has a foreground, and subrectangles with colours",
    ),
    (
        PaintFault::SourceOutside,
        "the source of a CopyRect leaves the screen",
    ),
];

const OF_HANDSHAKES: [(HelloFault, &str); 9] = [
    (
        HelloFault::BadVersion,
        "the peer's first bytes are no version of RFB",
    ),
    (
        HelloFault::VersionTooHigh,
        "a client's version is above the one offered",
    ),
    (
        HelloFault::BadSecurityChoice,
        "a client chose another security type than None",
    ),
    (
        HelloFault::NoneNotOffered,
        "a server does not offer the security type None",
    ),
    (
        HelloFault::Refused(0),
        "a server refuses the connection, with a reason",
    ),
    (
        HelloFault::BadSecurityWord,
        "a server of version 3.3 has a security type above 2",
    ),
    (
        HelloFault::SecurityFailed(0),
        "a server does not let the viewer in, with a reason",
    ),
    (HelloFault::ScreenEmpty, "a server's screen has no pixel"),
    (
        HelloFault::ScreenTooLarge,
        "a server's screen has more than 16777216 pixels",
    ),
];

const OF_CALLS: [(HubFault, &str); 4] = [
    (HubFault::Outside, "a drawing or a hint leaves the screen"),
    (
        HubFault::NotReady,
        "the viewer is not ready, or there is no picture to write",
    ),
    (HubFault::Busy, "a request is outstanding"),
    (
        HubFault::AreaOutside,
        "the area of a request is empty, or leaves the screen",
    ),
];

const OF_ENGINES: [(EngineFault, &str); 3] = [
    (
        EngineFault::Truncated,
        "bytes end inside a message or the handshake",
    ),
    (
        EngineFault::Device,
        "a read, a write or a connection failed, or the time of --timeout was up",
    ),
    (EngineFault::NoMemory, "memory was refused"),
];

const OF_SLOTS: [(HubFault, &str); 1] = [(
    HubFault::SlotTaken,
    "a viewer joins a slot that already has one",
)];

const OF_PROGRAM: [(Fault, &str); 1] = [(
    Fault::NoSuchSlot,
    "there is no viewer in the slot that is named",
)];

// What is wrong with the file of a picture that is to be served.
const PICTURES: [Flaw; 7] = [
    Flaw::NoPixmap,
    Flaw::NoNumber,
    Flaw::BadSide,
    Flaw::BadMaximum,
    Flaw::NoBlank,
    Flaw::TooShort,
    Flaw::TooLong,
];

const PICTURES_HEAD: &str = "
A picture that `serve --picture` does not show is refused by the first of these that holds.
";

/// Writes them, a line each.
pub fn write_faults<W: Write>(output: &mut W) -> io::Result<()> {
    writeln!(output, "{HEAD}")?;
    write_rows(&OF_FORMATS, output)?;
    write_rows(&OF_MESSAGES, output)?;
    write_rows(&OF_PAINTING, output)?;
    write_rows(&OF_HANDSHAKES, output)?;
    write_rows(&OF_CALLS, output)?;
    write_rows(&OF_ENGINES, output)?;
    write_rows(&OF_SLOTS, output)?;
    write_rows(&OF_PROGRAM, output)?;
    writeln!(output, "{PICTURES_HEAD}")?;
    for flaw in &PICTURES {
        writeln!(output, "bad picture {flaw}")?;
    }
    output.flush()
}

// Writes each with its number and its name, and when it comes.
fn write_rows<F: Display, W: Write>(rows: &[(F, &str)], output: &mut W) -> io::Result<()> {
    for (fault, meaning) in rows {
        writeln!(output, "{fault}: {meaning}")?;
    }
    Ok(())
}
