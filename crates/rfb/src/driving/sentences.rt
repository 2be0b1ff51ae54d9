//! Sentences about what happens to the lines of a rig.

use crate::explain::Escaped;
use crate::sharing::speaker::say_why_gone;
use rfb_pixel::Colour;
use rfb_session::console::Note;
use rfb_session::drive::{BadLine, DriveSaying, Keyword, Lateness, LineFlaw, RigFault, Unlike};
use std::fmt::Write as _;
use std::{fmt, io};

/// What became of what a line that is late leaves.
#[derive(Clone, Copy)]
pub enum Kept {
    /// Nothing was to be left.
    Nothing,
    /// It is in its folder.
    In,
    /// It could not be written, or not all of it.
    Failed(io::Error),
}

/// Says what there is to say. `failure` is why the last file was not read or written.
pub fn say_drive(
    saying: &DriveSaying<'_>,
    failure: &Option<io::Error>,
    note: &mut Note,
) -> fmt::Result {
    match saying {
        DriveSaying::BadLine { number, why } => say_bad(*number, *why, note),
        DriveSaying::Late { number, why } => say_late(*number, *why, note),
        DriveSaying::File { number, name, why } => say_file(*number, name, *why, failure, note),
        DriveSaying::ServerLeft { why } => say_why_gone(*why, note),
        DriveSaying::NoFirstPicture => {
            writeln!(note, "rfb: the server's first update was not whole in time")
        }
    }
}

/// Says where what a late line left is.
pub fn say_kept(
    saying: &DriveSaying<'_>,
    folder: Option<&str>,
    kept: &Kept,
    note: &mut Note,
) -> fmt::Result {
    let (DriveSaying::Late { .. }, Some(folder)) = (saying, folder) else {
        return Ok(());
    };
    let folder = Escaped(folder.as_bytes());
    match kept {
        Kept::Nothing => Ok(()),
        Kept::In => writeln!(note, "rfb: what the screen showed is in {folder}"),
        Kept::Failed(error) => {
            writeln!(
                note,
                "rfb: cannot write what the screen showed to {folder}: {error}"
            )
        }
    }
}

// Says what is wrong with a line.
fn say_bad(number: u64, why: LineFlaw<'_>, note: &mut Note) -> fmt::Result {
    write!(note, "rfb: line {number}: ")?;
    match why {
        LineFlaw::TooLong => writeln!(note, "it has more than 65536 bytes"),
        LineFlaw::Unread {
            line,
            why: BadLine::Unknown,
        } => { writeln!(note, "no line begins with `{}`", Escaped(first_word(line))) }
        LineFlaw::Unread {
            why: BadLine::Wants(keyword),
            ..
        } => { writeln!(note, "after its first word comes {}", wanted_by(keyword)) }
        LineFlaw::PlaceOff { place, screen } => writeln!(
            note,
            "({}, {}) is not on the screen of {} by {}",
            place.x, place.y, screen.width, screen.height
        ),
        LineFlaw::PartOff { part, screen } => writeln!(
            note,
            "{} by {} at ({}, {}) is no part of the screen of {} by {}",
            part.w, part.h, part.x, part.y, screen.width, screen.height
        ),
        LineFlaw::PictureOff {
            name,
            width,
            height,
            at,
            screen,
        } => writeln!(
            note,
            "{} has {width} by {height}, which at ({}, {}) leaves the screen of {} by {}",
            Escaped(name),
            at.x,
            at.y,
            screen.width,
            screen.height
        ),
    }
}

// The first word of a line, or its beginning.
fn first_word(line: &[u8]) -> &[u8] {
    let few = &line[..line.len().min(40)];
    match few.iter().position(|byte| *byte == b' ') {
        Some(end) => &few[..end],
        None => few,
    }
}

// What comes after a keyword.
fn wanted_by(keyword: Keyword) -> &'static str {
    match keyword {
        Keyword::Key => "1 to 8 words, each of 1 to 8 names of keys with hyphens between them",
        Keyword::Down | Keyword::Up => "the name of a key",
        Keyword::Text => "a text of UTF-8, of whose characters each has a key",
        Keyword::Move | Keyword::Drag => "a column and a row",
        Keyword::Click | Keyword::Double => {
            "nothing, or a button from 1 to 8, or a column and a row, or all three"
        }
        Keyword::Wheel => "`up` or `down`, and how often",
        Keyword::Paste => "hexadecimal digits, two for each byte",
        Keyword::PasteFile => "the name of a file",
        Keyword::Save => "the name of a file, and then nothing or X Y W H",
        Keyword::Expect => "the name of a file, and then nothing, `at X Y`, `within N` or both",
        Keyword::Still | Keyword::Wait | Keyword::Timeout => "a number of seconds",
        Keyword::UntilChange => "nothing, or X Y W H",
    }
}

// Says why a line was not done in time.
fn say_late(number: u64, why: Lateness, note: &mut Note) -> fmt::Result {
    write!(note, "rfb: line {number} was not done in time: ")?;
    match why {
        Lateness::Unsent => writeln!(note, "the server did not take what it sends"),
        Lateness::Unlike(unlike) => say_unlike(unlike, note),
        Lateness::Moving => writeln!(note, "the screen was not still for so long"),
        Lateness::Unchanged => writeln!(note, "nothing changed"),
    }
}

// Says where a screen is not as it was expected.
fn say_unlike(unlike: Unlike, note: &mut Note) -> fmt::Result {
    let pixels = if unlike.count == 1 {
        "pixel differs"
    } else {
        "pixels differ"
    };
    write!(
        note,
        "{} {pixels}, the first at ({}, {}), ",
        unlike.count, unlike.x, unlike.y
    )?;
    writeln!(
        note,
        "which shows {}, not {}",
        Shade(unlike.shown),
        Shade(unlike.expected)
    )
}

// Says what is wrong with a file.
fn say_file(
    number: u64,
    name: &[u8],
    why: RigFault,
    failure: &Option<io::Error>,
    note: &mut Note,
) -> fmt::Result {
    write!(note, "rfb: line {number}: {}: ", Escaped(name))?;
    match (why, failure) {
        (RigFault::BadPicture(flaw), _) => writeln!(note, "bad picture {flaw}"),
        (RigFault::TooLong, _) => writeln!(note, "it has more than 1048576 bytes"),
        (RigFault::NoMemory, _) => writeln!(note, "there is no memory for it"),
        (RigFault::NoFile, Some(error)) => writeln!(note, "{error}"),
        (RigFault::NoFile, None) => writeln!(note, "it cannot be read or written"),
    }
}

// A colour, by six digits where two are enough for each component, else by twelve.
#[derive(Clone, Copy)]
struct Shade(Colour);

impl fmt::Display for Shade {
    fn fmt<F: fmt::Write>(&self, f: &mut fmt::Formatter<F>) -> fmt::Result {
        let Colour { r, g, b } = self.0;
        if r % 257 == 0 && g % 257 == 0 && b % 257 == 0 {
            write!(f, "{:02x}{:02x}{:02x}", r / 257, g / 257, b / 257)
        } else {
            write!(f, "{r:04x}{g:04x}{b:04x}")
        }
    }
}
