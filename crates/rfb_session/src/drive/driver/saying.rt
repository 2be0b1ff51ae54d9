//! Sentences about what happens to a rig's lines, which others make.

use crate::drive::drive_line::BadLine;
use crate::drive::driver::rig::RigFault;
use crate::drive::words::Place;
use crate::relay::Gone;
use rfb_picture::Rect;
use rfb_pixel::Colour;

/// How many columns and rows the screen has.
#[derive(Clone, Copy, Debug, PartialEq, Eq)]
pub struct ScreenSize {
    pub width: u16,
    pub height: u16,
}

/// Why a line is bad.
#[derive(Clone, Copy, Debug)]
pub enum LineFlaw<'a> {
    /// It has more than 65,536 bytes.
    TooLong,
    /// This line says nothing.
    Unread {
        line: &'a [u8],
        why: BadLine,
    },
    /// A place is not on the screen, which has this size.
    PlaceOff {
        place: Place,
        screen: ScreenSize,
    },
    /// A part has no place, or leaves the screen.
    PartOff {
        part: Rect,
        screen: ScreenSize,
    },
    /// The picture of a file, of this width and height, leaves the screen where it is expected.
    PictureOff {
        name: &'a [u8],
        width: u16,
        height: u16,
        at: Place,
        screen: ScreenSize,
    },
}

/// How the screen last was not as it was expected: how many places were not, and the first of them
/// in row order, with what was shown there and what was expected.
#[derive(Clone, Copy)]
pub struct Unlike {
    pub count: u32,
    pub x: u16,
    pub y: u16,
    pub shown: Colour,
    pub expected: Colour,
}

/// Why a line is not done.
#[derive(Clone, Copy)]
pub enum Lateness {
    /// The server did not take its messages.
    Unsent,
    /// The screen did not show the picture.
    Unlike(Unlike),
    /// The screen did not stay as it was.
    Moving,
    /// Nothing changed.
    Unchanged,
}

/// What there is to say.
#[derive(Clone, Copy)]
pub enum DriveSaying<'a> {
    /// The line of this number is bad.
    BadLine {
        number: u64,
        why: LineFlaw<'a>,
    },
    /// It was not done in time.
    Late {
        number: u64,
        why: Lateness,
    },
    /// A file that it names could not be read or written.
    File {
        number: u64,
        name: &'a [u8],
        why: RigFault,
    },
    /// The server has gone away.
    ServerLeft {
        why: Gone,
    },
    /// The server's first update was not whole in time.
    NoFirstPicture,
}
