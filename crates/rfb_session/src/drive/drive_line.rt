//! What the lines of a rig say, as values.

use crate::drive::arguments::PRESSES_MAX;
use crate::drive::key_event::KeyEvent;
use crate::drive::keyword::Keyword;
use crate::drive::words::{Likeness, Place, Press, Way};
use arrayvec::ArrayVec;
use rfb_picture::Rect;

/// What one line says. Names of files and texts are the line's own bytes.
#[derive(Drop)]
pub enum DriveLine<'a> {
    /// Keys go down and up, as these events say.
    Key(ArrayVec<KeyEvent, PRESSES_MAX>),
    /// A key goes down.
    Down(u32),
    /// A key goes up.
    Up(u32),
    /// A text is typed. Each of its characters has a key.
    Text(&'a str),
    /// The pointer goes to a place.
    Move(Place),
    /// A button goes down and up.
    Click(Press),
    /// It does so twice.
    Double(Press),
    /// The pointer goes to a place while the first button is down.
    Drag(Place),
    /// The wheel turns, so many times.
    Wheel(Way, u16),
    /// The text with these hexadecimal digits is cut.
    Paste(&'a [u8]),
    /// The text of a file is cut.
    PasteFile(&'a [u8]),
    /// What the screen shows, or a part of it, is written to a file.
    Save(&'a [u8], Option<Rect>),
    /// The screen is to show the picture of a file.
    Expect(&'a [u8], Likeness),
    /// Nothing changes for so many seconds.
    Still(u32),
    /// So many seconds pass.
    Wait(u32),
    /// The screen changes, or a part of it.
    UntilChange(Option<Rect>),
    /// The lines after it have so many seconds each.
    Timeout(u32),
}

/// Why a line is bad.
#[derive(Clone, Copy, Debug, PartialEq, Eq)]
pub enum BadLine {
    /// Its first word is no keyword.
    Unknown,
    /// What comes after its keyword is not what that wants.
    Wants(Keyword),
}
