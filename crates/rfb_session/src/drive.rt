//! A test rig's hands and eyes: lines of text that ask for what a user would do at a screen, and
//! for what it is to show.
//!
//! ```text
//! key NAME..                         the keys of each name go down and up, as ctrl-alt-delete
//! down NAME, up NAME                 a key goes down, or up
//! type TEXT                          all that follows is typed, with its spaces
//! move X Y, drag X Y                 the pointer goes to a place; with the first button down
//! click [BUTTON] [X Y]               a button goes down and up, 1 to 8, the first if none is named
//! double [BUTTON] [X Y]              it does so twice
//! wheel up|down N                    the wheel turns so many times
//! paste HEX, paste-file FILE         a text is cut
//! save FILE [X Y W H]                what the screen shows is written, or a part of it
//! expect FILE [at X Y] [within N]    it comes to show a picture, each component within N of 255
//! still S, wait S                    nothing changes for so many seconds; so many seconds pass
//! until-change [X Y W H]             the screen changes, or a part of it
//! timeout S                          the lines after it have so many seconds each
//! ```
//!
//! A name of a key is one of X11's, whatever the case of its letters, one character, or a number
//! such as `0xFF0D`. Nothing here reads a file, writes one or waits: `Driver` runs the lines at
//! numbered doors, and a `Rig` has the files.

mod arguments;
mod comparing;
mod drive_line;
mod driver;
mod key_event;
mod keys;
mod keyword;
pub mod laws;
mod line;
mod names;
mod near;
mod pictures;
#[cfg(test)]
mod tests;
mod typing;
mod words;

pub use arguments::{
    PRESSES_MAX, read_at, read_key, read_place, read_press, read_presses, read_seconds, read_wheel,
};
pub use comparing::{Difference, compare};
pub use drive_line::{BadLine, DriveLine};
pub use driver::{
    DriveOutcome, DriveSaying, Driver, DriverSetup, Lateness, LineFlaw, ORDERS, Rig, RigFault,
    ScreenSize, Unlike,
};
pub use key_event::KeyEvent;
pub use keys::{KEYS_MAX, key_of, pressing, read_combination};
pub use keyword::{Keyword, each_keyword_has_a_word, read_keyword};
pub use line::read_drive_line;
pub use names::{each_name_stands_once, key_named};
pub use near::{RowDifference, compare_rows, is_near};
pub use pictures::{read_digits, read_file, read_likeness, read_only_file, read_part};
pub use typing::{is_shifted, key_of_char, type_char, type_text};
pub use words::{Likeness, Place, Press, Way};
