//! The words of lines, for scripts and for owners of shares.
//!
//! Lines end in a newline, and one space parts two words. Numbers are decimal, of 1 to 10 digits,
//! up to 65,535. A colour has two hexadecimal digits for each component, which is 257 times as
//! much, or four.

mod arguments;
mod drawing;
mod number;
mod parting;
mod screen;
mod words;

pub use arguments::{read_fill, read_move, read_only_slot, read_size};
pub use drawing::{COPY, DrawingLine, FILL, HINT, read_drawing};
pub use number::{read_count, read_number};
pub use parting::{PIECES_MAX, parted, pieces};
pub use screen::{SCREEN, Screen};
pub use words::{
    MAX_SIDE, read_colour, read_encoding, read_encodings, read_format, read_list, read_rect,
    read_side, read_slot,
};
