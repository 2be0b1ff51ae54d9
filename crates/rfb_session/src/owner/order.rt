//! What the owner of a share says, as values.

use crate::language::Screen;
use rfb_picture::Rect;
use rfb_pixel::Colour;

/// What one line says, by itself.
#[derive(Clone, Copy)]
pub enum OwnerLine {
    /// The size of the screen: the first line that is not empty.
    Screen(Screen),
    /// A rectangle gets one colour.
    Fill(Rect, Colour),
    /// A rectangle gets what the one of its size at a column and a row had.
    Copy(Rect, u16, u16),
    /// A hint for viewers: a rectangle looks as the one of its size there did.
    Hint(Rect, u16, u16),
    /// What lies in a rectangle moves by these numbers of columns to the right and of rows down.
    Scroll(Rect, i16, i16),
    /// The colours of a rectangle follow, three bytes for each place, and a newline.
    Pixels(Rect),
    /// The viewer of a seat is disconnected.
    End(u8),
    /// What is drawn from here on is not shown yet.
    Hold,
    /// What has been drawn is shown, and what is drawn from here on.
    Show,
    /// All ends.
    Quit,
}

/// Why what was read is not done.
#[derive(Clone, Copy)]
pub enum Refusal {
    /// It says nothing that may come there.
    Bad,
    /// There is no memory for its pixels.
    NoMemory,
}

/// What a line says, with its pixels, once all of it is read.
#[derive(Drop)]
pub enum Order {
    /// An empty line.
    Nothing,
    /// A line with no pixels.
    Line(OwnerLine),
    /// A rectangle gets these colours, row by row, red, green and blue a byte each.
    Pixels(Rect, Vec<u8>),
    /// What was read is not done.
    Refused(Refusal),
}
