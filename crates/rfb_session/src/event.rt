//! What can happen to a server and its viewer.

use arrayvec::ArrayVec;
use rfb_picture::Rect;
use rfb_pixel::{Colour, Format};
use rfb_wire::Encoding;

/// One thing that happens, as a value. Drawings are the server's, calls the viewer's.
#[derive(Debug, Drop)]
pub enum Event {
    /// A rectangle of the screen gets one colour.
    Fill(Rect, Colour),
    /// A part of a row of the screen gets these colours, from the column and the row on.
    Put(u16, u16, Vec<Colour>),
    /// A rectangle of the screen gets what the one of its size at a column and a row had.
    Copy(Rect, u16, u16),
    /// A hint to the server: a rectangle looks as the one of its size at a column and a row did.
    Hint(Rect, u16, u16),
    /// The viewer asks for an area, incrementally or whole, RFC 6143 section 7.5.3.
    Request(bool, Rect),
    /// The viewer asks for another format, section 7.5.1.
    SetFormat(Format),
    /// The viewer lists the encodings that it takes, section 7.5.2.
    SetEncodings(ArrayVec<Encoding, 4>),
    /// A key goes down or up at the viewer's, section 7.5.4.
    Key(bool, u32),
    /// The pointer moves at the viewer's: its buttons, its column and its row, section 7.5.5.
    Pointer(u8, u16, u16),
    /// A text is cut at the viewer's, section 7.5.6. It has at most 1,048,576 bytes.
    CutText(Vec<u8>),
    /// The server composes an update, if one is due.
    Compose,
    /// This number of bytes reaches the server, or all that are in flight to it, if they are fewer.
    ToServer(u32),
    /// This number of bytes reaches the viewer, or all that are in flight to it, if they are fewer.
    ToViewer(u32),
}
