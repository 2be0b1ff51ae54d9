//! The lines that draw or give a hint, of scripts and of owners.

ghost use Rattle.std.specs.Prelude.{◌∷◌, MatchOption};
ghost use Rattle.rfb_session.specs.declared.language.drawing.DrawingLine.{DrawingLine};
ghost use Rattle.rfb_session.specs.language.Lines.{SaysDrawing};
ghost use Rattle.rfb_session.specs.language.Words.{texts};

use crate::language::{read_fill, read_move};
use rfb_picture::Rect;
use rfb_pixel::Colour;

/// The words that these lines begin with.
pub const FILL: &[u8] = b"fill";

pub const COPY: &[u8] = b"copy";

pub const HINT: &[u8] = b"hint";

/// What such a line says.
#[derive(Clone, Copy)]
pub enum DrawingLine {
    /// A rectangle gets one colour.
    Fill(Rect, Colour),
    /// A rectangle gets what the one of its size at a column and a row had.
    Copy(Rect, u16, u16),
    /// A hint: a rectangle looks as the one of its size at a column and a row did.
    Hint(Rect, u16, u16),
}

/// What a keyword and the words after it ask to be drawn. It is `None` where they ask for nothing,
/// or for something else.
pub fn read_drawing(keyword: &[u8], rest: &[&[u8]]) -> Option<DrawingLine>
    ensures { MatchOption result
        ((line : DrawingLine) → ¬ (SaysDrawing (keyword.now ∷ texts rest.now) line))
        (SaysDrawing (keyword.now ∷ texts rest.now)) }
{
    if keyword == FILL {
        let (rect, colour) = read_fill(rest)?;
        return Some(DrawingLine::Fill(rect, colour));
    }
    if keyword == COPY {
        let (rect, sx, sy) = read_move(rest)?;
        return Some(DrawingLine::Copy(rect, sx, sy));
    }
    if keyword == HINT {
        let (rect, sx, sy) = read_move(rest)?;
        return Some(DrawingLine::Hint(rect, sx, sy));
    }
    None
}
