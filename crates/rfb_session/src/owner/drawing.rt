//! What a line of the owner's asks to be drawn.

ghost use Rattle.std.specs.Prelude.{◌≡◌, option_map};
ghost use Rattle.rfb_server.specs.Strokes.{stroke};
ghost use Rattle.rfb_session.specs.owner.OwnerStroke.{stroke_of};

use crate::owner::order::OwnerLine;
use rfb_server::Drawing;

/// What a line with no pixels asks to be drawn, or the hint that it gives, if it does either.
pub fn drawing_of(line: &OwnerLine) -> Option<Drawing<'static>>
    ensures { option_map (λ drawing. stroke drawing) result ≡ stroke_of line.now }
{
    match line {
        OwnerLine::Fill(rect, colour) => Some(Drawing::Fill(*rect, *colour)),
        OwnerLine::Copy(rect, sx, sy) => Some(Drawing::Copy(*rect, *sx, *sy)),
        OwnerLine::Hint(rect, sx, sy) => Some(Drawing::Hint(*rect, *sx, *sy)),
        OwnerLine::Scroll(area, dx, dy) => Some(Drawing::Scroll(*area, *dx, *dy)),
        OwnerLine::Screen(_) | OwnerLine::Pixels(_) | OwnerLine::End(_) => None,
        OwnerLine::Hold | OwnerLine::Show | OwnerLine::Quit => None,
    }
}
