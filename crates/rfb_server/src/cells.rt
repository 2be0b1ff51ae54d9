//! The cells of a screen, in which it is looked over.

ghost use Rattle.std.specs.Prelude.{◌≡◌, ◌*◌, ◌≤◌, ◌<◌};
ghost use Rattle.std.specs.Int.{div_ceil};
ghost use Rattle.rfb_server.specs.Cells.{IsCell, cell_at};

use rfb_picture::Rect;

/// How many columns and how many rows of places a cell has, but at the screen's edges.
const SIDE: u16 = 64;

/// The cell of that number, row by row from the top left. It lies on the screen.
pub(crate) fn cell_at(width: u16, height: u16, index: usize) -> Rect
    requires columns { width ≤ 4096 }
    requires rows { height ≤ 4096 }
    requires index { index < div_ceil width 64 * div_ceil height 64 }
    ensures cell { IsCell width height (div_ceil width 64) index result }
    ensures value { result ≡ cell_at width height index }
{
    let across = usize::from(width.div_ceil(SIDE));
    let x = (index % across) as u16 * SIDE;
    let y = (index / across) as u16 * SIDE;
    Rect {
        x,
        y,
        w: (width - x).min(SIDE),
        h: (height - y).min(SIDE),
    }
}
