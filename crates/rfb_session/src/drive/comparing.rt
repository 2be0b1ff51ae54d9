//! Whether a part of the screen shows a picture.

ghost use Rattle.std.specs.Prelude.{◌≡◌, ◌+◌, ◌*◌, ◌<◌, ◌≤◌, ◌^◌, IfSome, MatchOption};
ghost use Rattle.rfb_session.specs.drive.Compare.{Differs, joined, rows_of};
ghost use Rattle.rfb_session.specs.drive.Near.{AreNear};

use crate::drive::near::{RowDifference, compare_rows};
use crate::netpbm::Pixmap;
use rfb_picture::Picture;
use rfb_pixel::Colour;

/// Where a part of the screen is not as it was expected.
#[derive(Clone, Copy)]
pub struct Difference {
    /// The first place that is too far from what was expected there, in row order: its column and
    /// its row in the part.
    pub x: u16,
    pub y: u16,
    /// How many such places there are.
    pub count: u32,
}

/// Where the part of the screen that begins at (`x`, `y`) is further from a picture than `within`
/// of 255 in any component, if it is anywhere.
pub fn compare(
    screen: &Picture<Colour>,
    x: u16,
    y: u16,
    expected: &Pixmap,
    within: u8,
) -> Option<Difference>
    requires columns { x + expected.now.width ≤ screen.now.width }
    requires rows { y + expected.now.height ≤ screen.now.height }
    ensures { let wanted = expected.now in
        let shown = rows_of screen.now x y wanted.width wanted.height in
        MatchOption result (AreNear within shown wanted.places.items)
        (Differs within shown wanted.places.items wanted.width) }
{
    // By this no row's number passes 65,535.
    let _rows = screen.height();
    let width = usize::from(expected.width);
    let mut found = None;
    for row in 0..expected.height {
        let start = usize::from(row) * width;
        let shown = screen.row(x, y + row, expected.width);
        let wanted = &expected.places[start..start + width];
        found = with_row(found, row, compare_rows(shown, wanted, within));
    }
    found
}

// The differences of the rows above a row, and of that row.
fn with_row(found: Option<Difference>, row: u16, more: Option<RowDifference>) -> Option<Difference>
    requires above { IfSome found (λ above. above.count ≤ 65535 * row) }
    requires first { IfSome more (λ here. here.first < 2 ^ 16) }
    requires count { IfSome more (λ here. here.count < 2 ^ 16) }
    ensures { result ≡ joined found row more }
{
    let Some(here) = more else {
        return found;
    };
    match found {
        None => Some(Difference {
            x: here.first as u16,
            y: row,
            count: here.count as u32,
        }),
        Some(above) => Some(Difference {
            count: above.count + here.count as u32,
            ..above
        }),
    }
}
