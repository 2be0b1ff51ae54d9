//! Whether the screen shows a picture, and where not.

ghost use Rattle.std.specs.Prelude.{◌≡◌, ◌<◌, ◌↔◌, IsTrue};
ghost use Rattle.rfb_session.specs.drive.Compare.{Differs, rows_of};
ghost use Rattle.rfb_session.specs.drive.driver.Sight.{Fits, IsUnlike, Sees, touched, touches};
ghost use Rattle.rfb_session.specs.drive.driver.Sight.{is_part, rect_of, whole_of, part_or};

use crate::drive::comparing::{Difference, compare};
use crate::drive::driver::saying::Unlike;
use crate::drive::words::{Likeness, Place};
use crate::netpbm::Pixmap;
use rfb_picture::{Picture, Rect};
use rfb_pixel::Colour;

/// What a look at the screen found.
#[derive(Clone, Copy)]
pub(crate) enum Sight {
    /// It shows the picture.
    Same,
    /// It does not.
    Differs(Unlike),
    /// The picture leaves the screen there.
    Off,
}

/// Compares what the screen shows with what is expected of it.
pub(crate) fn look(screen: &Picture<Colour>, wanted: &Pixmap, likeness: Likeness) -> Sight
    ensures { Sees screen.now wanted.now likeness result }
{
    if !fits(screen, wanted, likeness.at) {
        return Sight::Off;
    }
    match compare(
        screen,
        likeness.at.x,
        likeness.at.y,
        wanted,
        likeness.within,
    ) {
        None => Sight::Same,
        Some(found) => Sight::Differs(unlike_at(screen, wanted, likeness, found)),
    }
}

// Whether a picture lies on the screen where it is expected.
fn fits(screen: &Picture<Colour>, wanted: &Pixmap, at: Place) -> bool
    ensures { IsTrue result ↔ Fits screen.now wanted.now at }
{
    u32::from(at.x) + u32::from(wanted.width) <= u32::from(screen.width())
        && u32::from(at.y) + u32::from(wanted.height) <= u32::from(screen.height())
}

// What was found there.
fn unlike_at(
    screen: &Picture<Colour>,
    wanted: &Pixmap,
    likeness: Likeness,
    found: Difference,
) -> Unlike
    requires fits { Fits screen.now wanted.now likeness.at }
    requires differs { let at = likeness.at in
        Differs likeness.within (rows_of screen.now at.x at.y wanted.now.width wanted.now.height)
        wanted.now.places.items wanted.now.width found }
    ensures { IsUnlike screen.now wanted.now likeness result }
{
    // By this no number of a row or a column passes 65,535.
    let _rows = (screen.width(), screen.height());
    let x = likeness.at.x + found.x;
    let y = likeness.at.y + found.y;
    let place = usize::from(found.y) * usize::from(wanted.width) + usize::from(found.x);
    Unlike {
        count: found.count,
        x,
        y,
        shown: screen.at(x, y),
        expected: wanted.places[place],
    }
}

/// The part of the screen where a picture is expected.
pub(crate) fn rect_of(wanted: &Pixmap, at: Place) -> Rect
    ensures { result ≡ rect_of wanted.now at }
{
    Rect::new(at.x, at.y, wanted.width, wanted.height)
}

/// All of a screen.
pub(crate) fn whole_of(screen: &Picture<Colour>) -> Rect
    ensures { result ≡ whole_of screen.now }
{
    Rect::whole(screen.width(), screen.height())
}

/// The part, or all of a screen where there is none.
pub(crate) fn part_or(part: Option<Rect>, screen: &Picture<Colour>) -> Rect
    ensures { result ≡ part_or part screen.now }
{
    match part {
        Some(part) => part,
        None => whole_of(screen),
    }
}

/// Whether a part has a place, and lies on the screen.
pub(crate) fn is_part(screen: &Picture<Colour>, part: Rect) -> bool
    ensures { result ≡ is_part screen.now part }
{
    part.w > 0
        && part.h > 0
        && u32::from(part.x) + u32::from(part.w) <= u32::from(screen.width())
        && u32::from(part.y) + u32::from(part.h) <= u32::from(screen.height())
}

/// Whether two rectangles have a place in common.
pub(crate) fn touches(a: Rect, b: Rect) -> bool
    ensures { result ≡ touches a b }
{
    meet(a.x, a.w, b.x, b.w) && meet(a.y, a.h, b.y, b.h)
}

// Whether two rows of places have one in common.
fn meet(a: u16, a_len: u16, b: u16, b_len: u16) -> bool
    ensures { result ≡ touched a a_len b b_len }
{
    let (a_end, b_end) = (
        u32::from(a) + u32::from(a_len),
        u32::from(b) + u32::from(b_len),
    );
    a_len > 0 && b_len > 0 && u32::from(a) < b_end && u32::from(b) < a_end
}
