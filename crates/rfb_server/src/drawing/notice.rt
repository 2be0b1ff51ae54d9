//! What the sessions over a screen are told of drawings.

ghost use Rattle.std.specs.Prelude.{◌≡◌, ◌≤◌, ◌↔◌, ◌*◌, None, Some, IfOk, OnOk, IsErr, IsTrue};
ghost use Rattle.rfb_picture.specs.Grid.{Holds};
ghost use Rattle.rfb_picture.specs.Rect.{rect, scrolled_to};
ghost use Rattle.rfb_server.specs.Strokes.{change_in};
ghost use Rattle.rfb_server.specs.Hints.{scroll_hint};
ghost use Rattle.rfb_server.specs.Model.{row_from, HoldsBoth};

use crate::fault::Outside;
use crate::hint::Hint;
use rfb_picture::{Picture, Rect};
use rfb_pixel::Colour;

/// What the sessions over a screen are told of a drawing: where it changes the screen, the copy
/// that it is, and its hint.
#[derive(Clone, Copy, Debug)]
pub struct Notice {
    pub(crate) area: Rect,
    pub(crate) copy: Option<Hint>,
    pub(crate) hint: Option<Hint>,
}

impl Notice {
    ghost use Rattle.rfb_pixel.specs.declared.colour.Colour.{Colour};
    ghost use Rattle.rfb_picture.specs.Grid.{Grid, IsGrid};
    ghost use Rattle.rfb_server.specs.Strokes.{Hint as Hinted, notice_of, area_told, hint_told};
    ghost use Rattle.rfb_server.specs.KnownScreen.{IsSameOutside, IsTold};

    /// The notice of any change of the screen inside a rectangle. It is for notifying sessions of a
    /// screen that somebody else draws on, before the change or after. Refused is a rectangle that
    /// leaves the screen.
    pub fn changed(screen: &Picture<Colour>, area: Rect) -> Result<Notice, Outside>
        ensures refused { IsErr result ↔ (Holds screen.now area → ⊥) }
        ensures inside { OnOk result (Holds screen.now area) }
        ensures value { IfOk result (λ notice. notice ≡ change_in area) }
        ensures area { IfOk result (λ notice. area_told notice ≡ area) }
        ensures hint { IfOk result (λ notice. hint_told notice ≡ None) }
        ensures told { IfOk result (λ notice. (before after : Grid Colour) → IsGrid after
            → IsSameOutside area before after → IsTold notice before after) }
    {
        if !screen.holds(area) {
            return Err(Outside);
        }
        Ok(Notice {
            area,
            copy: None,
            hint: None,
        })
    }

    /// The notice of a hint, which changes no place: a rectangle looks as the one of its size at
    /// (`sx`, `sy`) did when that was last sent. Nothing rests on it. Refused is one where either
    /// rectangle leaves the screen.
    pub fn hint(screen: &Picture<Colour>, to: Rect, sx: u16, sy: u16) -> Result<Notice, Outside>
        ensures refused { IsErr result ↔ (HoldsBoth screen.now to sx sy → ⊥) }
        ensures inside { OnOk result (HoldsBoth screen.now to sx sy) }
        ensures value { IfOk result (λ notice. notice ≡ notice_of (Hinted to sx sy)) }
        ensures area { IfOk result (λ notice. area_told notice ≡ rect 0 0 0 0) }
        ensures hint { IfOk result (λ notice.
            hint_told notice ≡ Some (record { to = to; sx = sx; sy = sy })) }
        ensures told { IfOk result (λ notice. (screen : Grid Colour) → IsGrid screen
            → IsTold notice screen screen) }
    {
        if !holds_both(screen, to, sx, sy) {
            return Err(Outside);
        }
        Ok(Notice {
            area: Rect::new(0, 0, 0, 0),
            copy: None,
            hint: Some(Hint { to, sx, sy }),
        })
    }
}

/// The notice of a drawing in a rectangle that has `count` values, where each place needs `size`.
pub(crate) fn notice_of(
    screen: &Picture<Colour>,
    area: Rect,
    size: usize,
    count: usize,
) -> Result<Notice, Outside>
    requires few { size ≤ 4 }
    ensures refused { IsErr result
        ↔ (Holds screen.now area × (count ≡ area.h * area.w * size) → ⊥) }
    ensures inside { OnOk result (Holds screen.now area × (count ≡ area.h * area.w * size)) }
    ensures value { IfOk result (λ notice. notice ≡ change_in area) }
{
    if count != usize::from(area.h) * usize::from(area.w) * size {
        return Err(Outside);
    }
    Notice::changed(screen, area)
}

/// The same of `count` places of row `y`, from column `x` on, however many they are.
pub(crate) fn notice_in_row(
    screen: &Picture<Colour>,
    x: u16,
    y: u16,
    count: usize,
) -> Result<Notice, Outside>
    ensures refused { IsErr result ↔ (Holds screen.now (row_from x y count) → ⊥) }
    ensures inside { OnOk result (Holds screen.now (row_from x y count)) }
    ensures value { IfOk result (λ notice. notice ≡ change_in (row_from x y count)) }
{
    let width = usize::from(screen.width());
    let fits = count <= width && usize::from(x) <= width - count;
    if !fits || y >= screen.height() {
        return Err(Outside);
    }
    Ok(Notice {
        area: Rect::new(x, y, count as u16, 1),
        copy: None,
        hint: None,
    })
}

/// The notice of a copy to a rectangle from the one of its size at (`sx`, `sy`).
pub(crate) fn notice_of_copy(
    screen: &Picture<Colour>,
    area: Rect,
    sx: u16,
    sy: u16,
) -> Result<Notice, Outside>
    ensures refused { IsErr result ↔ (HoldsBoth screen.now area sx sy → ⊥) }
    ensures inside { OnOk result (HoldsBoth screen.now area sx sy) }
    ensures value { IfOk result (λ notice. notice ≡ record {
      area = area;
      copy = Some (record { to = area; sx = sx; sy = sy });
      hint = None;
    }) }
{
    if !holds_both(screen, area, sx, sy) {
        return Err(Outside);
    }
    Ok(Notice {
        area,
        copy: Some(Hint { to: area, sx, sy }),
        hint: None,
    })
}

/// The notice of a scroll inside a rectangle: what stays of it changes, with the hint for that.
pub(crate) fn notice_of_scroll(
    screen: &Picture<Colour>,
    area: Rect,
    dx: i16,
    dy: i16,
) -> Result<Notice, Outside>
    ensures refused { IsErr result ↔ (Holds screen.now area → ⊥) }
    ensures inside { OnOk result (Holds screen.now area) }
    ensures value { IfOk result (λ notice. notice ≡ record {
      area = scrolled_to dx dy area;
      copy = Some (scroll_hint area dx dy);
      hint = Some (scroll_hint area dx dy);
    }) }
{
    if !screen.holds(area) {
        return Err(Outside);
    }
    prove!(area.w <= screen.width() && area.h <= screen.height());
    let (to, from) = area.scrolled(dx, dy);
    let hint = Hint {
        to,
        sx: from.x,
        sy: from.y,
    };
    Ok(Notice {
        area: to,
        copy: Some(hint),
        hint: Some(hint),
    })
}

// Whether the rectangle, and the one of its size at (`sx`, `sy`), lie on the screen.
fn holds_both(screen: &Picture<Colour>, area: Rect, sx: u16, sy: u16) -> bool
    ensures { IsTrue result ↔ HoldsBoth screen.now area sx sy }
{
    let source = Rect {
        x: sx,
        y: sy,
        ..area
    };
    screen.holds(area) && screen.holds(source)
}
