//! The owner draws on the screen, or says that a rectangle looks as another did.

ghost use Rattle.std.specs.Prelude.{◌≡◌, ◌↔◌, length, OnOk, OnErr, IsErr};

use crate::drawing::Drawing;
use crate::fault::Outside;
use crate::server::Server;
use rfb_picture::Rect;
use rfb_pixel::Colour;

impl Server {
    ghost use Rattle.rfb_picture.specs.Grid.{Holds, filled, copied, scrolled, with_row, with_rows};
    ghost use Rattle.rfb_server.specs.Model.{screen_of, row_from, AreOf, HoldsBoth, Draws};
    ghost use Rattle.rfb_server.specs.Model.{Keeps};
    ghost use Rattle.rfb_server.specs.Hints.{hints_of, with_hint, scroll_hint};
    ghost use Rattle.rfb_server.specs.Strokes.{IsInside, drawn_by, hint_of, stroke, with_hint_of};

    /// Draws on the screen, or gives the session a hint. Refused is a drawing that leaves the
    /// screen, and one that does not have one colour for each of its places; then nothing changes.
    /// What it draws stays the caller's. The calls below are each one of these.
    pub fn draw(&mut self, drawing: &Drawing<'_>) -> Result<(), Outside>
        ensures refused { IsErr result
            ↔ (IsInside (screen_of self.old) (stroke drawing.now) → ⊥) }
        ensures kept { OnErr result (self.new ≡ self.old) }
        ensures drawn { OnOk result
            (Draws (drawn_by (stroke drawing.now) (screen_of self.old)) self.old self.new) }
        ensures hints { OnOk result (hints_of self.new
            ≡ with_hint_of (hint_of (stroke drawing.now)) (hints_of self.old)) }
    {
        let notice = drawing.notice(&self.screen)?;
        self.session.notified(&notice);
        drawing.draw_on(&mut self.screen);
        Ok(())
    }

    /// Gives one colour to a rectangle of the screen. Where the rectangle leaves the screen it is
    /// refused, and nothing changes; an empty one inside changes nothing either.
    pub fn fill(&mut self, rect: Rect, colour: Colour) -> Result<(), Outside>
        ensures refused { IsErr result ↔ (Holds (screen_of self.old) rect → ⊥) }
        ensures kept { OnErr result (self.new ≡ self.old) }
        ensures drawn { OnOk result
            (Draws (filled rect colour (screen_of self.old)) self.old self.new) }
        ensures hints { hints_of self.new ≡ hints_of self.old }
    {
        self.draw(&Drawing::Fill(rect, colour))
    }

    /// Gives colours to a part of row `y` of the screen, from column `x` on. Where they leave the
    /// screen they are refused, however many they are, and nothing changes; `row` stays the
    /// caller's.
    pub fn put(&mut self, x: u16, y: u16, row: &[Colour]) -> Result<(), Outside>
        ensures refused { IsErr result
            ↔ (Holds (screen_of self.old) (row_from x y (length row.now)) → ⊥) }
        ensures kept { OnErr result (self.new ≡ self.old) }
        ensures drawn { OnOk result
            (Draws (with_row x y row.now (screen_of self.old)) self.old self.new) }
        ensures hints { hints_of self.new ≡ hints_of self.old }
    {
        self.draw(&Drawing::Put(x, y, row))
    }

    /// Gives colours to a rectangle of the screen: `rows` has its rows from the top, one after the
    /// other, each from the left. Where the rectangle leaves the screen, or `rows` has another
    /// number of colours than it has places, they are refused, and nothing changes; `rows` stays
    /// the caller's.
    pub fn put_rows(&mut self, rect: Rect, rows: &[Colour]) -> Result<(), Outside>
        ensures refused { IsErr result ↔ (AreOf (screen_of self.old) rect rows.now → ⊥) }
        ensures kept { OnErr result (self.new ≡ self.old) }
        ensures drawn { OnOk result
            (Draws (with_rows rect rows.now (screen_of self.old)) self.old self.new) }
        ensures hints { hints_of self.new ≡ hints_of self.old }
    {
        self.draw(&Drawing::Rows(rect, rows))
    }

    /// Gives each place of `dst` what its place of the rectangle of that size at (`sx`, `sy`) had,
    /// as CopyRect does (RFC 6143 section 7.7.2). Where one of them leaves the screen it is
    /// refused, and nothing changes.
    pub fn copy(&mut self, dst: Rect, sx: u16, sy: u16) -> Result<(), Outside>
        ensures refused { IsErr result
            ↔ (HoldsBoth (screen_of self.old) dst sx sy → ⊥) }
        ensures kept { OnErr result (self.new ≡ self.old) }
        ensures drawn { OnOk result
            (Draws (copied dst sx sy (screen_of self.old)) self.old self.new) }
        ensures hints { hints_of self.new ≡ hints_of self.old }
    {
        self.draw(&Drawing::Copy(dst, sx, sy))
    }

    /// Moves all that lies in the rectangle `dx` columns to the right and `dy` rows down, or to the
    /// left and up where they are negative, and gives the hint for it. What leaves the rectangle is
    /// lost, and the places that nothing came to keep what they had. Where the rectangle leaves the
    /// screen it is refused, and nothing changes.
    pub fn scroll(&mut self, rect: Rect, dx: i16, dy: i16) -> Result<(), Outside>
        ensures refused { IsErr result ↔ (Holds (screen_of self.old) rect → ⊥) }
        ensures kept { OnErr result (self.new ≡ self.old) }
        ensures drawn { OnOk result
            (Draws (scrolled rect dx dy (screen_of self.old)) self.old self.new) }
        ensures hints { OnOk result (hints_of self.new
            ≡ with_hint (scroll_hint rect dx dy) (hints_of self.old)) }
    {
        self.draw(&Drawing::Scroll(rect, dx, dy))
    }

    /// Says that the rectangle `dst` looks as the one of its size at (`sx`, `sy`) did when it was
    /// last sent, so that the viewer may be sent a copy in place of its pixels. Nothing rests on
    /// it, and nothing else changes. The last sixteen are kept until an update is composed. One
    /// that leaves the screen is refused.
    pub fn hint(&mut self, dst: Rect, sx: u16, sy: u16) -> Result<(), Outside>
        ensures refused { IsErr result
            ↔ (HoldsBoth (screen_of self.old) dst sx sy → ⊥) }
        ensures kept { OnErr result (self.new ≡ self.old) }
        ensures hinted { OnOk result (Keeps self.old self.new) }
        ensures hints { OnOk result (hints_of self.new
            ≡ with_hint (record { to = dst; sx = sx; sy = sy }) (hints_of self.old)) }
    {
        self.draw(&Drawing::Hint(dst, sx, sy))
    }
}
