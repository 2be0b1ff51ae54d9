//! Drawings on the screen of a share.

ghost use Rattle.std.specs.Prelude.{◌≡◌, ◌↔◌, IsErr, OnOk, OnErr};
ghost use Rattle.rfb_server.specs.Strokes.{Rows, stroke};
ghost use Rattle.rfb_session.specs.ShareScreen.{IsOnCanvas};

use crate::seats::Seats;
use crate::share::Share;
use crate::share::screen::Screen;
use crate::slots::notify_all;
use rfb_picture::Rect;
use rfb_pixel::Colour;
use rfb_server::{Drawing, Outside};

impl Share {
    ghost use Rattle.rfb_session.specs.Share.{canvas_of};
    ghost use Rattle.rfb_session.specs.ShareSteps.{DrawsOn};

    /// Draws on the screen, once, and marks where in each session; or gives each session a hint. A
    /// drawing is refused where it leaves the screen, where it has not one colour for each of its
    /// places, and where the screen is a viewer's picture. Then nothing changes. It takes no
    /// memory, and adds no bytes to those that wait.
    pub fn draw(&mut self, drawing: &Drawing<'_>) -> Result<(), Outside>
        ensures refused { IsErr result
            ↔ (IsOnCanvas (canvas_of self.old) (stroke drawing.now) → ⊥) }
        ensures kept { OnErr result (self.new ≡ self.old) }
        ensures drawn { OnOk result (DrawsOn self.old (stroke drawing.now) self.new) }
    {
        let Screen::Drawn(picture) = &mut self.screen else {
            return Err(Outside);
        };
        let notice = drawing.notice(picture)?;
        self.stirred = Seats::all();
        notify_all(&mut self.seats, &notice);
        drawing.draw_on(picture);
        Ok(())
    }

    /// Gives colours to a rectangle of the screen, `Drawing::Rows`.
    pub fn put_rows(&mut self, rect: Rect, rows: &[Colour]) -> Result<(), Outside>
        ensures refused { IsErr result
            ↔ (IsOnCanvas (canvas_of self.old) (Rows rect rows.now) → ⊥) }
        ensures kept { OnErr result (self.new ≡ self.old) }
        ensures drawn { OnOk result (DrawsOn self.old (Rows rect rows.now) self.new) }
    {
        self.draw(&Drawing::Rows(rect, rows))
    }
}
