//! Drawings on a world's screen.

ghost use Rattle.std.specs.Prelude.{◌≡◌, true, false, IfOk, IsOk, IsErr};
ghost use Rattle.rfb_server.specs.Strokes.{stroke};

use crate::told::{NoMemory, Refused, Told};
use crate::world::World;
use rfb_server::Drawing;

impl World {
    ghost use Rattle.rfb_session.specs.World.{DrawsWorld, is_closed};

    /// Draws on the server's screen, or gives the server a hint. Returns the refusal of a drawing
    /// that leaves the screen, or has not one colour for each of its places; then nothing changes.
    /// It takes no memory. A world that is closed gives its error again.
    pub fn draw(&mut self, drawing: &Drawing<'_>) -> Result<Told, NoMemory>
        ensures draws { IfOk result (λ told.
            DrawsWorld self.old (stroke drawing.now) told self.new) }
        ensures spared { is_closed self.old ≡ false → IsOk result }
        ensures closed { is_closed self.old ≡ true → IsErr result × (self.new ≡ self.old) }
    {
        if self.closed {
            return Err(NoMemory);
        }
        Ok(self.drawn(drawing))
    }

    // The same of a world that is not closed. The session is notified before it is drawn. It is
    // inlined, so that it is known there what is drawn.
    #[inline(always)]
    pub(super) fn drawn(&mut self, drawing: &Drawing<'_>) -> Told
        ensures { DrawsWorld self.old (stroke drawing.now) result self.new }
    {
        match drawing.notice(&self.screen) {
            Err(_) => Told::of_refusal(Refused::Outside),
            Ok(notice) => {
                self.link.notified(&notice);
                drawing.draw_on(&mut self.screen);
                Told::taken()
            }
        }
    }
}
