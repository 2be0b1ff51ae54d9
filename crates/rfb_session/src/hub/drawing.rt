//! Drawings on a hub's screen: they are everyone's.

ghost use Rattle.std.specs.Prelude.{◌≡◌, true, false, IfOk, OnOk, IsOk, IsErr};
ghost use Rattle.rfb_server.specs.Strokes.{stroke};

use crate::hub::Hub;
use crate::hub::event::{HubFault, HubTold};
use crate::hub::telling::{told_made, told_refused};
use crate::slots::notify_all;
use crate::told::NoMemory;
use rfb_server::Drawing;

impl Hub {
    ghost use Rattle.rfb_session.specs.Hub.{HubStands, is_shut};
    ghost use Rattle.rfb_session.specs.HubSteps.{DrawsHub};

    /// Draws on the screen, once, and notifies every session; or gives each a hint. Returns the
    /// refusal of a drawing that leaves the screen, or has not one colour for each of its places;
    /// then nothing changes. It takes no memory. A hub that is closed gives its error again.
    pub fn draw(&mut self, drawing: &Drawing<'_>) -> Result<HubTold, NoMemory>
        // What becomes of the screen, of all slots, and of their networks.
        ensures draws { IfOk result (λ told.
            DrawsHub self.old (stroke drawing.now) told self.new) }
        // Where its slots stood for networks over the screen, they do.
        ensures stands { HubStands self.old → OnOk result (HubStands self.new) }
        ensures spared { is_shut self.old ≡ false → IsOk result }
        ensures closed { is_shut self.old ≡ true → IsErr result × (self.new ≡ self.old) }
    {
        if self.closed {
            return Err(NoMemory);
        }
        Ok(self.drawn(drawing))
    }

    // The same of a hub that is not closed. Every session is notified before it is drawn.
    pub(super) fn drawn(&mut self, drawing: &Drawing<'_>) -> HubTold
        ensures { DrawsHub self.old (stroke drawing.now) result self.new }
    {
        match drawing.notice(&self.screen) {
            Err(_) => told_refused(HubFault::Outside),
            Ok(notice) => {
                notify_all(&mut self.slots, &notice);
                drawing.draw_on(&mut self.screen);
                told_made()
            }
        }
    }
}
