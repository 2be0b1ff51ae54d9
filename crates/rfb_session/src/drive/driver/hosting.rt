//! Nobody comes to a driver.

ghost use Rattle.std.specs.Prelude.{◌≡◌, false, Some};
ghost use Rattle.rfb_session.specs.drive.driver.Steps.{LetsIn, TurnsAway, has_ended, has_told};
ghost use Rattle.rfb_session.specs.drive.driver.Steps.{wants_memory};

use crate::doors::Host;
use crate::drive::driver::{DriveOutcome, Driver, Rig};

impl<R: Rig + Drop> Host for Driver<R> {
    ghost opens = { LetsIn };

    ghost declines = { TurnsAway };

    ghost welcoming = { λ driver. false };

    ghost calling = { λ driver. false };

    ghost done = { has_ended };

    fn welcomes(&self) -> bool {
        false
    }

    fn calls(&self) -> bool {
        false
    }

    fn opened(&mut self, _doors: usize, _from: &str) -> Option<usize> {
        None
    }

    /// What waits at `LINES` and `NOTES` is written yet, for as long as patience lasts.
    fn is_done(&self) -> bool {
        match self.outcome {
            Some(outcome) => self.turns.is_over || wants_memory(outcome) || self.has_told(),
            None => false,
        }
    }
}

impl<R: Rig + Drop> Driver<R> {
    // Whether lines and notes that wait have left, or nobody reads them.
    fn has_told(&self) -> bool
        ensures { result ≡ has_told self.now }
    {
        self.lines.len() == 0 && (self.notes.len() == 0 || self.are_notes_lost)
    }
}

// Whether memory was wanting.
fn wants_memory(outcome: DriveOutcome) -> bool
    ensures { result ≡ wants_memory (Some outcome) }
{
    outcome == DriveOutcome::NoMemory
}
