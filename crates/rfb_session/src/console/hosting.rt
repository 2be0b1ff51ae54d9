//! A console as a host: who is let in, and where.

ghost use Rattle.std.specs.Prelude.{◌≡◌, false, Some};
ghost use Rattle.rfb_session.specs.console.Console.{OpensAs, DeclinesAs, is_welcome, has_ended};
ghost use Rattle.rfb_session.specs.console.Console.{has_room, has_told, is_abrupt};

use crate::console::listening::ROOM_OF_SEAT;
use crate::console::speaker::{Speaker, Why};
use crate::console::{Console, LINES, Outcome, READ};
use crate::doors::{Core, Host};

impl<S: Speaker + Drop> Host for Console<S> {
    ghost opens = { OpensAs };

    ghost declines = { DeclinesAs };

    ghost welcoming = { is_welcome };

    ghost calling = { λ console. false };

    ghost done = { has_ended };

    fn welcomes(&self) -> bool {
        self.has_room() && self.outcome.is_none()
    }

    fn calls(&self) -> bool {
        false
    }

    fn opened(&mut self, doors: usize, from: &str) -> Option<usize> {
        if doors < READ {
            return None;
        }
        let Some(desk) = &mut self.desk else {
            return None;
        };
        let Ok(admission) = desk.admit(from) else {
            self.outcome = Some(Outcome::NoMemory);
            return None;
        };
        self.note_gave_way(admission.left, admission.seat);
        let door = admission.seat?.place() + 1;
        self.open_room(door, ROOM_OF_SEAT);
        Some(door)
    }

    fn is_done(&self) -> bool {
        match self.outcome {
            Some(outcome) => self.is_over || is_abrupt(outcome) || self.has_told(),
            None => false,
        }
    }
}

impl<S: Speaker + Drop> Console<S> {
    // Whether a newcomer could be reported.
    fn has_room(&self) -> bool
        ensures { result ≡ has_room self.now.desk }
    {
        match &self.desk {
            Some(desk) => desk.has_room(),
            None => false,
        }
    }

    // Whether lines and notes that wait for the owner have left, or nobody reads them.
    fn has_told(&self) -> bool
        ensures { result ≡ has_told self.now }
    {
        self.to_write(LINES).is_empty() && (self.notes.is_empty() || self.are_notes_lost)
    }
}

// Whether nothing that waits is written any more.
fn is_abrupt(outcome: Outcome) -> bool
    ensures { result ≡ is_abrupt (Some outcome) }
{
    match outcome {
        Outcome::NoMemory | Outcome::Device => true,
        Outcome::Quit | Outcome::Idle | Outcome::BadLine(_) | Outcome::ServerGone(_) => false,
    }
}
