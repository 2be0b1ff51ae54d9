//! Which doors may be read or written without waiting.

ghost use Rattle.std.specs.Prelude.{◌≡◌};
ghost use Rattle.rfb.specs.Ready.{is_ready};

use rfb_session::console::DOORS;

/// The doors that were reported to be ready, and did not answer since that they are not.
#[derive(Drop)]
pub struct Ready {
    doors: [bool; DOORS],
}

impl Ready {
    /// None is.
    pub fn none() -> Ready {
        Ready {
            doors: [false; DOORS],
        }
    }

    /// Whether a door is.
    pub fn has(&self, door: usize) -> bool
        ensures { result ≡ is_ready self.now.doors door }
    {
        match self.doors.get(door) {
            Some(ready) => *ready,
            None => false,
        }
    }

    /// A door is ready, or is not, from here on.
    pub fn note(&mut self, door: usize, is_ready: bool) {
        if let Some(ready) = self.doors.get_mut(door) {
            *ready = is_ready;
        }
    }
}
