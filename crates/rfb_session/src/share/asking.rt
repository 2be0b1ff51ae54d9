//! Whether anybody at a share waits for an update.

ghost use Rattle.std.specs.Prelude.{◌↔◌, IsTrue};
ghost use Rattle.rfb_session.specs.ShareWaiters.{HasAskedIn};

use crate::share::Share;
use crate::share::seat::ShareSeat;
use crate::slots::SLOTS;

impl Share {
    ghost use Rattle.rfb_session.specs.ShareWaiters.{SomeAsked};

    /// Whether some viewer waits for an update: its handshake is done, it has not failed, and asked
    /// for a place since its latest update, RFC 6143 section 7.5.3. It looks at each seat in turn,
    /// up to the first of such a viewer.
    pub fn is_asked(&self) -> bool
        ensures { IsTrue result ↔ SomeAsked self.now }
    {
        for place in 0..SLOTS {
            if is_asked_in(&self.seats[place]) {
                return true;
            }
        }
        false
    }
}

// Whether who sits there waits for an update.
fn is_asked_in(slot: &Option<ShareSeat>) -> bool
    ensures { IsTrue result ↔ HasAskedIn slot.now }
{
    match slot {
        Some(seat) => seat.is_asked(),
        None => false,
    }
}
