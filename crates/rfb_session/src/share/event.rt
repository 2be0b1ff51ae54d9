//! What the calls of a share report.

ghost use Rattle.std.specs.Prelude.{◌≡◌, true, false};
ghost use Rattle.rfb_session.specs.ShareSlots.{fault_of_late};

use crate::seat::Seat;
use crate::seats::Seats;
use rfb_server::{LateFault, ServerFault};
use thiserror::Error;

/// What a viewer did.
#[derive(Debug, Drop)]
pub enum SeatEvent {
    /// Its handshake is done: whether others may go on, the shared-flag of its ClientInit, RFC 6143
    /// section 7.3.1.
    Ready { shared: bool },
    /// KeyEvent, section 7.5.4: a key was pressed or released.
    Key { down: bool, key: u32 },
    /// PointerEvent, section 7.5.5: the buttons that are down, a bit each, and where the pointer
    /// is.
    Pointer { buttons: u8, x: u16, y: u16 },
    /// ClientCutText, section 7.5.6: as much of the text as is kept, which is the caller's from
    /// here on, and how many bytes it had.
    CutText { kept: Vec<u8>, length: u32 },
}

/// What became of bytes that a viewer sent.
#[derive(Debug, Drop)]
pub struct Heard {
    /// The seat that they were received at.
    pub seat: Seat,
    /// How many of them were taken.
    pub used: usize,
    /// What the viewer did at the last of these, if it did something that is reported.
    pub event: Option<SeatEvent>,
    /// The seats that were emptied: this viewer asked for the screen alone.
    pub ended: Seats,
}

/// Why bytes are not taken.
#[derive(Clone, Copy, Debug, PartialEq, Eq, Error)]
pub enum ShareFault {
    /// There is no viewer in the seat.
    #[error("32 NoSuchSeat")]
    NoSuchSeat,
    /// The seat's session has ended, by what its client did wrong or for want of memory for a text.
    #[error("{0}")]
    Session(ServerFault),
    /// Its handshake is about to be done, and there is no memory for its session: it is emptied.
    #[error("30 NoMemory")]
    NoMemory,
}

impl From<LateFault> for ShareFault {
    ghost from_gives = { λ fault ends. ends ≡ fault_of_late fault };

    fn from(fault: LateFault) -> ShareFault {
        match fault {
            LateFault::Session(fault) => ShareFault::Session(fault),
            LateFault::NoMemory => ShareFault::NoMemory,
        }
    }
}

/// What became of a composing.
#[derive(Clone, Copy, Debug, PartialEq, Eq)]
pub enum Composing {
    /// An update waits to be written.
    Composed,
    /// None is due.
    NotDue,
    /// Earlier bytes wait to be written, so nothing was done.
    Waiting,
    /// There is no viewer in the seat.
    NoSuchSeat,
}

impl Composing {
    ghost use Rattle.rfb_session.specs.ShareSteps.{IsIdle};

    // Whether it found nothing to do: no update is due, or there is no viewer.
    pub(crate) fn is_idle(self) -> bool
        ensures idle { result ≡ true → IsIdle self }
        ensures busy { result ≡ false → IsIdle self → ⊥ }
    {
        match self {
            Composing::NotDue | Composing::NoSuchSeat => true,
            Composing::Composed | Composing::Waiting => false,
        }
    }
}
