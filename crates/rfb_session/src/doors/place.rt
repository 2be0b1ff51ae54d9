//! A door that may have a device.

ghost use Rattle.rfb_session.specs.doors.Places.{known_in, number_in, is_held};

use crate::doors::device::{Answer, Device};

/// A door, and what is there.
#[derive(Debug, Drop)]
pub enum Place<D> {
    /// Nothing is there.
    Empty,
    /// This is.
    Held(D),
}

/// Where nothing is, all reads and writes wait.
impl<D: Device> Device for Place<D> {
    ghost unread = { known_in D.unread };

    ghost written = { known_in D.written };

    ghost failed = { number_in D.failed };

    ghost stands = { is_held };

    fn read(&mut self, buf: &mut [u8]) -> Answer {
        match self {
            Place::Empty => Answer::Waits,
            Place::Held(device) => device.read(buf),
        }
    }

    fn write(&mut self, buf: &[u8]) -> Answer {
        match self {
            Place::Empty => Answer::Waits,
            Place::Held(device) => device.write(buf),
        }
    }
}
