//! The connections that a core is offered, and those that it begins.

ghost use Rattle.std.specs.Prelude.{⊤};

use crate::reaching::hurry;
use crate::sharing::shell::{Ear, Shell};
use crate::sharing::tenant::Tenant;
use arrayvec::ArrayString;
use libc::net::{SHUT_RDWR, shutdown};
use mio::unix::SourceFd;
use mio::{Interest, Token};
use rfb_session::doors::{Arrival, Arrivals, Counted};
use std::fmt::Write as _;
use std::io::ErrorKind;
use std::net::{Net, OpenListener, OpenStream, SocketAddr};
use std::os::fd::AsRawFd;

impl<'t, R, W, E, L, C> Arrivals<Counted<Tenant<'t, R, W, E, L::Stream>>> for Shell<'_, L, C>
where
    L: OpenListener + Drop,
    L::Stream: OpenStream + AsRawFd + Drop,
    C: Net,
{
    ghost fresh = { λ _. ⊤ };

    ghost asked = { λ _ _ _. ⊤ };

    ghost called = { λ _ _ _. ⊤ };

    ghost placed = { λ _ _ _. ⊤ };

    /// Accepts one connection, where one may be there.
    fn next(&mut self) -> Option<Arrival<Counted<Tenant<'t, R, W, E, L::Stream>>>> {
        if self.ear != Ear::Ringing {
            return None;
        }
        let Some(listener) = &self.listener else {
            return None;
        };
        match listener.accept() {
            Ok((stream, address)) => {
                self.is_stirred = true;
                self.newest = Some(stream.as_raw_fd());
                arrival(stream, address)
            }
            Err(error) => {
                match error.kind() {
                    ErrorKind::WouldBlock => self.ear = Ear::Quiet,
                    // The next one may be there.
                    ErrorKind::Interrupted | ErrorKind::ConnectionAborted => self.is_stirred = true,
                    _ => self.ear = Ear::Barred,
                }
                None
            }
        }
    }

    /// Begins a connection to the server of a relay. All that it waits for is a name's look-up.
    fn call(&mut self) -> Option<Arrival<Counted<Tenant<'t, R, W, E, L::Stream>>>> {
        // Of those at the listener the core was not asked in this turn.
        self.is_stirred = true;
        let Some(callee) = &mut self.callee else {
            return None;
        };
        let Ok((stream, address)) = callee.call(self.clock) else {
            return None;
        };
        self.newest = Some(stream.as_raw_fd());
        Some(arrival_from(Tenant::Called(stream), address))
    }

    /// It is among the sources from here on. One that cannot be is shut down, so it ends at once.
    fn seated(&mut self, door: Option<usize>) {
        let (Some(door), Some(fd)) = (door, self.newest.take()) else {
            return;
        };
        let both = Interest::READABLE | Interest::WRITABLE;
        let registry = self.poll.registry();
        if registry
            .register(&mut SourceFd(&fd), Token(door), both)
            .is_err()
        {
            let _ = shutdown(fd, SHUT_RDWR);
        }
        self.reads.note(door, true);
        self.writes.note(door, true);
        self.ending.note(door, false);
    }
}

// A connection that does not wait, and whose bytes go out at once, and where it came from. One that
// would wait is closed.
fn arrival<'t, R, W, E, S: OpenStream + Drop>(
    stream: S,
    address: SocketAddr,
) -> Option<Arrival<Counted<Tenant<'t, R, W, E, S>>>> {
    if hurry(&stream).is_err() {
        return None;
    }
    Some(arrival_from(Tenant::Connection(stream), address))
}

// The same of what may be at a door.
fn arrival_from<'t, R, W, E, S>(
    tenant: Tenant<'t, R, W, E, S>,
    address: SocketAddr,
) -> Arrival<Counted<Tenant<'t, R, W, E, S>>> {
    let mut from = ArrayString::new();
    let _ = write!(from, "{address}");
    Arrival {
        device: Counted::new(tenant),
        from,
    }
}
