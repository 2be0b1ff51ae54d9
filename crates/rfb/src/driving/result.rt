//! How a drive has ended, for the status of its command.

ghost use Rattle.std.specs.Prelude.{OnOk, OnErr, IfErr};
ghost use Rattle.rfb.specs.Drive.{EndsDone, EndsUndone, FailsDriveFor};

use crate::fault::{Failure, Fault, Undone};
use crate::sharing::ending::fault_of_server;
use libc::net::{POLLRDHUP, SHUT_WR, poll, shutdown};
use libc::types::pollfd;
use rfb_session::drive::DriveOutcome;
use std::os::fd::RawFd;

// For how long a server may take to read what was sent last, in milliseconds.
const GRACE: i32 = 1000;

/// How all has ended. Where its core does not say so, waiting has failed. Where all is done the
/// connection to the server, which has this descriptor, may be closed then.
pub fn drive_result(outcome: Option<DriveOutcome>, server: RawFd) -> Result<(), Failure>
    ensures well { OnOk result (EndsDone outcome) }
    ensures ill { OnErr result (EndsUndone outcome) }
    ensures failure { IfErr result (FailsDriveFor outcome) }
{
    match outcome {
        Some(DriveOutcome::Done) => {
            part_from(server);
            Ok(())
        }
        Some(DriveOutcome::BadLine(number)) => Err(Failure::BadLine(number)),
        Some(DriveOutcome::Late(number)) => Err(Failure::Undone(number, Undone::Late)),
        Some(DriveOutcome::File(number)) => Err(Failure::Undone(number, Undone::File)),
        Some(DriveOutcome::ServerGone(why)) => Err(Failure::Engine(fault_of_server(why))),
        Some(DriveOutcome::NoMemory) => Err(Failure::Fault(Fault::NoMemory)),
        Some(DriveOutcome::Device) | None => Err(Failure::Fault(Fault::Device)),
    }
}

// Lets a server read all that was sent before its connection is closed: what it sent meanwhile, and
// nobody reads, would break that. It waits until the server ends its side, for a second at most.
fn part_from(server: RawFd) {
    let _ = shutdown(server, SHUT_WR);
    let mut asked = [pollfd {
        fd: server,
        events: POLLRDHUP,
        revents: 0,
    }];
    let _ = poll(&mut asked, GRACE);
}
