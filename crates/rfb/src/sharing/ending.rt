//! How a share or a relay has ended, for the status of its command.

ghost use Rattle.std.specs.Prelude.{◌≡◌, OnOk, OnErr, IfErr};
ghost use Rattle.rfb.specs.Ends.{EndsWell, IsNoEnd, FailsFor, engine_fault};

use crate::fault::{Failure, Fault};
use rfb_session::EngineFault;
use rfb_session::console::Outcome;
use rfb_session::relay::Gone;
use rfb_viewer::ViewerFault;

/// How all has ended. Where its core does not say so, waiting has failed.
pub fn result_of(outcome: Option<Outcome>) -> Result<(), Failure>
    ensures well { OnOk result (EndsWell outcome) }
    ensures ill { OnErr result (IsNoEnd outcome) }
    ensures failure { IfErr result (FailsFor outcome) }
{
    match outcome {
        Some(Outcome::Quit | Outcome::Idle) => Ok(()),
        Some(Outcome::BadLine(number)) => Err(Failure::BadLine(number)),
        Some(Outcome::NoMemory) => Err(Failure::Fault(Fault::NoMemory)),
        Some(Outcome::Device) | None => Err(Failure::Fault(Fault::Device)),
        Some(Outcome::ServerGone(why)) => Err(Failure::Engine(fault_of_server(why))),
    }
}

/// The fault that `view` ends with where a server goes away so.
pub fn fault_of_server(why: Gone) -> EngineFault
    ensures { result ≡ engine_fault why }
{
    match why {
        Gone::Closed => EngineFault::Truncated,
        Gone::Device => EngineFault::Device,
        Gone::Failed(fault) => EngineFault::Viewer(fault),
        Gone::Size { .. } => EngineFault::Viewer(ViewerFault::ScreenTooLarge),
    }
}
