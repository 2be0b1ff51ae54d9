//! Why an engine ends before its input does. Each fault prints as its number and its name.

ghost use Rattle.std.specs.Prelude.{◌≡◌};
ghost use Rattle.rfb_session.specs.declared.engine.fault.EngineFault.TheVariants as EngineFault;

use rfb_server::ServerFault;
use rfb_viewer::ViewerFault;
use std::alloc::AllocError;
use thiserror::Error;

/// Why an engine ends.
#[derive(Clone, Copy, Debug, PartialEq, Eq, Error)]
pub enum EngineFault {
    /// The client did wrong, or there was no memory for its text. The server has failed with it.
    #[error("{0}")]
    Server(ServerFault),
    /// The server did wrong or refused, or there was no memory for the screen or a text. The viewer
    /// has failed with it.
    #[error("{0}")]
    Viewer(ViewerFault),
    /// The input ended where it must not.
    #[error("28 Truncated")]
    Truncated,
    /// A reader or a writer has failed.
    #[error("29 Device")]
    Device,
    /// There is no memory for an update. The server is as it was.
    #[error("30 NoMemory")]
    NoMemory,
}

impl From<AllocError> for EngineFault {
    ghost from_gives = { λ _ ends. ends ≡ EngineFault.NoMemory };

    fn from(_error: AllocError) -> EngineFault {
        EngineFault::NoMemory
    }
}

impl From<ServerFault> for EngineFault {
    ghost from_gives = { λ fault ends. ends ≡ EngineFault.Server fault };

    fn from(fault: ServerFault) -> EngineFault {
        EngineFault::Server(fault)
    }
}

impl From<ViewerFault> for EngineFault {
    ghost from_gives = { λ fault ends. ends ≡ EngineFault.Viewer fault };

    fn from(fault: ViewerFault) -> EngineFault {
        EngineFault::Viewer(fault)
    }
}

/// A reader or a writer has failed.
#[derive(Clone, Copy, Debug, PartialEq, Eq, Error)]
#[error("29 Device")]
pub struct Device;

impl From<Device> for EngineFault {
    ghost from_gives = { λ _ ends. ends ≡ EngineFault.Device };

    fn from(_device: Device) -> EngineFault {
        EngineFault::Device
    }
}
