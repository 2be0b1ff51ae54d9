//! What can go wrong, told apart for a caller. Each prints as its number and its name.

ghost use Rattle.std.specs.Prelude.{◌≡◌};
ghost use Rattle.rfb.specs.Fault.{IsFailureOf, IsFaultOf};
ghost use Rattle.rfb.specs.declared.fault.Failure.TheVariants as Failure;
ghost use Rattle.rfb.specs.declared.fault.Fault.TheVariants as Fault;

use rfb_session::netpbm::Flaw;
use rfb_session::{Device, EngineFault, NoMemory};
use std::alloc::{AllocError, AllocFailed};
use std::io;
use std::io::ErrorKind;
use thiserror::Error;

/// Why the program stops before its work is done.
#[derive(Clone, Copy, Debug, Error)]
pub enum Fault {
    /// There is no picture to write.
    #[error("25 NotReady")]
    NotReady,
    /// A read or a write failed.
    #[error("29 Device")]
    Device,
    /// Memory was refused.
    #[error("30 NoMemory")]
    NoMemory,
    /// There is no viewer in the slot whose picture is wanted.
    #[error("32 NoSuchSlot")]
    NoSuchSlot,
}

impl From<io::Error> for Fault {
    ghost from_gives = { IsFaultOf };

    fn from(error: io::Error) -> Fault {
        if error.kind() == ErrorKind::OutOfMemory {
            Fault::NoMemory
        } else {
            Fault::Device
        }
    }
}

impl From<AllocError> for Fault {
    ghost from_gives = { λ _ fault. fault ≡ Fault.NoMemory };

    fn from(_error: AllocError) -> Fault {
        Fault::NoMemory
    }
}

impl From<NoMemory> for Fault {
    ghost from_gives = { λ _ fault. fault ≡ Fault.NoMemory };

    fn from(_error: NoMemory) -> Fault {
        Fault::NoMemory
    }
}

impl From<Device> for Fault {
    ghost from_gives = { λ _ fault. fault ≡ Fault.Device };

    fn from(_error: Device) -> Fault {
        Fault::Device
    }
}

/// Why a command ends with status 1. Its text is the command's last line on standard error.
#[derive(Clone, Copy, Debug, Error)]
pub enum Failure {
    /// The first bad line of a script, counted from 1. Nothing was run.
    #[error("line {0}: bad line")]
    BadLine(u64),
    /// Something that no script is to blame for.
    #[error("fault {0}")]
    Fault(Fault),
    /// What ended an engine.
    #[error("fault {0}")]
    Engine(EngineFault),
    /// The line of a rig with this number is not done. Those before it are.
    #[error("line {0}: {1}")]
    Undone(u64, Undone),
    /// What is wrong with a picture that was to be served. Nobody was.
    #[error("bad picture {0}")]
    Picture(Flaw),
}

/// Why a line of a rig is not done.
#[derive(Clone, Copy, Debug, Error)]
pub enum Undone {
    /// It took too long; of number 0, the server's first update did.
    #[error("not done in time")]
    Late,
    /// A file that it names could not be read or written, or spells no picture.
    #[error("bad file")]
    File,
}

impl Failure {
    /// Whether bytes ended too early, or could not be had, and neither end has failed.
    pub fn is_early(&self) -> bool {
        matches!(
            self,
            Failure::Engine(EngineFault::Truncated | EngineFault::Device)
        )
    }
}

impl From<Fault> for Failure {
    ghost from_gives = { λ fault failure. failure ≡ Failure.Fault fault };

    fn from(fault: Fault) -> Failure {
        Failure::Fault(fault)
    }
}

impl From<Device> for Failure {
    ghost from_gives = { λ _ failure. failure ≡ Failure.Fault Fault.Device };

    fn from(_error: Device) -> Failure {
        Failure::Fault(Fault::Device)
    }
}

impl From<AllocError> for Failure {
    ghost from_gives = { λ _ failure. failure ≡ Failure.Fault Fault.NoMemory };

    fn from(error: AllocError) -> Failure {
        Failure::from(Fault::from(error))
    }
}

impl<T: Drop> From<AllocFailed<T>> for Failure {
    ghost from_gives = { λ _ failure. failure ≡ Failure.Fault Fault.NoMemory };

    fn from(_error: AllocFailed<T>) -> Failure {
        Failure::Fault(Fault::NoMemory)
    }
}

impl From<io::Error> for Failure {
    ghost from_gives = { IsFailureOf };

    fn from(error: io::Error) -> Failure {
        Failure::Fault(Fault::from(error))
    }
}

impl From<EngineFault> for Failure {
    ghost from_gives = { λ fault failure. failure ≡ Failure.Engine fault };

    fn from(fault: EngineFault) -> Failure {
        Failure::Engine(fault)
    }
}
