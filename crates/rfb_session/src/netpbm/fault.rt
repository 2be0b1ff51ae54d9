//! Why a file is not read as a picture. Each flaw prints as its number and what it is.

ghost use Rattle.std.specs.Prelude.{◌≡◌};
ghost use Rattle.rfb_session.specs.declared.netpbm.fault.PixmapError.TheVariants as PixmapError;

use std::alloc::AllocError;
use std::io;
use thiserror::Error;

/// The first thing that is wrong with a file.
#[derive(Clone, Copy, Debug, Error)]
pub enum Flaw {
    /// It does not begin with `P6`, or a digit follows.
    #[error("1: it does not begin with P6")]
    NoPixmap,
    /// Its width, its height or its largest component is missing, or does not end in the first
    /// 8,192 bytes.
    #[error("2: its width, its height or its largest component is missing")]
    NoNumber,
    /// Its width or its height is not 1 to 4,096.
    #[error("3: its width or its height is not 1 to 4096")]
    BadSide,
    /// Its largest component is neither 255 nor 65,535.
    #[error("4: its largest component is neither 255 nor 65535")]
    BadMaximum,
    /// No space, tab, newline or carriage return follows its largest component.
    #[error("5: no blank stands before its pixels")]
    NoBlank,
    /// It ends before its last pixel does.
    #[error("6: it ends before its last pixel does")]
    TooShort,
    /// Bytes follow its last pixel.
    #[error("7: bytes follow its last pixel")]
    TooLong,
}

/// Why a picture is not read.
#[derive(Clone, Copy, Debug, Error)]
pub enum PixmapError {
    /// The file spells none.
    #[error("bad picture {0}")]
    Flaw(Flaw),
    /// A read failed.
    #[error("{0}")]
    Input(io::Error),
    /// There is no memory for the places.
    #[error("no memory for the places of a picture")]
    NoMemory,
}

impl From<Flaw> for PixmapError {
    ghost from_gives = { λ flaw error. error ≡ PixmapError.Flaw flaw };

    fn from(flaw: Flaw) -> PixmapError {
        PixmapError::Flaw(flaw)
    }
}

impl From<io::Error> for PixmapError {
    ghost from_gives = { λ input error. error ≡ PixmapError.Input input };

    fn from(error: io::Error) -> PixmapError {
        PixmapError::Input(error)
    }
}

impl From<AllocError> for PixmapError {
    ghost from_gives = { λ _ error. error ≡ PixmapError.NoMemory };

    fn from(_error: AllocError) -> PixmapError {
        PixmapError::NoMemory
    }
}
