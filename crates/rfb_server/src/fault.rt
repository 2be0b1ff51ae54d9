//! Why a session ends.

ghost use Rattle.std.specs.Prelude.{◌≡◌, ℕ};
ghost use Rattle.rfb_wire.specs.declared.fault.WireFault.TheVariants.{UnknownMessage as UnknownType};
ghost use Rattle.rfb_server.specs.declared.fault.ServerFault.TheVariants.{UnknownMessage};
ghost use Rattle.rfb_server.specs.Fault.{fault_of_hello, fault_of_format, fault_number};

use rfb_hello::HelloFault;
use rfb_pixel::FormatFault;
use rfb_wire::WireFault;
use thiserror::Error;

/// A fault, and with which byte of a slice it came.
#[derive(Clone, Copy, Debug, PartialEq, Eq)]
pub struct Flaw {
    /// How many bytes of the slice there are up to that byte, itself among them.
    pub used: usize,
    pub fault: ServerFault,
}

/// What a client did wrong, and want of memory. Each prints as its number and its name.
#[derive(Clone, Copy, Debug, PartialEq, Eq, Error)]
pub enum ServerFault {
    /// The format of SetPixelFormat is not of 8, 16 or 32 bits, RFC 6143 section 7.4.
    #[error("1 BadBits")]
    BadBits,
    /// Its depth is above its bits-per-pixel.
    #[error("2 DepthTooLarge")]
    DepthTooLarge,
    /// It has a colour map.
    #[error("3 NotTrueColour")]
    NotTrueColour,
    /// One of its maxima is not 2^N - 1 with N from 1 to 16.
    #[error("4 BadMax")]
    BadMax,
    /// One of its fields leaves the pixel.
    #[error("5 ShiftTooLarge")]
    ShiftTooLarge,
    /// Two of its fields share a bit.
    #[error("6 FieldsOverlap")]
    FieldsOverlap,
    /// No client message has this type byte, section 7.5.
    #[error("7 UnknownMessage")]
    UnknownMessage(u8),
    /// The client's ProtocolVersion is no version, section 7.1.1.
    #[error("15 BadVersion")]
    BadVersion,
    /// The client named a version above the one that was offered.
    #[error("16 VersionTooHigh")]
    VersionTooHigh,
    /// The client chose another security type than None.
    #[error("17 BadSecurityChoice")]
    BadSecurityChoice,
    /// There is no memory for a text.
    #[error("30 NoMemory")]
    NoMemory,
}

impl ServerFault {
    /// Its number, with which its text begins.
    pub fn number(&self) -> u8
        ensures { result ≡ fault_number self.now }
    {
        match self {
            ServerFault::BadBits => 1,
            ServerFault::DepthTooLarge => 2,
            ServerFault::NotTrueColour => 3,
            ServerFault::BadMax => 4,
            ServerFault::ShiftTooLarge => 5,
            ServerFault::FieldsOverlap => 6,
            ServerFault::UnknownMessage(_) => 7,
            ServerFault::BadVersion => 15,
            ServerFault::VersionTooHigh => 16,
            ServerFault::BadSecurityChoice => 17,
            ServerFault::NoMemory => 30,
        }
    }

    // The fault of a handshake, as one of a session. A client's bytes show the first three alone.
    pub(crate) fn of_hello(fault: HelloFault) -> ServerFault
        ensures { result ≡ fault_of_hello fault }
    {
        match fault {
            HelloFault::BadVersion => ServerFault::BadVersion,
            HelloFault::VersionTooHigh => ServerFault::VersionTooHigh,
            HelloFault::BadSecurityChoice => ServerFault::BadSecurityChoice,
            HelloFault::NoneNotOffered => ServerFault::BadVersion,
            HelloFault::Refused(_) => ServerFault::BadVersion,
            HelloFault::BadSecurityWord => ServerFault::BadVersion,
            HelloFault::SecurityFailed(_) => ServerFault::BadVersion,
            HelloFault::ScreenEmpty => ServerFault::BadVersion,
            HelloFault::ScreenTooLarge => ServerFault::BadVersion,
            HelloFault::NoMemory => ServerFault::NoMemory,
        }
    }

    // The fault of a message's head, as one of a session: a client's messages have no rectangles.
    pub(crate) fn of_wire(fault: WireFault) -> ServerFault
        requires { (first : ℕ) × (fault ≡ UnknownType first) }
        ensures { (first : ℕ) → fault ≡ UnknownType first → result ≡ UnknownMessage first }
    {
        match fault {
            WireFault::UnknownMessage(kind) => ServerFault::UnknownMessage(kind),
            WireFault::UnknownEncoding(_) | WireFault::RectOutside => unreachable!(),
        }
    }

    // The fault of a format, as one of a session.
    pub(crate) fn of_format(fault: FormatFault) -> ServerFault
        ensures { result ≡ fault_of_format fault }
    {
        match fault {
            FormatFault::BadBits => ServerFault::BadBits,
            FormatFault::DepthTooLarge => ServerFault::DepthTooLarge,
            FormatFault::NotTrueColour => ServerFault::NotTrueColour,
            FormatFault::BadMax => ServerFault::BadMax,
            FormatFault::ShiftTooLarge => ServerFault::ShiftTooLarge,
            FormatFault::FieldsOverlap => ServerFault::FieldsOverlap,
        }
    }
}

// Where only what a client did wrong is asked for, and not with which byte.
impl From<Flaw> for ServerFault {
    ghost from_gives = { λ flaw fault. fault ≡ flaw.fault };

    fn from(flaw: Flaw) -> ServerFault {
        flaw.fault
    }
}

/// A drawing, the source of a copy or a hint leaves the screen. Nothing was changed.
#[derive(Clone, Copy, Debug, PartialEq, Eq, Error)]
#[error("24 Outside")]
pub struct Outside;

#[cfg(test)]
mod tests;
