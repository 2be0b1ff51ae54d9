//! Why a viewer ends, and why it refuses a call. Each fault prints as its number and its name.

ghost use Rattle.std.specs.Prelude.{◌≡◌};
ghost use Rattle.rfb_viewer.specs.Fault.{fault_of_hello, fault_of_wire, fault_of_paint};
ghost use Rattle.rfb_viewer.specs.Fault.{fault_number};

use rfb_codec::PaintFault;
use rfb_hello::HelloFault;
use rfb_wire::WireFault;
use thiserror::Error;

/// What a server did wrong, or refused, and want of memory.
#[derive(Clone, Copy, Debug, PartialEq, Eq, Error)]
pub enum ViewerFault {
    /// No server message has this type byte, RFC 6143 section 7.6.
    #[error("7 UnknownMessage")]
    UnknownMessage(u8),
    /// A rectangle's encoding is none of the four that are known here, section 7.7.
    #[error("8 UnknownEncoding")]
    UnknownEncoding(i32),
    /// A rectangle leaves the screen, section 7.6.1.
    #[error("9 RectOutside")]
    RectOutside,
    /// A subrectangle leaves its rectangle or its tile, sections 7.7.3 and 7.7.4.
    #[error("10 SubrectOutside")]
    SubrectOutside,
    /// A tile of Hextile is drawn over a background, and none was specified in its rectangle.
    #[error("11 NoBackground")]
    NoBackground,
    /// Subrectangles of a tile have no pixels of their own, and no foreground was specified in its
    /// rectangle.
    #[error("12 NoForeground")]
    NoForeground,
    /// A tile has a foreground and subrectangles with pixels of their own.
    #[error("13 BothColourBits")]
    BothColourBits,
    /// The source of a CopyRect leaves the screen, section 7.7.2.
    #[error("14 SourceOutside")]
    SourceOutside,
    /// The server's ProtocolVersion is no version, section 7.1.1.
    #[error("15 BadVersion")]
    BadVersion,
    /// The server has no security type None, section 7.1.2.
    #[error("18 NoneNotOffered")]
    NoneNotOffered,
    /// The server refused the connection: how many bytes its reason has, section 7.1.2.
    #[error("19 Refused")]
    Refused(u32),
    /// A 3.3 server sent a security type above 2, Appendix A.
    #[error("20 BadSecurityWord")]
    BadSecurityWord,
    /// SecurityResult was not success: how many bytes its reason has, section 7.1.3.
    #[error("21 SecurityFailed")]
    SecurityFailed(u32),
    /// The screen has no place, section 7.3.2.
    #[error("22 ScreenEmpty")]
    ScreenEmpty,
    /// The screen has more places than are admitted.
    #[error("23 ScreenTooLarge")]
    ScreenTooLarge,
    /// There is no memory for the screen or for a text.
    #[error("30 NoMemory")]
    NoMemory,
}

impl ViewerFault {
    /// Its number, with which its text begins.
    pub fn number(&self) -> u8
        ensures { result ≡ fault_number self.now }
    {
        match self {
            ViewerFault::UnknownMessage(_) => 7,
            ViewerFault::UnknownEncoding(_) => 8,
            ViewerFault::RectOutside => 9,
            ViewerFault::SubrectOutside => 10,
            ViewerFault::NoBackground => 11,
            ViewerFault::NoForeground => 12,
            ViewerFault::BothColourBits => 13,
            ViewerFault::SourceOutside => 14,
            ViewerFault::BadVersion => 15,
            ViewerFault::NoneNotOffered => 18,
            ViewerFault::Refused(_) => 19,
            ViewerFault::BadSecurityWord => 20,
            ViewerFault::SecurityFailed(_) => 21,
            ViewerFault::ScreenEmpty => 22,
            ViewerFault::ScreenTooLarge => 23,
            ViewerFault::NoMemory => 30,
        }
    }

    // The fault of a handshake. Of its faults two are a client's, and never come of a server's
    // bytes.
    pub(crate) fn of_hello(fault: HelloFault) -> ViewerFault
        ensures { result ≡ fault_of_hello fault }
    {
        match fault {
            HelloFault::BadVersion => ViewerFault::BadVersion,
            HelloFault::VersionTooHigh => ViewerFault::BadVersion,
            HelloFault::BadSecurityChoice => ViewerFault::BadVersion,
            HelloFault::NoneNotOffered => ViewerFault::NoneNotOffered,
            HelloFault::Refused(length) => ViewerFault::Refused(length),
            HelloFault::BadSecurityWord => ViewerFault::BadSecurityWord,
            HelloFault::SecurityFailed(length) => ViewerFault::SecurityFailed(length),
            HelloFault::ScreenEmpty => ViewerFault::ScreenEmpty,
            HelloFault::ScreenTooLarge => ViewerFault::ScreenTooLarge,
            HelloFault::NoMemory => ViewerFault::NoMemory,
        }
    }

    // The fault of a message's or a rectangle's head.
    pub(crate) fn of_wire(fault: WireFault) -> ViewerFault
        ensures { result ≡ fault_of_wire fault }
    {
        match fault {
            WireFault::UnknownMessage(kind) => ViewerFault::UnknownMessage(kind),
            WireFault::UnknownEncoding(number) => ViewerFault::UnknownEncoding(number),
            WireFault::RectOutside => ViewerFault::RectOutside,
        }
    }

    // The fault of a rectangle's data.
    pub(crate) fn of_paint(fault: PaintFault) -> ViewerFault
        ensures { result ≡ fault_of_paint fault }
    {
        match fault {
            PaintFault::SubrectOutside => ViewerFault::SubrectOutside,
            PaintFault::NoBackground => ViewerFault::NoBackground,
            PaintFault::NoForeground => ViewerFault::NoForeground,
            PaintFault::BothColourBits => ViewerFault::BothColourBits,
            PaintFault::SourceOutside => ViewerFault::SourceOutside,
        }
    }
}

/// Why a call is refused. Nothing was changed, and nothing is to be sent.
#[derive(Clone, Copy, Debug, PartialEq, Eq, Error)]
pub enum CallFault {
    /// The handshake is not done, or the viewer has failed.
    #[error("25 NotReady")]
    NotReady,
    /// A request is outstanding; or, for a format, the server's bytes are inside an update.
    #[error("26 Busy")]
    Busy,
    /// The area has no place, or leaves the screen.
    #[error("27 AreaOutside")]
    AreaOutside,
}

/// Why a message is not appended. Nothing was changed.
#[derive(Clone, Copy, Debug, PartialEq, Eq, Error)]
pub enum AppendFault {
    /// The call is refused.
    #[error(transparent)]
    Refused(CallFault),
    /// There is no memory for the message.
    #[error("30 NoMemory")]
    NoMemory,
}

/// Why a text is not sent. Nothing was changed.
#[derive(Clone, Copy, Debug, PartialEq, Eq, Error)]
pub enum TextFault {
    /// The handshake is not done, or the viewer has failed.
    #[error("25 NotReady")]
    NotReady,
    /// There is no memory for the message.
    #[error("30 NoMemory")]
    NoMemory,
}
