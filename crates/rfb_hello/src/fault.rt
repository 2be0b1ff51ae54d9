//! Why a handshake ends.

use thiserror::Error;

/// What a peer did wrong, or refused, in a handshake; and want of memory.
#[derive(Clone, Copy, Debug, PartialEq, Eq, Error)]
pub enum HelloFault {
    /// The text is not of the shape `RFB ddd.ddd` and a line feed, section 7.1.1.
    #[error("15 BadVersion")]
    BadVersion,
    /// A client named a version above the one that was offered.
    #[error("16 VersionTooHigh")]
    VersionTooHigh,
    /// A client chose another security type than None.
    #[error("17 BadSecurityChoice")]
    BadSecurityChoice,
    /// A server has no security type None.
    #[error("18 NoneNotOffered")]
    NoneNotOffered,
    /// A server refused the connection: how many bytes its reason has, section 7.1.2.
    #[error("19 Refused")]
    Refused(u32),
    /// A 3.3 server sent a security type above 2, Appendix A.
    #[error("20 BadSecurityWord")]
    BadSecurityWord,
    /// A SecurityResult was not success: how many bytes its reason has, section 7.1.3.
    #[error("21 SecurityFailed")]
    SecurityFailed(u32),
    /// A screen without a place.
    #[error("22 ScreenEmpty")]
    ScreenEmpty,
    /// A screen of more places than are admitted.
    #[error("23 ScreenTooLarge")]
    ScreenTooLarge,
    /// There is no memory for a text.
    #[error("30 NoMemory")]
    NoMemory,
}

#[cfg(test)]
mod tests;
