//! Why bytes are no head of RFC 6143. Each prints as its number and its name.

use thiserror::Error;

/// What is wrong with a head.
#[derive(Clone, Copy, Debug, PartialEq, Eq, Error)]
pub enum WireFault {
    /// No message of that direction has this type byte.
    #[error("7 UnknownMessage")]
    UnknownMessage(u8),
    /// A rectangle's encoding is none of Raw, CopyRect, RRE and Hextile.
    #[error("8 UnknownEncoding")]
    UnknownEncoding(i32),
    /// A rectangle leaves the screen.
    #[error("9 RectOutside")]
    RectOutside,
}

#[cfg(test)]
mod tests;
