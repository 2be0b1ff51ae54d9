//! Why sixteen bytes are no true-colour pixel format. Each prints as its number and its name.

use thiserror::Error;

/// What is wrong with a PIXEL_FORMAT, RFC 6143 section 7.4. The checks run in this order, and the
/// first that fails is the fault.
#[derive(Clone, Copy, Debug, PartialEq, Eq, Error)]
pub enum FormatFault {
    /// bits-per-pixel is not 8, 16 or 32.
    #[error("1 BadBits")]
    BadBits,
    /// depth is above bits-per-pixel.
    #[error("2 DepthTooLarge")]
    DepthTooLarge,
    /// true-colour-flag is zero: pixels would be places in a colour map.
    #[error("3 NotTrueColour")]
    NotTrueColour,
    /// A maximum is not 2^N - 1 with N from 1 to 16.
    #[error("4 BadMax")]
    BadMax,
    /// A field leaves the pixel: its shift and its N add up to more than bits-per-pixel.
    #[error("5 ShiftTooLarge")]
    ShiftTooLarge,
    /// Two fields share a bit.
    #[error("6 FieldsOverlap")]
    FieldsOverlap,
}

#[cfg(test)]
mod tests;
