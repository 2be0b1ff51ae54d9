//! Why the data of a rectangle are refused. Each prints as its number and its name.

use thiserror::Error;

/// What is wrong with an element of a rectangle's data.
#[derive(Clone, Copy, Debug, PartialEq, Eq, Error)]
pub enum PaintFault {
    /// A subrectangle leaves its rectangle or its tile.
    #[error("10 SubrectOutside")]
    SubrectOutside,
    /// A tile of Hextile is drawn over a background, and none was specified in its rectangle.
    #[error("11 NoBackground")]
    NoBackground,
    /// A tile has subrectangles without pixels of their own, and no foreground was specified in
    /// its rectangle.
    #[error("12 NoForeground")]
    NoForeground,
    /// A tile has a foreground and subrectangles with pixels of their own.
    #[error("13 BothColourBits")]
    BothColourBits,
    /// The source of a CopyRect leaves the screen.
    #[error("14 SourceOutside")]
    SourceOutside,
}

/// With which byte a fault came.
#[derive(Clone, Copy, Debug, PartialEq, Eq)]
pub struct Flaw {
    /// How many of the bytes, from the first on, show it. One fewer would not.
    pub used: usize,
    /// What is wrong there.
    pub fault: PaintFault,
}

#[cfg(test)]
mod tests;
