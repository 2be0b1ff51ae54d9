//! What the words of a line mean.

/// A place: its column and its row.
#[derive(Clone, Copy, Debug, PartialEq, Eq)]
pub struct Place {
    pub x: u16,
    pub y: u16,
}

/// A button of the pointer that goes down and up.
#[derive(Clone, Copy, Debug, PartialEq, Eq)]
pub struct Press {
    /// From 1, the left one, to 8.
    pub button: u8,
    /// Where the pointer goes before.
    pub at: Option<Place>,
}

/// How far a picture may be from what is shown, and where its top left corner is.
#[derive(Clone, Copy, Debug, PartialEq, Eq)]
pub struct Likeness {
    pub at: Place,
    /// How many of 255 each component may be off.
    pub within: u8,
}

/// Which way a wheel turns.
#[derive(Clone, Copy, Debug, PartialEq, Eq)]
pub enum Way {
    Up,
    Down,
}
