//! Where a viewer may copy from.

use rfb_picture::Rect;

/// How many hints a session keeps.
pub const MAX_HINTS: usize = 16;

/// The rectangle `to` looks as the one of its size at (`sx`, `sy`) did: the owner says so, and
/// nothing rests on it.
#[derive(Clone, Copy, Debug, PartialEq, Eq)]
pub(crate) struct Hint {
    pub(crate) to: Rect,
    pub(crate) sx: u16,
    pub(crate) sy: u16,
}
