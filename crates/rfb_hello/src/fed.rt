//! The answer of an end that is fed bytes.

/// How many bytes an end used of those that it was fed, and what happened at the last of them, if
/// something did. Without an event it used all.
#[derive(Clone, Copy, Debug, Drop, PartialEq, Eq)]
pub struct Fed<E> {
    pub used: usize,
    pub event: Option<E>,
}
