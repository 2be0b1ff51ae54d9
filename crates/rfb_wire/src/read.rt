//! What reading a head from the start of a slice returns.

use crate::fault::WireFault;

/// What a reading returns. More bytes after those that it was given do not change a `Got` or a
/// `Bad`.
#[derive(Clone, Copy, Debug, PartialEq, Eq)]
pub enum Read<T> {
    /// The bytes are a prefix of a head, which lacks this number of bytes, one at least. For a
    /// message without its type byte it is one.
    More(usize),
    /// A head, and how many bytes of the slice it is encoded in.
    Got(T, usize),
    /// No head begins like this.
    Bad(WireFault),
}
