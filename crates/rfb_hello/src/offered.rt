//! The security types that a server offers.

use arrayvec::ArrayVec;

/// How many security types a list has at most: a byte counts them, section 7.1.2.
pub const MAX_TYPES: usize = 255;

/// The security types that a server offered, by their numbers, RFC 6143 section 7.1.2 and
/// Appendix A. These are its words, whatever the viewer takes of them.
#[derive(Debug, Drop)]
pub enum Offered {
    /// No types have come, or not all of a list; or the server refuses the connection.
    Nothing,
    /// The one type that a server of 3.3 chose.
    Chosen(u32),
    /// All types of the list that a server of 3.7 or 3.8 sent, in its order.
    Listed(ArrayVec<u8, MAX_TYPES>),
}
