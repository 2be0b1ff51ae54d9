//! Colours, and the true-colour pixel formats of RFC 6143, section 7.4.
//!
//! A `Format` is read from the sixteen bytes of a PIXEL_FORMAT, which a peer may get wrong, and
//! is written back. It turns a colour into a pixel value and back, and a pixel value into the
//! bytes that go over the wire and back. Nothing here takes memory, and nothing but reading can
//! fail: the caller owns every slice, and says beforehand that it has the right size. Colour
//! maps are not known here.
#![tactic(auto)]

mod bytes;
mod channel;
mod colour;
mod fault;
mod format;
mod lanes;
mod rows;

pub use bytes::colours_of_bytes;
pub use colour::Colour;
pub use fault::FormatFault;
pub use format::{FORMAT_SIZE, Format};
pub use rows::{count_equal, differing, first_diff, last_diff, others_in, run_of};
