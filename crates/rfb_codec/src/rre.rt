//! RRE, RFC 6143 section 7.7.3: a background, and subrectangles of one pixel each over it.

mod encode;
mod paint;
mod read;

pub use encode::Rre;
pub use paint::{take_head, take_subrect};
