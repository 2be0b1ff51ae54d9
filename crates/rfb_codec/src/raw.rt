//! Raw, RFC 6143 section 7.7.1: the pixels row by row from the top, each row from the left.

mod encode;
mod paint;
mod walk;

pub use encode::{Raw, put_pixels};
pub use paint::paint_rows;
pub use walk::{take_pixels, take_run};
