//! What the encoders of more than one encoding choose, by this project's rules.

pub mod background;
pub mod cover;
pub mod palette;
