//! The words that lines begin with.

pub use rfb_session::language::{COPY, FILL, HINT, SCREEN};

/// The word that the second line may begin with.
pub const VIEWER: &[u8] = b"viewer";

// The words that later lines begin with, beside those of drawings.
pub const REQUEST: &[u8] = b"request";

pub const FORMAT: &[u8] = b"format";

pub const COMPOSE: &[u8] = b"compose";

pub const TO_VIEWER: &[u8] = b"toviewer";

pub const TO_SERVER: &[u8] = b"toserver";

pub const SETTLE: &[u8] = b"settle";

/// The words that lines of a hub begin with, beside those of a script.
pub const HUB: &[u8] = b"hub";

pub const SHOW: &[u8] = b"show";

pub const JOIN: &[u8] = b"join";

pub const LEAVE: &[u8] = b"leave";

pub const FOREIGN: &[u8] = b"foreign";

pub const AT: &[u8] = b"at";
