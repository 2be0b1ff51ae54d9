//! What a client's bytes do to a session.

mod cut_text;
mod encodings;
pub(super) mod handshake;
mod head;
mod message;
mod pixel_format;
pub(super) mod progress;
mod requests;
mod slice;
