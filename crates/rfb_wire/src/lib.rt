//! The bytes of RFC 6143's messages: their heads, and the streams that both ends rest on.
//!
//! `ClientHead`, `ServerHead` and `RectHead` are read from the start of a slice, which may hold
//! less than a head or more, and are encoded as bytes. Nothing here takes memory, keeps bytes
//! or asks what was read before. The caller owns the slice, and drops from it what a
//! `Read::Got` has used. Who keeps a piece that comes in slices has `pieces` to gather it.
//!
//! `stream` says in contracts alone what every end that is fed a stream of bytes rests on. It
//! knows no message; `law` says which bytes of a stream are which messages.
#![tactic(auto)]

mod client_head;
mod encoding;
mod fault;
mod fields;
pub mod law;
pub mod pieces;
mod read;
mod rect_head;
mod server_head;
pub mod stream;

pub use client_head::ClientHead;
pub use encoding::Encoding;
pub use fault::WireFault;
pub use read::Read;
pub use rect_head::RectHead;
pub use server_head::ServerHead;
