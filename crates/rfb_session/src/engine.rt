//! Engines: one end of a connection, run over any reader and writer until its input ends.
//!
//! `serve` reads 4,096 bytes at most at once, since a client sends little. `view` and `play` read
//! 32,768: updates are long, and a piece that two reads cut costs more than a whole one.

mod apart;
mod device;
mod failure;
mod fault;
mod lent;
mod nowhere;
mod pair;
mod pixmap;
mod playing;
mod scene;
mod serving;
mod tally;
#[cfg(test)]
mod tests;
mod viewing;
mod watcher;
mod whole_write;
mod wire;

pub use apart::{serve, view, view_recording};
pub use device::{Sink, Source};
pub use fault::{Device, EngineFault};
pub use lent::Lent;
pub use nowhere::Nowhere;
pub use pair::Pair;
pub use pixmap::ppm;
pub use playing::{play, play_some, play_watched};
pub use scene::Scene;
pub use serving::serve_over;
pub use tally::Tally;
pub use viewing::{view_over, view_watched};
pub use watcher::{Unwatched, Watcher};
pub use whole_write::send;
pub use wire::Wire;

// How many bytes one read of a client asks for.
const READ_SIZE: usize = 4096;

// How many bytes one read of a server, or of a recording, asks for.
const UPDATE_READ_SIZE: usize = 32_768;
