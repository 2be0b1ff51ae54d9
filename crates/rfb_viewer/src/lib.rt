//! The viewer's end of a connection: a picture that is made of what a server sends.
//!
//! Bytes of a server go in; answers, events and a picture come out, and the owner's calls become
//! messages. Nothing here reads or writes a device: the caller owns the bytes, and sends what it is
//! given in order. `law` says in contracts alone what the server's stream and the viewer's states
//! rest on.
//!
//! # The order of calls
//!
//! 1. `Viewer::new` makes a viewer without a picture. It sends nothing by itself: the server speaks
//!    first.
//! 2. What came of the server goes to `feed`, until all of it is used. It gives one event a call:
//!    the bytes of its `reply` are sent.
//! 3. From `Ready` on there is a `picture`, which is black at first, and the other calls are
//!    possible: `request`, `set_format`, `set_encodings`, `key`, `pointer`, `cut_text`. Each gives
//!    a message that is to be sent. `append` and `spell` make any of them, by a `Call`.
//! 4. `request` asks for an update. One at a time may be outstanding, until `UpdateDone`. The first
//!    is for all places, later ones for what changed.
//! 5. `damage` is the least rectangle that holds what changed of the picture since it was asked
//!    last. A window repaints that, whenever it likes. `moved` has the copies among it.
//! 6. An error of `feed` is the last of the connection. The picture stays, with what came before
//!    it; `reason` has what the server said where it refused the handshake.
//!
//! | Bytes | Go to |
//! |---|---|
//! | of an event's `reply`, of a call's message, in the order of the calls | the server |
//! | of the server, in any slices | `feed` |
#![tactic(auto)]

mod call;
mod client_messages;
mod event;
mod fault;
mod gather;
pub mod law;
mod setup;
#[cfg(test)]
mod tests;
mod viewer;

pub use call::{Call, MAX_FRONT, Message};
pub use event::{MAX_ANSWER, MAX_READY, ViewerEvent};
pub use fault::{AppendFault, CallFault, TextFault, ViewerFault};
pub use setup::ViewerSetup;
pub use viewer::Viewer;
pub use viewer::moved::{MAX_MOVES, Move};
