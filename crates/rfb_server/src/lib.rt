//! The server's end of a connection: a screen, and a session that knows what its viewer was sent.
//!
//! Bytes of a client and drawings of the owner go in; answers, events and updates come out. Nothing
//! here reads or writes a device: the caller owns the bytes, and sends what it is given in order.
//! `law` says in contracts alone what the client's stream and the server's states rest on.
//!
//! # The order of calls
//!
//! 1. `Server::new` makes a server with a black screen.
//! 2. `greeting` is sent before all else.
//! 3. What came of the client goes to `feed`, until all of it is used. It gives one event a call:
//!    the bytes of its `reply` are sent; keys, the pointer and texts are the owner's.
//! 4. `draw` draws, at any time, and so do `fill`, `put`, `put_rows`, `copy` and `scroll`. `hint`
//!    says that a rectangle looks as another did, so a copy may be sent for it.
//! 5. `compose`, once all that came was fed, appends an update where the client asked for places
//!    that it lacks. It is sent after the replies.
//! 6. An error of `feed` is the last of the connection: nothing is sent any more, and every later
//!    call gives it again.
//!
//! | Bytes | Go to |
//! |---|---|
//! | of `greeting`, of an event's `reply`, of `compose`, in this order | the client |
//! | of the client, in any slices | `feed` |
//!
//! `Session` is a server without its screen, which its calls borrow. Several of them show one
//! screen: `notified` tells each of a `Drawing`, and `draw_on` draws it on the screen once.
#![tactic(auto)]

mod cells;
mod claim;
mod drawing;
mod encodings;
mod event;
mod fault;
mod growth;
mod hint;
mod late;
pub mod law;
mod record;
mod rectangle;
mod server;
mod session;
mod setup;

pub use drawing::{Drawing, Notice};
pub use event::{MAX_REPLY, ServerEvent};
pub use fault::{Flaw, Outside, ServerFault};
pub use hint::MAX_HINTS;
pub use late::{LateFault, LateSession};
pub use server::Server;
pub use session::Session;
pub use setup::ServerSetup;

#[cfg(test)]
mod tests;
