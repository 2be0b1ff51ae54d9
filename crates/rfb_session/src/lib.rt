//! Both ends of a connection in one process: a server, its viewer, and what is in flight between
//! them.
//!
//! A `World` is all of that: events happen to it, one by one or as a run, and its contracts say
//! what the viewer shows in the end. `law` says in contracts alone what holds of the two ends
//! together, whatever is drawn, asked, composed and delivered.
//!
//! # What to begin with
//!
//! - One end over a reader and a writer: `serve` with a `Scene` that draws, `view` with a number of
//!   updates, `play` of what a server sent. Each takes a `Source` and a `Sink`, or as `serve_over`
//!   and `view_over` a `Wire`, and writes all that is owed before it reads again. A `Watcher` hears
//!   how it goes: `view_watched`, `play_watched`.
//! - Both ends in one process: `World::new` of a server and a viewer, then `step` or `run`.
//! - One screen and up to eight viewers: `Hub::of`, a `Join` for each viewer, then `step` or
//!   `run`. A slot's events are `Of(slot, ..)`; drawings are everyone's.
//! - One screen and up to eight viewers elsewhere: `Share::of`, `join` for each, `received` with
//!   what came, `to_write` for what waits. It has the servers' ends alone, and knows no socket.
//! - What the owner of a share says by lines, and lines that say what its viewers do: `owner`, of
//!   words that `language` reads.
//! - Pictures and files: `ppm` writes a picture as PPM, and `netpbm::read_ppm` reads one.
//! - `Link` is a session and a viewer with the bytes in flight, over a screen that it borrows at
//!   each call: what worlds and hubs are made of.
//!
//! | Bytes | Go |
//! |---|---|
//! | that an end sends | into flight; `ToServer` and `ToViewer` deliver as many as they name |
//! | of an engine's end | to its `Sink` or its `Wire`, in order |
//! | of a `Foreign` event | into flight to the session of a slot, whoever sent them |
#![tactic(auto)]

mod beginning;
mod channel;
pub mod console;
mod disposal;
pub mod doors;
pub mod drive;
mod engine;
mod event;
mod front;
mod hub;
pub mod language;
mod latest;
pub mod law;
mod link;
mod loops;
pub mod netpbm;
pub mod owner;
pub mod relay;
mod reply;
mod seat;
mod seats;
mod share;
mod slots;
mod told;
mod world;

pub use disposal::dispose;
pub use engine::{
    Device, EngineFault, Lent, Nowhere, Pair, Scene, Sink, Source, Tally, Unwatched, Watcher, Wire,
    play, play_some, play_watched, ppm, send, serve, serve_over, view, view_over, view_recording,
    view_watched,
};
pub use event::Event;
pub use hub::Hub;
pub use hub::event::{HubEvent, HubFault, HubTold, SlotEvent};
pub use link::Link;
pub use loops::turns;
pub use reply::{server_reply, viewer_reply};
pub use rfb_server::{Drawing, ServerSetup as HubSetup, ServerSetup as ShareSetup};
pub use rfb_viewer::ViewerSetup as Setup;
pub use seat::Seat;
pub use seats::{Seats, SeatsLeft};
pub use share::Share;
pub use share::event::{Composing, Heard, SeatEvent, ShareFault};
pub use slots::SLOTS;
pub use told::{Delivery, NoMemory, Refused, Told};
pub use world::World;
