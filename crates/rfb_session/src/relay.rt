//! A relay: one viewer of a server, and a server of what it shows for up to eight viewers, for
//! numbered doors.
//!
//! It is a core of `doors`: it has no socket, and no clock but the time that it is told. Nothing
//! that the server sends is sent on, and nothing that a viewer sends: what passes are a picture,
//! keys, pointers and texts.
//!
//! | Door | What comes in | What goes out |
//! |---|---|---|
//! | `SERVER` | what the server sends | the messages of its viewer |
//! | 1 to 8 | what the viewer of seat 0 to 7 sends | what its session sends |
//! | `LINES` | | lines that say what the server and the viewers do |
//! | `NOTES` | | sentences |
//!
//! - The sessions of the seats follow the picture of the server's viewer, so it is kept once.
//! - Nobody is let in before the server's first update is whole.
//! - The server is asked for an update only where a viewer of the relay waits for one.
//! - While an update of the server's comes, none is composed. One that takes longer than the rules'
//!   hold is shown as far as it has come.
//! - A viewer is not read while much of what it did waits for the server. The others go on.
//! - A server that goes away may be called again. Until its first update is whole, viewers keep the
//!   picture that they had. If its screen has another size then, they are disconnected.

mod asking;
mod calling;
mod entrances;
mod gone;
mod hearing;
mod hosting;
pub mod laws;
pub(crate) mod lines;
mod losing;
mod passing;
pub(crate) mod presence;
pub(crate) mod setup;
mod showing;

ghost use Rattle.std.specs.Prelude.{◌≡◌, length};
ghost use Rattle.std.specs.Option.{ForSome};
ghost use Rattle.rfb_session.specs.Mirrors.{StandsOrFailed};

use crate::channel::Channel;
use crate::console::{Console, ConsoleSetup, Outcome, Speaker};
use crate::slots::SLOTS;
use arrayvec::ArrayVec;
pub use gone::Gone;
pub(crate) use hearing::is_shown_size;
pub(crate) use passing::TEXT_MOST;
use presence::Presence;
use rfb_viewer::Viewer;
use setup::Given;
pub use setup::RelaySetup;
use std::alloc::Global;

/// The door of the server.
pub const SERVER: usize = 0;

// How many bytes of a name a session takes.
const NAME_MAX: usize = 255;

/// A relay. `S` makes its sentences.
#[derive(Drop)]
pub struct Relay<S: Drop> {
    alloc: Global,
    // The seats, the lines and the notes. Its desk is there once there is a picture.
    console: Console<S>,
    given: Given,
    // The name that the server gave.
    server_name: ArrayVec<u8, NAME_MAX>,
    presence: Presence,
    // The server's viewer, as long as its picture is not shown.
    coming: Option<Viewer>,
    // What waits for the server.
    to_server: Channel,
    // How many bytes of it each viewer's doings have, counted until nothing waits.
    passed: [usize; SLOTS],
    ghost eight: { length passed ≡ 8 },
    ghost stands: { ForSome coming (λ viewer. ∥ StandsOrFailed viewer ∥₁) },
}

impl<S: Speaker + Drop> Relay<S> {
    ghost use Rattle.rfb_session.specs.relay.Server.{IsFreshRelay};

    /// A relay whose server has said nothing yet.
    pub fn new(alloc: Global, setup: RelaySetup<'_>, speaker: S) -> Relay<S>
        ensures { IsFreshRelay setup.entry result }
    {
        let given = Given::of(setup.name, setup.viewer);
        let viewer = given.next_viewer(alloc);
        let console = ConsoleSetup {
            name: &[],
            rules: setup.rules,
        };
        Relay {
            alloc,
            console: Console::new(alloc, &console, speaker),
            given,
            server_name: ArrayVec::new(),
            presence: Presence::Coming,
            coming: Some(viewer),
            to_server: Channel::new(alloc),
            passed: [0; SLOTS],
        }
    }

    /// How all has ended, once it has.
    pub fn outcome(&self) -> Option<Outcome>
        ensures { result ≡ self.now.console.outcome }
    {
        self.console.outcome()
    }
}
