//! What runs the lines of a rig, one after another, at the screen of a server, for numbered doors.
//!
//! It is a core of `doors`: it has no socket, no file, and no clock but the time that it is told.
//!
//! | Door | What comes in | What goes out |
//! |---|---|---|
//! | `SERVER` | what the server sends | the messages of its viewer, and those of lines |
//! | `ORDERS` | the rig's lines | |
//! | `LINES` | | lines that report what happens |
//! | `NOTES` | | a sentence, where all ends by a fault |
//!
//! - No line begins before the server's first update is whole, nor before the line before it is
//!   done. Where 65,536 bytes of reports wait, none begins and the server is not read.
//! - It asks for what has changed all the time, so a line looks at the picture as it is now.
//! - All that was ready is heard before a line begins. What an update shows counts, even if another
//!   one comes in the same turn.
//! - An update changes the least rectangle that holds its own.

mod entrances;
mod hearing;
mod hosting;
pub(crate) mod input;
pub(crate) mod lines;
mod looking;
mod losing;
mod outcome;
mod pictures;
mod rig;
mod running;
mod saying;
mod sending;
pub(crate) mod task;
mod telling;
mod turning;

ghost use Rattle.std.specs.Prelude.{◌≡◌};

use crate::channel::Channel;
use crate::drive::words::Place;
use input::Input;
pub use outcome::DriveOutcome;
use rfb_picture::Rect;
use rfb_viewer::{Viewer, ViewerSetup};
pub use rig::{Rig, RigFault};
pub use saying::{DriveSaying, Lateness, LineFlaw, ScreenSize, Unlike};
use std::alloc::Global;
use task::Task;

/// The door of the rig's lines.
pub const ORDERS: usize = 1;

// How many bytes of the server's, or of the rig's, are taken in one turn.
const ROOM: usize = 1 << 16;

/// What a driver is made with.
#[derive(Drop)]
pub struct DriverSetup {
    /// What the server's viewer is made with.
    pub viewer: ViewerSetup,
    /// How long, in milliseconds, the handshake and the first update may take, and each line until
    /// one says otherwise.
    pub limit: u64,
    /// Whether a line reports each update that changed something.
    pub tells_changes: bool,
}

/// What runs the lines of a rig.
#[derive(Drop)]
pub struct Driver<R: Rig + Drop> {
    alloc: Global,
    tells_changes: bool,
    rig: R,
    viewer: Viewer,
    // The name that the server gave.
    name: Vec<u8>,
    // Whether its first update is whole.
    is_shown: bool,
    // What waits for the server.
    to_server: Channel,
    input: Input,
    pace: Pace,
    lines: Channel,
    notes: Channel,
    are_notes_lost: bool,
    outcome: Option<DriveOutcome>,
    rooms: Rooms,
    turns: Turns,
}

// The line that is under way. Times are in milliseconds.
#[derive(Drop)]
pub(crate) struct Pace {
    pub task: Task,
    // When it began.
    pub begun: u64,
    // How long it may take.
    pub limit: u64,
    // The least rectangle that holds what changed since the line before it was done.
    pub changed: Option<Rect>,
    // Where the pointer is.
    pub at: Place,
}

// How many bytes are taken before the next turn.
#[derive(Clone, Copy, Debug)]
pub(crate) struct Rooms {
    pub server: usize,
    pub orders: usize,
}

// The times that turns have given.
#[derive(Clone, Copy, Debug)]
pub(crate) struct Turns {
    // When the first one was.
    pub first: Option<u64>,
    // Until when what waits is written after the end.
    pub patience: Option<u64>,
    pub is_over: bool,
    // When it wants the next one.
    pub next: Option<u64>,
}

impl<R: Rig + Drop> Driver<R> {
    ghost use Rattle.rfb_session.specs.drive.driver.Driver.{IsFreshDriver};

    /// A driver whose server has said nothing yet.
    pub fn new(alloc: Global, setup: DriverSetup, rig: R) -> Driver<R>
        ensures { IsFreshDriver setup rig result }
    {
        Driver {
            alloc,
            tells_changes: setup.tells_changes,
            rig,
            viewer: Viewer::of(alloc, setup.viewer),
            name: Vec::new(alloc),
            is_shown: false,
            to_server: Channel::new(alloc),
            input: Input::new(alloc),
            pace: Pace {
                task: Task::Idle,
                begun: 0,
                limit: setup.limit,
                changed: None,
                at: Place { x: 0, y: 0 },
            },
            lines: Channel::new(alloc),
            notes: Channel::new(alloc),
            are_notes_lost: false,
            outcome: None,
            rooms: Rooms {
                server: ROOM,
                orders: ROOM,
            },
            turns: Turns {
                first: None,
                patience: None,
                is_over: false,
                next: None,
            },
        }
    }

    /// How all has ended, once it has.
    pub fn outcome(&self) -> Option<DriveOutcome>
        ensures { result ≡ self.now.outcome }
    {
        self.outcome
    }
}
