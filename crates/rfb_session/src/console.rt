//! A console: a share whose owner speaks and hears by lines, for numbered doors.
//!
//! It is a core of `doors`: it has no socket, and no clock but the time that it is told.
//!
//! | Door | What comes in | What goes out |
//! |---|---|---|
//! | `OWNER` | the owner's lines | |
//! | 1 to 8 | what the viewer of seat 0 to 7 sends | what its session sends |
//! | `LINES` | | lines that say what viewers do |
//! | `NOTES` | | which of the owner's lines are bad, and sentences |
//!
//! - A viewer that takes a seat and does not finish its handshake gives way to the next one that
//!   comes, or is disconnected after a time. So nobody is locked out by those who say nothing.
//! - Lines that wait for an owner that does not read them are bounded. Once 4,096 bytes of them are
//!   about one viewer, it is not read until they are gone. The others go on.
//! - All that was ready is heard before anything is composed.
//! - After an update of more than a mebibyte, no other is composed before what is ready was written
//!   and heard. So small ones do not wait behind those of eight whole screens. Until it has left,
//!   for 100 milliseconds at most, only slight ones are composed. So few of its size wait at once.

pub(crate) mod desk;
pub(crate) mod entrances;
pub(crate) mod guest;
mod hosting;
pub mod laws;
pub(crate) mod lines;
mod listening;
pub(crate) mod names;
mod notes;
mod obeying;
pub(crate) mod plan;
mod speaker;
mod turns;

ghost use Rattle.std.specs.Prelude.{◌≡◌, ◌≤◌, length};

use crate::console::desk::Desk;
pub use crate::console::plan::{ConsoleSetup, Rules};
pub use crate::console::speaker::{NOTE_MAX, Note, Saying, Silent, Speaker, Why};
use crate::owner::{Beginning, OwnerReader};
use crate::relay::Gone;
use crate::seats::Seats;
use arrayvec::ArrayVec;
use std::alloc::Global;

/// The door of the owner's lines.
pub const OWNER: usize = 0;

/// The door of lines that say what viewers do.
pub const LINES: usize = 9;

/// The door of notes.
pub const NOTES: usize = 10;

/// How many doors there are.
pub const DOORS: usize = 11;

// How many doors are read: the owner's and the seats'.
const READ: usize = 9;

// How many bytes of a name a session takes.
const NAME_MAX: usize = 255;

/// How all has ended.
#[derive(Clone, Copy, Debug, PartialEq, Eq)]
pub enum Outcome {
    /// A line of the owner's said `quit`.
    Quit,
    /// The last viewer has gone.
    Idle,
    /// The input ended before it gave the size of the screen: in the line of this number, counted
    /// from 1, or before it.
    BadLine(u64),
    /// There was no memory for the screen, for a line of `LINES`, or for the note on a bad line.
    NoMemory,
    /// The device that `LINES` go to has failed.
    Device,
    /// The server of a relay has gone away.
    ServerGone(Gone),
}

/// A console. `S` makes its sentences.
#[derive(Drop)]
pub struct Console<S: Drop> {
    alloc: Global,
    name: ArrayVec<u8, NAME_MAX>,
    pub(crate) rules: Rules,
    reader: OwnerReader,
    // What has come of the owner's line.
    said: Beginning,
    // How many of the owner's lines were read.
    count: u64,
    has_input_ended: bool,
    // There is none before the owner says how large the screen is.
    pub(crate) desk: Option<Desk>,
    // How many bytes each door takes before the next turn.
    rooms: [usize; READ],
    notes: Vec<u8>,
    // The seats whose viewer's end a sentence has reported.
    parted: Seats,
    are_notes_lost: bool,
    // There was no memory for the note on a bad line.
    are_notes_wanting: bool,
    pub(crate) outcome: Option<Outcome>,
    // Until when what waits is written after the end, once a turn has given the time.
    patience: Option<u64>,
    pub(crate) is_over: bool,
    // When it wants the next turn.
    pub(crate) next: Option<u64>,
    speaker: S,
    ghost nine: { length rooms ≡ 9 },
    ghost few_notes: { length notes.items ≤ 8388608 },
}

impl<S: Speaker + Drop> Console<S> {
    ghost use Rattle.rfb_session.specs.console.Console.{IsFreshConsole};

    /// A console that was told nothing.
    pub fn new(alloc: Global, setup: &ConsoleSetup<'_>, speaker: S) -> Console<S>
        requires name { length setup.now.name.now ≤ 255 }
        ensures fresh { IsFreshConsole result }
        ensures rules { result.rules ≡ setup.now.rules }
        ensures name { result.name.items ≡ setup.now.name.now }
    {
        let mut name = ArrayVec::new();
        let _ = name.try_extend_from_slice(setup.name);
        let mut rooms = [0; READ];
        rooms[OWNER] = listening::ROOM_OF_OWNER;
        Console {
            alloc,
            name,
            rules: setup.rules,
            reader: OwnerReader::new(alloc),
            said: Beginning::new(),
            count: 0,
            has_input_ended: false,
            desk: None,
            rooms,
            notes: Vec::new(alloc),
            parted: Seats::none(),
            are_notes_lost: false,
            are_notes_wanting: false,
            outcome: None,
            patience: None,
            is_over: false,
            next: None,
            speaker,
        }
    }

    /// How all has ended, once it has.
    pub fn outcome(&self) -> Option<Outcome>
        ensures { result ≡ self.now.outcome }
    {
        self.outcome
    }
}
