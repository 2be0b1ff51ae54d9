//! Sentences about what happens at a console, which others make.

use crate::owner::{Beginning, Refusal};
use crate::relay::Gone;
use crate::share::event::ShareFault;
use arrayvec::ArrayString;

/// How many bytes a note has at most.
pub const NOTE_MAX: usize = 512;

/// A sentence or two, with their newlines. What does not fit is left out.
pub type Note = ArrayString<NOTE_MAX>;

/// Why a viewer is disconnected.
#[derive(Clone, Copy, Debug, PartialEq, Eq)]
pub enum Why {
    /// It closed its connection.
    Closed,
    /// Its connection failed.
    Device,
    /// Its session failed, since it sent what no client does or memory was wanting.
    Failed(ShareFault),
    /// The owner said so.
    Owner,
    /// Another one, at this seat, wished to be alone.
    Alone(u8),
    /// Its handshake was not done within so many milliseconds.
    Handshake(u64),
    /// Bytes waited for it for so many milliseconds, and it took none.
    Stuck(u64),
    /// Another one came, and its own handshake was not done.
    Newcomer,
    /// The screen of a server that came back has this size, which is another.
    NewSize { width: u16, height: u16 },
}

/// What there is to say.
#[derive(Drop)]
pub enum Saying<'a> {
    /// A line of the owner's is not done.
    Refused {
        /// Its number, counted from 1.
        number: u64,
        why: Refusal,
        /// What has come of it.
        said: &'a Beginning,
        /// The screen's width and height, once they are known.
        screen: Option<(u16, u16)>,
    },
    /// The input ended before a line said how large the screen is.
    NoScreen {
        number: u64,
    },
    /// The viewer at a seat is disconnected.
    Left {
        seat: u8,
        why: Why,
    },
    /// The server of a relay has gone away.
    ServerLeft {
        why: Gone,
        /// The pause before it is called again, in milliseconds, if it is.
        again: Option<u64>,
    },
    /// It came back, and its screen is shown.
    ServerBack,
}

/// Who makes sentences.
pub trait Speaker {
    /// Writes what there is to say to a person, or nothing.
    fn say(&self, saying: &Saying<'_>, note: &mut Note);
}

/// Nobody, who says nothing.
#[derive(Clone, Copy, Debug, Drop)]
pub struct Silent;

impl Speaker for Silent {
    fn say(&self, _saying: &Saying<'_>, _note: &mut Note) {}
}
