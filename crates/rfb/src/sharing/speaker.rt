//! Sentences of a share and of a relay, for a person who reads standard error.

use crate::explain::{Flaw, ServerFlaw};
use crate::script::cause::NO_SCREEN;
use crate::script::cause::reason::Reason;
use crate::sharing::owner_cause::why_bad;
use rfb_session::ShareFault;
use rfb_session::console::{Note, Saying, Speaker, Why};
use rfb_session::owner::Refusal;
use rfb_session::relay::Gone;
use std::fmt;
use std::fmt::Write as _;

/// Says why a line is bad, and why a viewer or a server leaves, if anybody wants to know.
#[derive(Clone, Copy, Drop)]
pub struct Reporter {
    pub are_wanted: bool,
}

impl Speaker for Reporter {
    fn say(&self, saying: &Saying<'_>, note: &mut Note) {
        if !self.are_wanted {
            return;
        }
        let _ = match saying {
            Saying::Refused {
                number,
                why: Refusal::Bad,
                said,
                screen,
            } => say_of_line(*number, why_bad(said, *screen), note),
            // The line that reports it says all.
            Saying::Refused {
                why: Refusal::NoMemory,
                ..
            } => Ok(()),
            Saying::NoScreen { number } => say_of_line(*number, Reason::Said(NO_SCREEN), note),
            Saying::Left { seat, why } => say_left(*seat, *why, note),
            Saying::ServerLeft { why, again } => say_gone(*why, *again, note),
            Saying::ServerBack => writeln!(note, "rfb: the server is back"),
        };
    }
}

// Says what is wrong with the owner's line of this number.
fn say_of_line(number: u64, reason: Reason<'_>, note: &mut Note) -> fmt::Result {
    writeln!(note, "rfb: line {number} of standard input{reason}")
}

// Says why the viewer at a seat leaves. Limits of time are whole seconds, in milliseconds.
fn say_left(seat: u8, why: Why, note: &mut Note) -> fmt::Result {
    write!(note, "rfb: the viewer at seat {seat} leaves: ")?;
    match why {
        Why::Closed => writeln!(note, "it closed its connection"),
        Why::Device => writeln!(note, "its connection broke"),
        Why::Failed(ShareFault::Session(fault)) => writeln!(note, "{}", Flaw(fault)),
        Why::Failed(ShareFault::NoSuchSeat) => writeln!(note, "there was none"),
        Why::Failed(ShareFault::NoMemory) => writeln!(note, "there is no memory for it"),
        Why::Owner => writeln!(note, "a line says `end {seat}`"),
        Why::Alone(other) => writeln!(note, "the one at seat {other} asked for the screen alone"),
        Why::Handshake(limit) => {
            writeln!(note, "its handshake was not done within {} s", limit / 1000)
        }
        Why::Stuck(limit) => {
            let seconds = limit / 1000;
            writeln!(
                note,
                "bytes waited for it for {seconds} s, and it took none"
            )
        }
        Why::Newcomer => writeln!(note, "its handshake was not done, and another one came"),
        Why::NewSize { width, height } => {
            writeln!(
                note,
                "the server is back, and its screen is {width} by {height} now"
            )
        }
    }
}

// Says why the server that is relayed goes away, and when it is called again, if it is. The pause
// before that is whole seconds, in milliseconds.
fn say_gone(why: Gone, again: Option<u64>, note: &mut Note) -> fmt::Result {
    let Some(pause) = again else {
        return say_why_gone(why, note);
    };
    say_why_away(why, note)?;
    let seconds = pause / 1000;
    writeln!(note, "rfb: the server is called again in {seconds} s")
}

// Says why one is away that is called again. It may have been called before.
fn say_why_away(why: Gone, note: &mut Note) -> fmt::Result {
    match why {
        Gone::Device => writeln!(note, "rfb: there is no connection to the server"),
        other => say_why_gone(other, note),
    }
}

/// Says why it goes away, or is disconnected.
pub fn say_why_gone(why: Gone, note: &mut Note) -> fmt::Result {
    match why {
        Gone::Closed => writeln!(note, "rfb: the server leaves: it closed its connection"),
        Gone::Device => writeln!(note, "rfb: the server leaves: its connection broke"),
        Gone::Failed(fault) => writeln!(note, "rfb: {}", ServerFlaw(fault)),
        Gone::Size { width, height } => writeln!(
            note,
            "rfb: the server's screen is {width} by {height}, not of 1 to 4096 pixels a side"
        ),
    }
}
