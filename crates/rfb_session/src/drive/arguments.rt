//! The words after the first of a line, each kind by itself.

ghost use Rattle.std.specs.Prelude.{◌≡◌, ℕ, List, MatchOption};
ghost use Rattle.rfb_session.specs.declared.drive.key_event.KeyEvent.{KeyEvent};
ghost use Rattle.rfb_session.specs.declared.drive.words.Place.{Place};
ghost use Rattle.rfb_session.specs.declared.drive.words.Press.{Press};
ghost use Rattle.rfb_session.specs.declared.drive.words.Way.{Way};
ghost use Rattle.rfb_session.specs.drive.Arguments.{ArePresses, IsAt, IsButton};
ghost use Rattle.rfb_session.specs.drive.Arguments.{IsKeyAlone, AreSeconds};
ghost use Rattle.rfb_session.specs.drive.Arguments.{IsPlace, IsPress, IsWay, IsWheel};
ghost use Rattle.rfb_session.specs.language.Words.{texts};

use crate::drive::key_event::KeyEvent;
use crate::drive::keys::{key_of, pressing, read_combination};
use crate::drive::words::{Place, Press, Way};
use crate::language::{PIECES_MAX, read_count, read_number, read_slot};
use arrayvec::ArrayVec;

/// No line has more key events: sixteen for each of its words.
pub const PRESSES_MAX: usize = 128;

const UP: &[u8] = b"up";

const DOWN: &[u8] = b"down";

// The left one.
const FIRST_BUTTON: u8 = 1;

const LAST_BUTTON: u8 = 8;

/// Keys that go down and up, word by word.
pub fn read_presses(words: &[&[u8]]) -> Option<ArrayVec<KeyEvent, PRESSES_MAX>>
    ensures { MatchOption result
        ((events : List KeyEvent) → ¬ (ArePresses (texts words.now) events))
        (λ events. ArePresses (texts words.now) events.items) }
{
    if words.is_empty() {
        return None;
    }
    if words.len() > PIECES_MAX {
        return None;
    }
    let mut events = ArrayVec::new();
    for word in words {
        let keys = read_combination(word)?;
        events
            .try_extend_from_slice(pressing(keys.as_slice()).as_slice())
            .ok()?;
    }
    Some(events)
}

/// One key, by its name.
pub fn read_key(words: &[&[u8]]) -> Option<u32>
    ensures { MatchOption result ((key : ℕ) → ¬ (IsKeyAlone (texts words.now) key))
        (IsKeyAlone (texts words.now)) }
{
    let [name] = words else {
        return None;
    };
    key_of(name)
}

/// One number of seconds.
pub fn read_seconds(words: &[&[u8]]) -> Option<u32>
    ensures { MatchOption result ((n : ℕ) → ¬ (AreSeconds (texts words.now) n))
        (AreSeconds (texts words.now)) }
{
    let [n] = words else {
        return None;
    };
    read_count(n)
}

/// A place.
pub fn read_place(words: &[&[u8]]) -> Option<Place>
    ensures { MatchOption result ((place : Place) → ¬ (IsPlace (texts words.now) place))
        (IsPlace (texts words.now)) }
{
    let [x, y] = words else {
        return None;
    };
    read_at(x, y)
}

/// The place of these numbers.
pub fn read_at(x: &[u8], y: &[u8]) -> Option<Place>
    ensures { MatchOption result ((place : Place) → ¬ (IsAt x.now y.now place))
        (IsAt x.now y.now) }
{
    Some(Place {
        x: read_number(x)?,
        y: read_number(y)?,
    })
}

/// A button, the first where none is named, and a place or none.
pub fn read_press(words: &[&[u8]]) -> Option<Press>
    ensures { MatchOption result ((press : Press) → ¬ (IsPress (texts words.now) press))
        (IsPress (texts words.now)) }
{
    match words {
        [] => Some(Press {
            button: FIRST_BUTTON,
            at: None,
        }),
        [button] => Some(Press {
            button: read_button(button)?,
            at: None,
        }),
        [x, y] => Some(Press {
            button: FIRST_BUTTON,
            at: Some(read_at(x, y)?),
        }),
        [button, x, y] => Some(Press {
            button: read_button(button)?,
            at: Some(read_at(x, y)?),
        }),
        _ => None,
    }
}

// A button, by its number.
fn read_button(word: &[u8]) -> Option<u8>
    ensures { MatchOption result ((button : ℕ) → ¬ (IsButton word.now button))
        (IsButton word.now) }
{
    let button = read_slot(word)?;
    if button < FIRST_BUTTON || button > LAST_BUTTON {
        return None;
    }
    Some(button)
}

/// Which way a wheel turns, and how many times.
pub fn read_wheel(words: &[&[u8]]) -> Option<(Way, u16)>
    ensures { MatchOption result ((way : Way) (n : ℕ) → ¬ (IsWheel (texts words.now) way n))
        (λ turn. IsWheel (texts words.now) turn.0 turn.1) }
{
    let [way, n] = words else {
        return None;
    };
    Some((read_way(way)?, read_number(n)?))
}

// A way, by its name.
fn read_way(word: &[u8]) -> Option<Way>
    ensures { MatchOption result ((way : Way) → ¬ (IsWay word.now way)) (IsWay word.now) }
{
    if word == UP {
        return Some(Way::Up);
    }
    if word == DOWN {
        return Some(Way::Down);
    }
    None
}
