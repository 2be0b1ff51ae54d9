//! What a keyboard does where a text is typed.

ghost use Rattle.std.specs.Prelude.{◌≡◌, ◌++◌, ℕ, take, IfErr, IfOk};
ghost use Rattle.std.specs.Str.{chars};
ghost use Rattle.rfb_session.specs.drive.Characters.{key_of_char};
ghost use Rattle.rfb_session.specs.drive.Keyboard as spec;

use crate::drive::key_event::KeyEvent;
use arrayvec::ArrayVec;
use std::alloc::AllocError;

const BACK_SPACE: u32 = 0xFF08;

const TAB: u32 = 0xFF09;

const RETURN: u32 = 0xFF0D;

const ESCAPE: u32 = 0xFF1B;

const DELETE: u32 = 0xFFFF;

// What a US keyboard has shifted, beside capitals.
const SHIFTED: [char; 21] = [
    '~', '!', '@', '#', '$', '%', '^', '&', '*', '(', ')', '_', '+', '{', '}', '|', ':', '"', '<',
    '>', '?',
];

// The key that shifts.
const SHIFT: u32 = 0xFFE1;

// Characters that Latin-1 lacks have keys from here on.
const UNICODE: u32 = 0x0100_0000;

/// The key of a character, as X11 numbers it. It is `None` for a control character that no key
/// has.
pub fn key_of_char(character: char) -> Option<u32>
    ensures { result ≡ key_of_char character }
{
    let code = u32::from(character);
    match code {
        8 => Some(BACK_SPACE),
        9 => Some(TAB),
        10 | 13 => Some(RETURN),
        27 => Some(ESCAPE),
        127 => Some(DELETE),
        0..=31 | 128..=159 => None,
        0..=255 => Some(code),
        _ => Some(UNICODE + code),
    }
}

/// Whether a US keyboard has a character shifted.
pub fn is_shifted(character: char) -> bool
    ensures { result ≡ spec.is_shifted character }
{
    character.is_ascii_uppercase() || SHIFTED.contains(&character)
}

/// What happens to the keys where a character is typed: its key goes down and up, with Shift held
/// around it if it is shifted. Nothing happens where it has no key.
pub fn type_char(character: char) -> ArrayVec<KeyEvent, 4>
    ensures { result.items ≡ spec.typed_char character }
{
    let mut events = ArrayVec::new();
    let Some(key) = key_of_char(character) else {
        return events;
    };
    let shifted = is_shifted(character);
    if shifted {
        events.push(KeyEvent::down(SHIFT));
    }
    events.push(KeyEvent::down(key));
    events.push(KeyEvent::up(key));
    if shifted {
        events.push(KeyEvent::up(SHIFT));
    }
    events
}

/// What happens to the keys where a text is typed, after what there was. Where there is no memory
/// for all of it, a beginning of the text has been typed.
pub fn type_text(text: &str, events: &mut Vec<KeyEvent>) -> Result<(), AllocError>
    ensures all { IfOk result (λ _. events.new.items
        ≡ events.old.items ++ spec.typed (chars text.now)) }
    ensures beginning { IfErr result (λ _. (n : ℕ) × (events.new.items
        ≡ events.old.items ++ spec.typed (take n (chars text.now)))) }
{
    for character in text.chars() {
        events.extend_from_slice(type_char(character).as_slice())?;
    }
    Ok(())
}
