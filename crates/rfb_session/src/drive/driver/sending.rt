//! The messages that a line becomes, RFC 6143 sections 7.5.4 to 7.5.6.

ghost use Rattle.std.specs.Prelude.{◌≡◌, ◌≤◌, ◌++◌, ◌∷◌, [], length, map, IfOk};
ghost use Rattle.std.specs.Str.{chars};
ghost use Rattle.rfb_session.specs.drive.Keyboard.{typed};
ghost use Rattle.rfb_session.specs.drive.driver.Acts as spec;
ghost use Rattle.rfb_session.specs.drive.driver.Acts.{OfKey, OfPointer, OfText, acts_of};
ghost use Rattle.rfb_session.specs.drive.driver.Acts.{clicks, pasted, place_named, pressed};
ghost use Rattle.rfb_session.specs.drive.driver.Acts.{spelled, turning};

use crate::beginning::beginning_of;
use crate::drive::drive_line::DriveLine;
use crate::drive::key_event::KeyEvent;
use crate::drive::typing::type_text;
use crate::drive::words::{Place, Press, Way};
use crate::relay::TEXT_MOST;
use hex::FromHexError;
use rfb_wire::ClientHead;
use std::alloc::{AllocError, Global};

const FIRST_BUTTON: u8 = 1;

// The buttons that a wheel is.
const WHEEL_UP: u8 = 8;

const WHEEL_DOWN: u8 = 16;

/// Appends the messages of a line that sends some, where the pointer is at a place. Where there is
/// no memory for all of them a beginning may be appended.
pub(crate) fn spell_line(
    alloc: Global,
    said: &DriveLine<'_>,
    at: Place,
    out: &mut Vec<u8>,
) -> Result<(), AllocError>
    ensures { IfOk result (λ _. out.new.items ≡ out.old.items ++ spelled (acts_of at said.now)) }
{
    match said {
        DriveLine::Key(events) => spell_keys(events.as_slice(), out),
        DriveLine::Down(key) => spell_key(KeyEvent::down(*key), out),
        DriveLine::Up(key) => spell_key(KeyEvent::up(*key), out),
        DriveLine::Text(text) => spell_typed(alloc, text, out),
        DriveLine::Move(place) => spell_pointer(0, *place, out),
        DriveLine::Click(press) => spell_press(*press, 1, at, out),
        DriveLine::Double(press) => spell_press(*press, 2, at, out),
        DriveLine::Drag(place) => spell_drag(at, *place, out),
        DriveLine::Wheel(way, times) => spell_clicks(turning(*way), *times, at, out),
        DriveLine::Paste(digits) => spell_pasted(alloc, digits, out),
        DriveLine::PasteFile(_)
        | DriveLine::Save(..)
        | DriveLine::Expect(..)
        | DriveLine::Still(_)
        | DriveLine::Wait(_)
        | DriveLine::UntilChange(_)
        | DriveLine::Timeout(_) => Ok(()),
    }
}

// A key goes down or up.
fn spell_key(event: KeyEvent, out: &mut Vec<u8>) -> Result<(), AllocError>
    ensures { IfOk result (λ _. out.new.items
        ≡ out.old.items ++ spelled (OfKey event ∷ [])) }
{
    let head = ClientHead::Key {
        down: event.down,
        key: event.key,
    };
    out.extend_from_slice(head.spell().as_slice())
}

// One after another does.
fn spell_keys(events: &[KeyEvent], out: &mut Vec<u8>) -> Result<(), AllocError>
    ensures { IfOk result (λ _. out.new.items
        ≡ out.old.items ++ spelled (map (λ event. OfKey event) events.now)) }
{
    for event in events {
        spell_key(*event, out)?;
    }
    Ok(())
}

// A text is typed.
fn spell_typed(alloc: Global, text: &str, out: &mut Vec<u8>) -> Result<(), AllocError>
    ensures { IfOk result (λ _. out.new.items
        ≡ out.old.items ++ spelled (map (λ event. OfKey event) (typed (chars text.now)))) }
{
    let mut events = Vec::new(alloc);
    type_text(text, &mut events)?;
    spell_keys(events.as_slice(), out)
}

// The pointer is at a place, with these buttons down.
fn spell_pointer(buttons: u8, at: Place, out: &mut Vec<u8>) -> Result<(), AllocError>
    ensures { IfOk result (λ _. out.new.items
        ≡ out.old.items ++ spelled (OfPointer buttons at ∷ [])) }
{
    let head = ClientHead::Pointer {
        buttons,
        x: at.x,
        y: at.y,
    };
    out.extend_from_slice(head.spell().as_slice())
}

// Buttons go down and up at a place, so many times.
fn spell_clicks(buttons: u8, times: u16, at: Place, out: &mut Vec<u8>) -> Result<(), AllocError>
    ensures { IfOk result (λ _. out.new.items
        ≡ out.old.items ++ spelled (clicks buttons at times)) }
{
    for _time in 0..times {
        spell_pointer(buttons, at, out)?;
        spell_pointer(0, at, out)?;
    }
    Ok(())
}

// A button goes down and up so many times, after the pointer has gone to its place, if it has one.
fn spell_press(press: Press, times: u16, at: Place, out: &mut Vec<u8>) -> Result<(), AllocError>
    ensures { IfOk result (λ _. out.new.items
        ≡ out.old.items ++ spelled (pressed press times at)) }
{
    let Some(place) = press.at else {
        return spell_clicks(mask_of(press.button), times, at, out);
    };
    spell_pointer(0, place, out)?;
    spell_clicks(mask_of(press.button), times, place, out)
}

// The first button goes down at a place, and up at another.
fn spell_drag(from: Place, to: Place, out: &mut Vec<u8>) -> Result<(), AllocError>
    ensures { IfOk result (λ _. out.new.items
        ≡ out.old.items ++ spelled (spec.dragged from to)) }
{
    spell_pointer(FIRST_BUTTON, from, out)?;
    spell_pointer(FIRST_BUTTON, to, out)?;
    spell_pointer(0, to, out)
}

// The text with these digits is cut.
fn spell_pasted(alloc: Global, digits: &[u8], out: &mut Vec<u8>) -> Result<(), AllocError>
    ensures { IfOk result (λ _. out.new.items
        ≡ out.old.items ++ spelled (OfText (pasted digits.now) ∷ [])) }
{
    match hex::decode(alloc, digits) {
        Ok(text) => spell_text(beginning_of(text.as_slice(), TEXT_MOST), out),
        Err(FromHexError::OutOfMemory) => Err(AllocError),
        Err(_) => spell_text(&[], out),
    }
}

/// A text is cut.
pub(crate) fn spell_text(text: &[u8], out: &mut Vec<u8>) -> Result<(), AllocError>
    requires few { length text.now ≤ 1048576 }
    ensures { IfOk result (λ _. out.new.items
        ≡ out.old.items ++ spelled (OfText text.now ∷ [])) }
{
    let head = ClientHead::CutText(text.len() as u32);
    out.extend_from_slice(head.spell().as_slice())?;
    out.extend_from_slice(text)
}

// The bit of a button.
fn mask_of(button: u8) -> u8
    ensures { result ≡ spec.mask_of button }
{
    match button {
        1..=8 => 1 << (button - 1),
        _ => 0,
    }
}

// The bit of the button that a wheel is when it turns so.
fn turning(way: Way) -> u8
    ensures { result ≡ spec.turning way }
{
    match way {
        Way::Up => WHEEL_UP,
        Way::Down => WHEEL_DOWN,
    }
}

/// The place that a line names for the pointer, if it names one.
pub(crate) fn place_named(said: &DriveLine<'_>) -> Option<Place>
    ensures { result ≡ place_named said.now }
{
    match said {
        DriveLine::Move(place) | DriveLine::Drag(place) => Some(*place),
        DriveLine::Click(press) | DriveLine::Double(press) => press.at,
        _ => None,
    }
}
