//! Lines that say what viewers do, and which of the owner's lines are bad.

ghost use Rattle.std.specs.Prelude.{◌≡◌, ◌≤◌, OnOk, length, take};
ghost use Rattle.std.specs.Io.KnownBytes.{Appends};
ghost use Rattle.hex.specs.Hex.{encode_lower};
ghost use Rattle.rfb_session.specs.owner.ShareLines.{event_line, join_line, key_line, leave_line};
ghost use Rattle.rfb_session.specs.owner.ShareLines.{refusal_line, text_line};

use crate::beginning::beginning_of;
use crate::engine::{Lent, send};
use crate::owner::order::Refusal;
use crate::share::event::SeatEvent;
use std::fmt::Display;
use std::io;
use std::io::{ErrorKind, Write};

// How many bytes of a text are printed at most.
const TOLD_MAX: usize = 1024;

/// A viewer came to a seat.
pub fn tell_join<W: Write>(output: &mut W, seat: u8) -> io::Result<()>
    ensures { OnOk result
        (Appends (W.contents output.old) (W.contents output.new) (join_line seat)) }
{
    writeln!(output, "join {seat}")?;
    Ok(())
}

/// It went, or was disconnected, with nothing wrong.
pub fn tell_leave<W: Write>(output: &mut W, seat: u8) -> io::Result<()>
    ensures { OnOk result
        (Appends (W.contents output.old) (W.contents output.new) (leave_line seat)) }
{
    writeln!(output, "leave {seat} ok")?;
    Ok(())
}

/// It was disconnected for a fault.
pub fn tell_fault<W: Write, F: Display>(output: &mut W, seat: u8, fault: &F) -> io::Result<()> {
    writeln!(output, "leave {seat} fault {fault}")?;
    Ok(())
}

/// What it did. Of a text 1,024 bytes are printed at most.
pub fn tell_event<W: Write>(output: &mut W, seat: u8, event: &SeatEvent) -> io::Result<()>
    ensures { OnOk result
        (Appends (W.contents output.old) (W.contents output.new) (event_line seat event.now)) }
{
    match event {
        SeatEvent::Ready { .. } => Ok(()),
        SeatEvent::Key { down, key } => tell_key(output, seat, *down, *key),
        SeatEvent::Pointer { buttons, x, y } => {
            writeln!(output, "pointer {seat} {buttons} {x} {y}")?;
            Ok(())
        }
        SeatEvent::CutText { kept, .. } => tell_text(output, seat, kept),
    }
}

// A key went down or up.
fn tell_key<W: Write>(output: &mut W, seat: u8, down: bool, key: u32) -> io::Result<()>
    ensures { OnOk result
        (Appends (W.contents output.old) (W.contents output.new) (key_line seat down key)) }
{
    let way = if down { "down" } else { "up" };
    writeln!(output, "key {seat} {way} {key}")?;
    Ok(())
}

// A text was cut.
fn tell_text<W: Write>(output: &mut W, seat: u8, text: &[u8]) -> io::Result<()>
    ensures { OnOk result
        (Appends (W.contents output.old) (W.contents output.new) (text_line seat text.now)) }
{
    write!(output, "text {seat} ")?;
    tell_text_hex(output, text)?;
    writeln!(output)?;
    Ok(())
}

/// The hexadecimal digits of a text, of its first 1,024 bytes at most.
pub(crate) fn tell_text_hex<W: Write>(output: &mut W, text: &[u8]) -> io::Result<()>
    ensures { OnOk result (Appends (W.contents output.old) (W.contents output.new)
        (encode_lower (take 1024 text.now))) }
{
    tell_hex(output, beginning_of(text, TOLD_MAX))
}

// Two hexadecimal digits for each byte.
fn tell_hex<W: Write>(output: &mut W, bytes: &[u8]) -> io::Result<()>
    requires { length bytes.now ≤ 1024 }
    ensures { OnOk result
        (Appends (W.contents output.old) (W.contents output.new) (encode_lower bytes.now)) }
{
    let mut digits = [0; 2 * TOLD_MAX];
    let digits = &mut digits[..2 * bytes.len()];
    if hex::encode_to_slice(bytes, digits).is_err() {
        return Err(io::Error::from(ErrorKind::Other));
    }
    send(digits, &mut Lent::new(output)).map_err(|_| io::Error::from(ErrorKind::Other))
}

/// A line of the owner's is not done, and why.
pub fn tell_refusal<E: Write>(errors: &mut E, line: u64, refusal: Refusal) -> io::Result<()>
    ensures { OnOk result
        (Appends (E.contents errors.old) (E.contents errors.new) (refusal_line line refusal)) }
{
    match refusal {
        Refusal::Bad => writeln!(errors, "line {line}: bad line"),
        Refusal::NoMemory => writeln!(errors, "line {line}: fault 30 NoMemory"),
    }
}
