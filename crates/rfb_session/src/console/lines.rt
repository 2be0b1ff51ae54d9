//! Lines for the owner that say who comes, and who is disconnected for a fault.

ghost use Rattle.std.specs.Prelude.{◌≡◌, ◌++◌, ◌∷◌, List, ℕ, OnOk, []};
ghost use Rattle.rfb_session.specs.console.SeatLines.{come_line, busy_line, IsFaultLine};

use crate::console::names::name_of;
use crate::seat::Seat;
use std::fmt::Display;
use std::io;
use std::io::Write;

/// A connection from there takes a seat.
pub(crate) fn tell_come(lines: &mut Vec<u8>, seat: Seat, from: &str) -> io::Result<()>
    ensures { OnOk result (lines.new.items ≡ lines.old.items ++ come_line seat from.now) }
{
    let number = seat.number();
    writeln!(lines, "come {number} {from}")
}

/// There is no seat for a connection from there.
pub(crate) fn tell_busy(lines: &mut Vec<u8>, from: &str) -> io::Result<()>
    ensures { OnOk result (lines.new.items ≡ lines.old.items ++ busy_line from.now) }
{
    writeln!(lines, "busy {from}")
}

/// The viewer of a seat is disconnected for a fault.
pub(crate) fn tell_failed<F: Display>(lines: &mut Vec<u8>, seat: Seat, fault: &F) -> io::Result<()>
    ensures { OnOk result ((line : List ℕ) × IsFaultLine seat line
        × (lines.new.items ≡ lines.old.items ++ line)) }
{
    let number = seat.number();
    write!(lines, "leave {number} fault ")?;
    tell_name(lines, fault)?;
    writeln!(lines)
}

/// The fault's name, in some bytes.
pub(crate) fn tell_name<F: Display>(lines: &mut Vec<u8>, fault: &F) -> io::Result<()>
    ensures { OnOk result ((name : List ℕ) × (lines.new.items ≡ lines.old.items ++ name)) }
{
    lines.extend_from_slice(name_of(fault).as_bytes())?;
    Ok(())
}
