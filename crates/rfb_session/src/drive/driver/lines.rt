//! Lines that report to a rig what happens.

ghost use Rattle.std.specs.Prelude.{◌≡◌, IfOk};
ghost use Rattle.rfb_session.specs.drive.driver.RigLines.{ready_line, done_line, changed_line};
ghost use Rattle.rfb_session.specs.drive.driver.RigLines.{drive_bell_line, drive_text_line};

use crate::owner::tell_text_hex;
use rfb_picture::Rect;
use std::alloc::Global;
use std::io;
use std::io::Write;

/// The first picture is shown: the screen has this size, and the server this name. Of that 1,024
/// bytes are printed at most.
pub(crate) fn ready_line(alloc: Global, width: u16, height: u16, name: &[u8]) -> io::Result<Vec<u8>>
    ensures { IfOk result (λ line. line.items ≡ ready_line width height name.now) }
{
    let mut line = Vec::new(alloc);
    write!(line, "ready {width} {height} ")?;
    tell_text_hex(&mut line, name)?;
    writeln!(line)?;
    Ok(line)
}

/// The line of this number is done.
pub(crate) fn done_line(alloc: Global, number: u64) -> io::Result<Vec<u8>>
    ensures { IfOk result (λ line. line.items ≡ done_line number) }
{
    let mut line = Vec::new(alloc);
    writeln!(line, "done {number}")?;
    Ok(line)
}

/// An update changed this rectangle.
pub(crate) fn changed_line(alloc: Global, rect: Rect) -> io::Result<Vec<u8>>
    ensures { IfOk result (λ line. line.items ≡ changed_line rect) }
{
    let Rect { x, y, w, h } = rect;
    let mut line = Vec::new(alloc);
    writeln!(line, "changed {x} {y} {w} {h}")?;
    Ok(line)
}

/// The server rang a bell, RFC 6143 section 7.6.3.
pub(crate) fn bell_line(alloc: Global) -> io::Result<Vec<u8>>
    ensures { IfOk result (λ line. line.items ≡ drive_bell_line) }
{
    let mut line = Vec::new(alloc);
    writeln!(line, "bell")?;
    Ok(line)
}

/// It cut a text, section 7.6.4. Of that 1,024 bytes are printed at most.
pub(crate) fn text_line(alloc: Global, text: &[u8]) -> io::Result<Vec<u8>>
    ensures { IfOk result (λ line. line.items ≡ drive_text_line text.now) }
{
    let mut line = Vec::new(alloc);
    write!(line, "text ")?;
    tell_text_hex(&mut line, text)?;
    writeln!(line)?;
    Ok(line)
}
