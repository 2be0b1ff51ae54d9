//! Lines that report what the server of a relay does.

ghost use Rattle.std.specs.Prelude.{◌≡◌, ◌++◌, List, ℕ, OnOk};
ghost use Rattle.rfb_session.specs.relay.ServerLines.{bell_line, server_text_line, up_line};
ghost use Rattle.rfb_session.specs.relay.ServerLines.{IsDownFor, IsDownLine};

use crate::console::lines::tell_name;
use crate::owner::tell_text_hex;
use crate::relay::Gone;
use rfb_viewer::ViewerFault;
use std::io;
use std::io::Write;

/// The server shows its screen, which has this size and this name.
pub(crate) fn tell_up(lines: &mut Vec<u8>, width: u16, height: u16, name: &[u8]) -> io::Result<()>
    ensures { OnOk result (lines.new.items
        ≡ lines.old.items ++ up_line width height name.now) }
{
    write!(lines, "server up {width} {height} ")?;
    tell_text_hex(lines, name)?;
    writeln!(lines)
}

/// It went away.
pub(crate) fn tell_down(lines: &mut Vec<u8>, gone: Gone) -> io::Result<()>
    ensures { OnOk result ((line : List ℕ) × IsDownLine gone line
        × (lines.new.items ≡ lines.old.items ++ line)) }
{
    match gone {
        Gone::Closed => writeln!(lines, "server down closed"),
        Gone::Device => writeln!(lines, "server down failed"),
        Gone::Failed(fault) => tell_down_by(lines, &fault),
        Gone::Size { width, height } => writeln!(lines, "server down size {width} {height}"),
    }
}

// It sent what no server does, or memory was wanting.
fn tell_down_by(lines: &mut Vec<u8>, fault: &ViewerFault) -> io::Result<()>
    ensures { OnOk result ((line : List ℕ) × IsDownFor line
        × (lines.new.items ≡ lines.old.items ++ line)) }
{
    write!(lines, "server down ")?;
    tell_name(lines, fault)?;
    writeln!(lines)
}

/// It rang a bell, RFC 6143 section 7.6.3.
pub(crate) fn tell_bell(lines: &mut Vec<u8>) -> io::Result<()>
    ensures { OnOk result (lines.new.items ≡ lines.old.items ++ bell_line) }
{
    writeln!(lines, "server bell")
}

/// It cut a text, section 7.6.4. Of that 1,024 bytes are printed at most.
pub(crate) fn tell_server_text(lines: &mut Vec<u8>, text: &[u8]) -> io::Result<()>
    ensures { OnOk result (lines.new.items ≡ lines.old.items ++ server_text_line text.now) }
{
    write!(lines, "server text ")?;
    tell_text_hex(lines, text)?;
    writeln!(lines)
}
