//! What an echo does over many events, and over any two devices.

ghost use Rattle.std.specs.Prelude.{ℕ, List};
ghost use Rattle.rfb_session.specs.declared.doors.echo.Echo.{Echo as AnEcho};
ghost use Rattle.rfb_session.specs.doors.Events.{Event, Runs};
ghost use Rattle.rfb_session.specs.doors.Echo.{Echoes, EchoesAll, LeavesBeginning};

use crate::doors::clock::Clock;
use crate::doors::device::Device;
use crate::doors::echo::Echo;
use crate::doors::turns::run;

/// Whatever is reported to it: what left at a door, and what waits there then, is what waited there
/// and what came at the other one.
pub fn echoes_all()
    ensures { (old new : AnEcho) (events : List Event) →
        Runs Echoes old events new → EchoesAll old events new }
{}

/// Runs an echo over the first two of these doors. What was written at one is what was read at the
/// other, in order, but for the last 64 bytes at most.
pub fn serve<D: Device, K: Clock>(doors: &mut [D], clock: &mut K, part: &mut [u8])
    ensures { (d : ℕ) → LeavesBeginning D.unread D.written doors.old doors.new d }
{
    let mut core = Echo::new();
    run(&mut core, doors, clock, part);
}
