//! All doors, turn after turn.

ghost use Rattle.std.specs.Prelude.{◌<◌, length};
ghost use Rattle.rfb_session.specs.doors.Turns.{Turns, TurnsIn, TurnsOnce, TurnsOut};

use crate::doors::clock::{Clock, Pause};
use crate::doors::cores::Core;
use crate::doors::device::Device;
use crate::doors::incoming::hear;
use crate::doors::outgoing::tell;
use crate::doors::waiting::{are_over, how_long};
use crate::loops::turns;

/// Turns, one after the other, until each door may be closed and nothing waits there, or until the
/// clock says so. It waits between them where no door is both ready and wanted. `part` is as for
/// `turn`.
pub fn run<C: Core, D: Device, K: Clock>(
    core: &mut C,
    doors: &mut [D],
    clock: &mut K,
    part: &mut [u8],
)
    ensures { Turns C.steps D.unread D.written D.failed D.stands
        core.old core.new doors.old doors.new }
{
    let mut until = Pause::Look;
    for _turn in 0..turns() {
        if are_over(core, doors.len()) || !clock.wait(until) {
            return;
        }
        let next = turn(core, doors, clock, part);
        until = how_long(core, clock, doors.len(), next);
    }
}

/// One turn: reads once at each door that is worth it, reports to the core that all has been heard,
/// and writes once at each door that is worth it. Returns when the core wants the next turn, in
/// milliseconds. `part` holds what one read gives, and is overwritten; where it is empty, nothing
/// is read.
pub fn turn<C: Core, D: Device, K: Clock>(
    core: &mut C,
    doors: &mut [D],
    clock: &mut K,
    part: &mut [u8],
) -> Option<u64>
    ensures turns { Turns C.steps D.unread D.written D.failed D.stands
        core.old core.new doors.old doors.new }
    ensures once { TurnsOnce C.steps C.due D.unread D.written D.failed D.stands
        result core.old core.new doors.old doors.new }
{
    for door in 0..doors.len() {
        hear_at(core, doors, clock, part, door);
    }
    let next = core.turned(clock.now());
    for door in 0..doors.len() {
        tell_at(core, doors, clock, door);
    }
    next
}

// Reads once at a door, if it is worth it.
fn hear_at<C: Core, D: Device, K: Clock>(
    core: &mut C,
    doors: &mut [D],
    clock: &mut K,
    part: &mut [u8],
    door: usize,
)
    requires { door < length doors.old }
    ensures { TurnsIn C.steps D.unread D.written D.failed D.stands
        core.old core.new doors.old doors.new }
{
    if clock.reads(door) {
        let most = core.room(door).min(part.len());
        let answer = hear(core, &mut doors[door], door, part);
        clock.heard(door, answer, most);
    }
}

// Writes once at a door, if it is worth it.
fn tell_at<C: Core, D: Device, K: Clock>(core: &mut C, doors: &mut [D], clock: &mut K, door: usize)
    requires { door < length doors.old }
    ensures { TurnsOut C.steps D.unread D.written D.failed D.stands
        core.old core.new doors.old doors.new }
{
    if clock.writes(door) {
        let answer = tell(core, &mut doors[door], door);
        clock.told(door, answer);
    }
}
