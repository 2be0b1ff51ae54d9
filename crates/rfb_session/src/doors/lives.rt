//! A run whose doors open and close.

ghost use Rattle.std.specs.Prelude.{IfSome};
ghost use Rattle.rfb_session.specs.doors.Arrivals.{AsksFor, LetsIn};
ghost use Rattle.rfb_session.specs.doors.Lives.{Closes, Lives, Opens, telling};
ghost use Rattle.rfb_session.specs.doors.Tenants.{HasTenants};

use crate::doors::clock::{Clock, Pause};
use crate::doors::cores::Core;
use crate::doors::device::Device;
use crate::doors::host::{Arrival, Arrivals, Host};
use crate::doors::place::Place;
use crate::doors::turns::turn;
use crate::doors::waiting::{how_long, is_over};
use crate::loops::turns;

/// Lets a device in, does a turn and closes what is over, time after time, until the core says that
/// all has ended, or the clock does. It waits between as `run` does. `part` is as for `turn`. The
/// clock and the arrivals are one value, since the clock has to know when a newcomer is ready.
pub fn live<C: Host, D: Device + Drop, S: Clock + Arrivals<D>>(
    core: &mut C,
    doors: &mut [Place<D>],
    shell: &mut S,
    part: &mut [u8],
)
    ensures lives { Lives
        (telling C.steps C.opens C.declines C.closed C.waiting D.unread D.written D.failed S.fresh)
        core.old core.new doors.old doors.new }
    ensures tenants { HasTenants
        (telling C.steps C.opens C.declines C.closed C.waiting D.unread D.written D.failed S.fresh)
        core.old core.new doors.old doors.new }
{
    let mut until = Pause::Look;
    for _turn in 0..turns() {
        if core.is_done() || !shell.wait(until) {
            return;
        }
        open(core, doors, shell);
        let next = turn(core, doors, shell, part);
        close(core, doors);
        until = how_long(core, shell, doors.len(), next);
    }
}

/// Lets one device in, if the core would have one, one came or was called, and the core has a door
/// for it. What was there is dropped.
pub fn open<C: Host, D: Device + Drop, A: Arrivals<D>>(
    core: &mut C,
    doors: &mut [Place<D>],
    arrivals: &mut A,
)
    ensures opens { Opens C.opens C.declines A.fresh core.old core.new doors.old doors.new }
    ensures lets_in { LetsIn C.calling C.welcoming A.called A.asked C.opens C.declines A.placed
        core.old core.new arrivals.old arrivals.new }
{
    let Some(Arrival { device, from }) = next_of(core, arrivals) else {
        return;
    };
    match core.opened(doors.len(), from.as_str()) {
        Some(door) => {
            doors[door] = Place::Held(device);
            arrivals.seated(Some(door));
        }
        None => arrivals.seated(None),
    }
}

// The device that is to be let in, if there is one.
fn next_of<C: Host, D, A: Arrivals<D>>(core: &C, arrivals: &mut A) -> Option<Arrival<D>>
    ensures fresh { IfSome result (λ arrival. A.fresh arrival.device) }
    ensures asks { AsksFor (C.calling core.now) (C.welcoming core.now) A.called A.asked
        arrivals.old result arrivals.new }
{
    if core.calls() {
        return arrivals.call();
    }
    if core.welcomes() {
        arrivals.next()
    } else {
        None
    }
}

/// Empties each door that may be closed and where nothing waits. What was there is dropped.
pub fn close<C: Core, D: Drop>(core: &C, doors: &mut [Place<D>])
    ensures { Closes C.closed C.waiting core.now doors.old doors.new }
{
    for door in 0..doors.len() {
        if is_over(core, door) {
            doors[door] = Place::Empty;
        }
    }
}
