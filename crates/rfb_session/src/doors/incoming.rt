//! One read at one door.

ghost use Rattle.std.specs.Prelude.{◌≡◌, ◌≤◌, ◌<◌, length};
ghost use Rattle.rfb_session.specs.doors.Events.{Brings};
ghost use Rattle.rfb_session.specs.doors.Turns.{MovesIn, Hears};

use crate::doors::cores::Core;
use crate::doors::device::{Answer, Device};

/// Reads once at a door, if the core has room there, and brings the core all that came. It reads no
/// more than the core has room for, nor than `part` holds, which is overwritten. Where it reads
/// nothing for want of room it answers `Again`, so what is known of the door's readiness stays.
pub fn hear<C: Core, D: Device>(
    core: &mut C,
    device: &mut D,
    door: usize,
    part: &mut [u8],
) -> Answer
    ensures moves { MovesIn C.steps D.unread D.written D.failed D.stands
        door core.old core.new device.old device.new }
    ensures hears { Hears C.steps door result core.old core.new }
    ensures waits { result ≡ Answer.Waits → 0 < C.space core.old door }
{
    let count = core.room(door).min(part.len());
    if count == 0 {
        return Answer::Again;
    }
    let part = &mut part[..count];
    match device.read(part) {
        Answer::Moved(came) => {
            bring(core, door, &part[..came]);
            Answer::Moved(came)
        }
        Answer::Ended => {
            core.ended(door);
            Answer::Ended
        }
        Answer::Again => Answer::Again,
        Answer::Waits => Answer::Waits,
        Answer::Failed => {
            core.failed(door);
            Answer::Failed
        }
    }
}

// Brings a core all of these bytes, for which it has room.
fn bring<C: Core>(core: &mut C, door: usize, bytes: &[u8])
    requires { length bytes.now ≤ C.space core.old door }
    ensures { Brings C.steps door core.old bytes.now core.new }
{
    let mut rest = bytes;
    while !rest.is_empty() {
        let used = core.received(door, rest);
        rest = &rest[used..];
    }
}
